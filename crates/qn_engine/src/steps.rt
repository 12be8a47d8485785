//! One step on the parts of a network.

ghost use Rattle.std.specs.Prelude.{◌≡◌, ◌≢◌, ◌≤◌, ◌<◌, ◌^◌, ◌+◌, ◌++◌, ℕ, None, true, false, IfOk, OnOk, IfErr};
ghost use Rattle.qn_block.specs.Steps.{IsStepFault};
ghost use Rattle.qn_net.specs.Members.MemberValue.{own};
ghost use Rattle.qn_net.specs.Members.{role_of};
ghost use Rattle.qn_net.specs.NetworkValues.{NetworkValue};
ghost use Rattle.qn_net.specs.Steps.{meets_condition};
ghost use Rattle.qn_net.specs.Steps.Kind.{trace_step as trace_kind};
ghost use Rattle.qn_plan.specs.Planned.{cost_of_step};
ghost use Rattle.qn_engine.specs.Parts.{table_value};
ghost use Rattle.qn_engine.specs.Labels.{labels_without};
ghost use Rattle.qn_engine.specs.Carrying.{step_at, passing_at, AreClear, IsCarried, IsPassedAt, IsTraceAt, IsPairAt, IsMadeAt, IsNext};
ghost use Rattle.qn_engine.specs.Evaluated.{IsEngineFault};

use crate::fault::EngineFault;
use crate::fusing::{Fusion, fused};
use crate::labels::{append_left, couple_places, shared_places};
use crate::part::{Held, Part, Table, Tensor, is_odd_between, place_of, settled};
use crate::twisting::twisted;
use qn_block::laws::entries_of_blocks;
use qn_block::{BlockTensor, StepFault};
use qn_gauss::Steps;
use qn_net::operations::{pair_step_law, trace_step_law};
use qn_net::plans::plain_step_law;
use qn_pair::{Gate, contract};
use qn_plan::{Step, StepKind};
use qn_trace::trace;
use std::alloc::{AllocError, Global};
use std::sync::ledger::Ledger;
use std::thread::Threads;

/// The fault of the step after these.
fn fault_of(done: u32, fault: StepFault) -> EngineFault
    requires { done < 2 ^ 31 }
    ensures { (net : NetworkValue) → IsStepFault (passing_at net done) fault → IsPassedAt net done result }
{
    match fault {
        StepFault::Passed { at, offset } => EngineFault::Passed {
            step: done + 1,
            at,
            offset,
        },
        StepFault::Memory => EngineFault::Memory,
    }
}

/// The part with this tensor that a step made, with the labels that are left.
fn made<'a, const K: usize>(
    alloc: Global,
    number: u32,
    tensor: BlockTensor<K>,
    first: &[i64],
    second: &[i64],
    summed: &[i64],
) -> Result<Part<'a, K>, AllocError>
    ensures { IfOk result (λ p. p ≡ record { number = number; member = own tensor.entry; labels = labels_without summed.now first.now ++ labels_without summed.now second.now }) }
{
    let mut labels = Vec::new(alloc);
    append_left(first, summed, &mut labels)?;
    append_left(second, summed, &mut labels)?;
    Ok(Part {
        number,
        held: Held::Plain(Tensor::Made(tensor)),
        labels,
    })
}

/// Sums a part over lines of its own, as the step after these.
fn trace_step<'a, const K: usize>(
    alloc: Global,
    part: Part<'a, K>,
    summed: &[i64],
    twist: &[i64],
    done: u32,
) -> Result<Part<'a, K>, EngineFault>
    requires few { done < 2 ^ 31 }
    requires step { (net : NetworkValue) × IsTraceAt net done part summed.now twist.now }
    ensures value { IfOk result (λ r. (net : NetworkValue) → IsTraceAt net done part.entry summed.now twist.now → IsMadeAt net done r) }
    ensures clear { OnOk result ((net : NetworkValue) → IsTraceAt net done part.entry summed.now twist.now → passing_at net done ≡ None) }
    ensures err { IfErr result (λ e. (net : NetworkValue) → IsTraceAt net done part.entry summed.now twist.now → IsPassedAt net done e) }
{
    trace_step_law();
    entries_of_blocks();
    let Part {
        number,
        held,
        labels,
    } = part;
    let tensor = twisted(alloc, held, &labels, summed, twist, false)?;
    let a = tensor.get();
    a.known();
    let couples = couple_places(alloc, &labels, summed)?;
    match trace(alloc, a, &couples) {
        Ok(t) => {
            t.known();
            Ok(made(alloc, number, t, &labels, &[], summed)?)
        }
        Err(fault) => Err(fault_of(done, fault)),
    }
}

/// Contracts two parts, as the step after these.
fn pair_step<'a, const K: usize, R: Threads + Sync, G: Gate, L: Ledger>(
    rt: &R,
    alloc: Global,
    first: Part<'a, K>,
    second: Part<'a, K>,
    between_odd: bool,
    summed: &[i64],
    twist: &[i64],
    done: u32,
    workers: u32,
    gate: &G,
    steps: &mut Steps<L>,
) -> Result<Part<'a, K>, EngineFault>
    requires few { done < 2 ^ 31 }
    requires some_workers { 1 ≤ workers }
    requires few_workers { workers ≤ 64 }
    requires step { (net : NetworkValue) × IsPairAt net done first second between_odd summed.now twist.now }
    ensures value { IfOk result (λ r. (net : NetworkValue) → IsPairAt net done first.entry second.entry between_odd summed.now twist.now → IsMadeAt net done r) }
    ensures clear { OnOk result ((net : NetworkValue) → IsPairAt net done first.entry second.entry between_odd summed.now twist.now → passing_at net done ≡ None) }
    ensures err { IfErr result (λ e. (net : NetworkValue) → IsPairAt net done first.entry second.entry between_odd summed.now twist.now → IsPassedAt net done e) }
    ensures steps { (net : NetworkValue) → IsPairAt net done first.entry second.entry between_odd summed.now twist.now →
        meets_condition (role_of first.entry.member) first.entry.labels summed.now ≡ false → meets_condition (role_of second.entry.member) second.entry.labels summed.now ≡ false →
        steps.new ≤ steps.old + cost_of_step net (step_at net done) }
{
    pair_step_law();
    entries_of_blocks();
    let Part {
        number,
        held,
        labels,
    } = first;
    let Part {
        held: others,
        labels: more,
        ..
    } = second;
    let one = twisted(alloc, held, &labels, summed, twist, true)?;
    let two = settled(others)?;
    let a = one.get();
    a.known();
    let b = two.get();
    b.known();
    let shared = shared_places(alloc, &labels, &more, summed)?;
    match contract(rt, alloc, a, b, &shared, between_odd, workers, gate, steps) {
        Ok(t) => {
            t.known();
            Ok(made(alloc, number, t, &labels, &more, summed)?)
        }
        Err(fault) => Err(fault_of(done, fault)),
    }
}

/// Fuses or splits a part by a table that stands before it, as the step after these.
fn fuse_first<'a, const K: usize>(
    alloc: Global,
    table: Table<'a, K>,
    first: Part<'a, K>,
    second: Part<'a, K>,
    between_odd: bool,
    summed: &[i64],
    twist: &[i64],
) -> Result<Part<'a, K>, AllocError>
    requires table { table_value K table ≡ first.member }
    requires meets { meets_condition (role_of first.member) first.labels summed.now ≡ true }
    requires step { (net : NetworkValue) × (n : ℕ) × IsPairAt net n first second between_odd summed.now twist.now }
    ensures { IfOk result (λ r. (net : NetworkValue) (n : ℕ) → IsPairAt net n first.entry second.entry between_odd summed.now twist.now → IsMadeAt net n r) }
{
    entries_of_blocks();
    plain_step_law();
    let Part { number, labels, .. } = first;
    let Part {
        held,
        labels: more,
        ..
    } = second;
    let other = twisted(alloc, held, &more, summed, twist, true)?;
    let tensor = other.get();
    tensor.known();
    let fusion = Fusion {
        combiner: table.combiner(),
        is_fuse: table.is_fuse(),
        is_first: true,
        table_labels: &labels,
        tensor,
        tensor_labels: &more,
        summed,
        between_odd,
    };
    let t = fused(alloc, &fusion)?;
    made(alloc, number, t, &labels, &more, summed)
}

/// Fuses or splits a part by a table that stands behind it, as the step after these.
fn fuse_second<'a, const K: usize>(
    alloc: Global,
    table: Table<'a, K>,
    first: Part<'a, K>,
    second: Part<'a, K>,
    between_odd: bool,
    summed: &[i64],
    twist: &[i64],
) -> Result<Part<'a, K>, AllocError>
    requires table { table_value K table ≡ second.member }
    requires meets { meets_condition (role_of second.member) second.labels summed.now ≡ true }
    requires step { (net : NetworkValue) × (n : ℕ) × IsPairAt net n first second between_odd summed.now twist.now }
    ensures { IfOk result (λ r. (net : NetworkValue) (n : ℕ) → IsPairAt net n first.entry second.entry between_odd summed.now twist.now → IsMadeAt net n r) }
{
    entries_of_blocks();
    plain_step_law();
    let Part {
        number,
        held,
        labels,
    } = first;
    let Part { labels: more, .. } = second;
    let other = twisted(alloc, held, &labels, summed, twist, true)?;
    let tensor = other.get();
    tensor.known();
    let fusion = Fusion {
        combiner: table.combiner(),
        is_fuse: table.is_fuse(),
        is_first: false,
        table_labels: &more,
        tensor,
        tensor_labels: &labels,
        summed,
        between_odd,
    };
    let t = fused(alloc, &fusion)?;
    made(alloc, number, t, &labels, &more, summed)
}

/// Brings two parts together, as the step after these. The earlier of the two that is a table summed over just the legs that it combines fuses or splits the other.
fn join_step<'a, const K: usize, R: Threads + Sync, G: Gate, L: Ledger>(
    rt: &R,
    alloc: Global,
    first: Part<'a, K>,
    second: Part<'a, K>,
    between_odd: bool,
    summed: &[i64],
    twist: &[i64],
    done: u32,
    workers: u32,
    gate: &G,
    steps: &mut Steps<L>,
) -> Result<Part<'a, K>, EngineFault>
    requires few { done < 2 ^ 31 }
    requires some_workers { 1 ≤ workers }
    requires few_workers { workers ≤ 64 }
    requires step { (net : NetworkValue) × IsPairAt net done first second between_odd summed.now twist.now }
    ensures value { IfOk result (λ r. (net : NetworkValue) → IsPairAt net done first.entry second.entry between_odd summed.now twist.now → IsMadeAt net done r) }
    ensures clear { OnOk result ((net : NetworkValue) → IsPairAt net done first.entry second.entry between_odd summed.now twist.now → AreClear net done → passing_at net done ≡ None) }
    ensures err { IfErr result (λ e. (net : NetworkValue) → IsPairAt net done first.entry second.entry between_odd summed.now twist.now → IsPassedAt net done e) }
    ensures steps { (net : NetworkValue) → IsPairAt net done first.entry second.entry between_odd summed.now twist.now → steps.new ≤ steps.old + cost_of_step net (step_at net done) }
{
    match first.table(summed) {
        Some(table) => {
            return Ok(fuse_first(alloc, table, first, second, between_odd, summed, twist)?);
        }
        None => {}
    }
    match second.table(summed) {
        Some(table) => {
            return Ok(fuse_second(alloc, table, first, second, between_odd, summed, twist)?);
        }
        None => {}
    }
    pair_step(
        rt,
        alloc,
        first,
        second,
        between_odd,
        summed,
        twist,
        done,
        workers,
        gate,
        steps,
    )
}

/// Sums the part that the step takes.
fn take_trace<'a, const K: usize>(
    alloc: Global,
    parts: &mut Vec<Part<'a, K>>,
    step: &Step,
    twist: &[i64],
    done: u32,
) -> Result<(), EngineFault>
    requires few { done < 2 ^ 31 }
    requires kind { step.now.kind ≡ trace_kind }
    requires step { (net : NetworkValue) × IsNext net done parts.old.items step.now twist.now }
    ensures carried { OnOk result ((net : NetworkValue) → IsNext net done parts.old.items step.now twist.now → IsCarried net (done + 1) parts.new.items) }
    ensures err { IfErr result (λ e. (net : NetworkValue) → IsNext net done parts.old.items step.now twist.now → IsEngineFault net e) }
{
    let place = place_of(parts, step.first);
    let part = parts.remove(place);
    let result = match trace_step(alloc, part, &step.labels, twist, done) {
        Ok(result) => result,
        Err(fault) => return Err(fault),
    };
    parts.insert(place, result)?;
    Ok(())
}

/// Brings the two parts together that the step takes.
fn take_pair<'a, const K: usize, R: Threads + Sync, G: Gate, L: Ledger>(
    rt: &R,
    alloc: Global,
    parts: &mut Vec<Part<'a, K>>,
    step: &Step,
    twist: &[i64],
    done: u32,
    workers: u32,
    gate: &G,
    steps: &mut Steps<L>,
) -> Result<(), EngineFault>
    requires few { done < 2 ^ 31 }
    requires some_workers { 1 ≤ workers }
    requires few_workers { workers ≤ 64 }
    requires kind { step.now.kind ≢ trace_kind }
    requires step { (net : NetworkValue) × IsNext net done parts.old.items step.now twist.now }
    ensures carried { OnOk result ((net : NetworkValue) → IsNext net done parts.old.items step.now twist.now → IsCarried net (done + 1) parts.new.items) }
    ensures err { IfErr result (λ e. (net : NetworkValue) → IsNext net done parts.old.items step.now twist.now → IsEngineFault net e) }
    ensures steps { steps.new ≤ steps.old + step.now.cost }
{
    let i = place_of(parts, step.first);
    let j = place_of(parts, step.second);
    let between_odd = is_odd_between(parts, i, j);
    let second = parts.remove(j);
    let first = parts.remove(i);
    let result = match join_step(
        rt,
        alloc,
        first,
        second,
        between_odd,
        &step.labels,
        twist,
        done,
        workers,
        gate,
        steps,
    ) {
        Ok(result) => result,
        Err(fault) => return Err(fault),
    };
    parts.insert(i, result)?;
    Ok(())
}

/// Carries out the step after these: the parts that it takes are used up, and the result stands in the place of the earlier one.
pub(crate) fn take_step<'a, const K: usize, R: Threads + Sync, G: Gate, L: Ledger>(
    rt: &R,
    alloc: Global,
    parts: &mut Vec<Part<'a, K>>,
    step: &Step,
    twist: &[i64],
    done: u32,
    workers: u32,
    gate: &G,
    steps: &mut Steps<L>,
) -> Result<(), EngineFault>
    requires few { done < 2 ^ 31 }
    requires some_workers { 1 ≤ workers }
    requires few_workers { workers ≤ 64 }
    requires step { (net : NetworkValue) × IsNext net done parts.old.items step.now twist.now }
    ensures carried { OnOk result ((net : NetworkValue) → IsNext net done parts.old.items step.now twist.now → IsCarried net (done + 1) parts.new.items) }
    ensures err { IfErr result (λ e. (net : NetworkValue) → IsNext net done parts.old.items step.now twist.now → IsEngineFault net e) }
    ensures steps { steps.new ≤ steps.old + step.now.cost }
{
    match step.kind {
        StepKind::Trace => take_trace(alloc, parts, step, twist, done),
        StepKind::Pair | StepKind::Fuse => {
            take_pair(rt, alloc, parts, step, twist, done, workers, gate, steps)
        }
    }
}
