//! The value of a network, step by step along its plan.

ghost use Rattle.std.specs.Prelude.{◌≡◌, ◌≤◌, ◌<◌, ◌+◌, ◌-◌, ◌^◌, ℕ, length, take, drop, Some, None, negsuc, IfOk, OnOk, IfErr};
ghost use Rattle.std.specs.List.{sum_by};
ghost use Rattle.qn_net.specs.NetworkValues.{NetworkValue, passing_place};
ghost use Rattle.qn_plan.specs.Planned.{cost_of_plan, first_wide, planned as planned_steps};
ghost use Rattle.qn_engine.specs.Carrying.{IsCarried, IsFinished, IsOnWay};
ghost use Rattle.qn_engine.specs.Evaluated.{IsValueOf, IsCanonicalTensor, IsEngineFault};
ghost use Rattle.qn_engine.specs.Labels.{open_places};

use crate::fault::EngineFault;
use crate::known::known_steps;
use crate::labels::place_of_label;
use crate::part::{Part, parts_of, settled};
use crate::steps::take_step;
use qn_block::BlockTensor;
use qn_block::laws::entries_of_blocks;
use qn_gauss::Steps;
use qn_net::Network;
use qn_net::operations::{first_tensors_law, last_tensor_law};
use qn_net::values::network_value_law;
use qn_pair::Gate;
use qn_permute::permute;
use qn_plan::{PlanFault, Step, plan};
use std::alloc::{AllocError, Global};
use std::sync::ledger::Ledger;
use std::thread::Threads;

/// The label of the open leg at a place: -1, -2, .. .
fn open_label(place: usize) -> i64
    requires { place < 2 ^ 62 }
    ensures { result ≡ negsuc place }
{
    -1 - place as i64
}

/// The places of the labels -1, -2, .. .
fn open_order(alloc: Global, labels: &[i64]) -> Result<Vec<usize>, AllocError>
    requires { length labels.now < 2 ^ 62 }
    ensures { IfOk result (λ v. v.items ≡ open_places labels.now) }
{
    let mut order = Vec::with_capacity(alloc, labels.len())?;
    for i in 0..labels.len() {
        order.push(place_of_label(labels, open_label(i)))?;
    }
    Ok(order)
}

/// The steps of the network, or the first whose result is too wide.
fn planned<const K: usize>(alloc: Global, net: &Network<K>) -> Result<Vec<Step>, EngineFault>
    ensures steps { IfOk result (λ v. v.items ≡ planned_steps net.now) }
    ensures few { IfOk result (λ v. length v.items ≤ 8448) }
    ensures narrow { OnOk result (first_wide net.now ≡ None) }
    ensures err { IfErr result (IsEngineFault net.now) }
{
    match plan(alloc, net) {
        Ok(steps) => Ok(steps),
        Err(PlanFault::StepWide { step }) => Err(EngineFault::Wide { step }),
        Err(PlanFault::Memory) => Err(EngineFault::Memory),
    }
}

/// The members of the network as parts, before the first step.
pub fn start<'a, const K: usize>(
    alloc: Global,
    net: &'a Network<K>,
) -> Result<Vec<Part<'a, K>>, AllocError>
    ensures { IfOk result (λ v. IsCarried net.now 0 v.items) }
{
    net.known();
    first_tensors_law();
    let members = net.tensors();
    parts_of(alloc, members)
}

/// The last part with its legs in the order of the open labels.
pub fn finished<'a, const K: usize, R: Threads + Sync>(
    rt: &R,
    alloc: Global,
    parts: Vec<Part<'a, K>>,
) -> Result<BlockTensor<K>, AllocError>
    requires { (net : NetworkValue) × IsFinished net parts.items }
    ensures value { IfOk result (λ t. (net : NetworkValue) → IsFinished net parts.entry.items → IsValueOf net t) }
    ensures canonical { IfOk result IsCanonicalTensor }
{
    network_value_law();
    last_tensor_law();
    entries_of_blocks();
    let mut parts = parts;
    let Part { held, labels, .. } = parts.remove(0);
    let tensor = settled(held)?;
    let last = tensor.get();
    last.known();
    let order = open_order(alloc, &labels)?;
    let moved = permute(rt, alloc, last, &order)?;
    Ok(moved.canonical())
}

/// Carries out the steps of the plan from one place to another, on the parts that the steps before made, for a network
/// with these twisted labels. Each multiplication is one of `steps`.
pub fn carry<'a, const K: usize, R: Threads + Sync, G: Gate, L: Ledger>(
    rt: &R,
    alloc: Global,
    parts: &mut Vec<Part<'a, K>>,
    planned: &[Step],
    twist: &[i64],
    from: usize,
    to: usize,
    workers: u32,
    gate: &G,
    steps: &mut Steps<L>,
) -> Result<(), EngineFault>
    requires order { from ≤ to }
    requires within { to ≤ length planned.now }
    requires short { length planned.now ≤ 8448 }
    requires some { 1 ≤ workers }
    requires few { workers ≤ 64 }
    requires way { (net : NetworkValue) × IsOnWay net planned.now twist.now from parts.old.items }
    ensures carried { OnOk result ((net : NetworkValue) → IsOnWay net planned.now twist.now from parts.old.items → IsOnWay net planned.now twist.now to parts.new.items) }
    ensures err { IfErr result (λ e. (net : NetworkValue) → IsOnWay net planned.now twist.now from parts.old.items → IsEngineFault net e) }
    ensures steps { steps.new ≤ steps.old + sum_by (λ t. t.cost) (take (to - from) (drop from planned.now)) }
{
    for i in from..to {
        match take_step(
            rt,
            alloc,
            parts,
            &planned[i],
            twist,
            i as u32,
            workers,
            gate,
            steps,
        ) {
            Ok(()) => {}
            Err(fault) => return Err(fault),
        }
    }
    Ok(())
}

/// The value of the network: the signed sum over all values of its positive labels of the products of the members' entries,
/// as a tensor whose legs are the open ones in the order of their labels -1, -2, .. . It goes step by step
/// along the plan of the network. Each multiplication is one of `steps`.
pub fn evaluate<const K: usize, R: Threads + Sync, G: Gate, L: Ledger>(
    rt: &R,
    alloc: Global,
    net: &Network<K>,
    workers: u32,
    gate: &G,
    steps: &mut Steps<L>,
) -> Result<BlockTensor<K>, EngineFault>
    requires some { 1 ≤ workers }
    requires few { workers ≤ 64 }
    ensures value { IfOk result (IsValueOf net.now) }
    ensures canonical { IfOk result IsCanonicalTensor }
    ensures narrow { OnOk result (first_wide net.now ≡ None) }
    ensures clear { OnOk result (passing_place net.now ≡ None) }
    ensures err { IfErr result (IsEngineFault net.now) }
    ensures steps { steps.new ≤ steps.old + cost_of_plan net.now }
    ensures still { (step : ℕ) → first_wide net.now ≡ Some step → steps.new ≡ steps.old }
{
    match planned(alloc, net) {
        Ok(plan) => evaluate_planned(rt, alloc, net, plan.as_slice(), workers, gate, steps),
        Err(fault) => Err(fault),
    }
}

/// The value of the network, as `evaluate` gives it, along the plan that was made of it.
pub fn evaluate_planned<const K: usize, R: Threads + Sync, G: Gate, L: Ledger>(
    rt: &R,
    alloc: Global,
    net: &Network<K>,
    plan: &[Step],
    workers: u32,
    gate: &G,
    steps: &mut Steps<L>,
) -> Result<BlockTensor<K>, EngineFault>
    requires some { 1 ≤ workers }
    requires few { workers ≤ 64 }
    requires planned { plan.now ≡ planned_steps net.now }
    requires narrow { first_wide net.now ≡ None }
    requires short { length plan.now ≤ 8448 }
    ensures value { IfOk result (IsValueOf net.now) }
    ensures canonical { IfOk result IsCanonicalTensor }
    ensures clear { OnOk result (passing_place net.now ≡ None) }
    ensures err { IfErr result (IsEngineFault net.now) }
    ensures steps { steps.new ≤ steps.old + cost_of_plan net.now }
{
    net.known();
    known_steps(net);
    let mut parts = start(alloc, net)?;
    match carry(
        rt,
        alloc,
        &mut parts,
        plan,
        net.twist(),
        0,
        plan.len(),
        workers,
        gate,
        steps,
    ) {
        Ok(()) => {}
        Err(fault) => return Err(fault),
    }
    Ok(finished(rt, alloc, parts)?)
}
