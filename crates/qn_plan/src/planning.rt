//! The steps of a network.

ghost use Rattle.std.specs.Prelude.{◌≡◌, ◌<◌, ◌≤◌, ◌+◌, ◌^◌, ℕ, ℤ, List, [], None, true, false, length, drop, slice_index_or, pos, IfOk, OnOk, IfErr};
ghost use Rattle.std.specs.List.{sum_by};
ghost use Rattle.std.specs.Ordering.{int_eq};
ghost use Rattle.qn_sign.specs.Sign.{is_in};
ghost use Rattle.qn_plan.specs.Shapes.{is_on, shape_at};
ghost use Rattle.qn_plan.specs.Planned.{planned, first_wide, IsPlanFault};
ghost use Rattle.qn_plan.specs.Reached.{IsReached};
ghost use Rattle.qn_plan.specs.Taking.{IsPairNext, IsTraceNext};

use crate::ends::{Parted, is_listed};
use crate::start::start;
use crate::step::{PlanFault, Step};
use crate::walk::{Walk, bring_together, find, part_one, part_pair, sum_couples};
use qn_match::laws::legs_left_are_open;
use qn_net::Network;
use std::alloc::Global;

/// The number of the step after these.
fn next_number(done: usize) -> u32
    requires { done < 8448 }
    ensures { result ≡ done + 1 }
{
    done as u32 + 1
}

/// Brings the tensors at two places together, as the next step.
fn bring<const K: usize>(
    alloc: Global,
    net: &Network<K>,
    walk: &mut Walk<K>,
    steps: &mut Vec<Step>,
    first: usize,
    second: usize,
    parted: Parted,
) -> Result<(), PlanFault>
    requires order { first < second }
    requires within { second < length walk.old.shapes }
    requires few { length steps.old.items < 8448 }
    requires next { (rest : List ℤ) × IsPairNext net.now rest steps.old.items walk.old first second parted.summed.items parted.left.items }
    ensures fewer { OnOk result (length walk.new.shapes < length walk.old.shapes) }
    ensures done { OnOk result ((rest : List ℤ) → IsPairNext net.now rest steps.old.items walk.old first second parted.summed.items parted.left.items → IsReached net.now rest steps.new.items walk.new) }
    ensures err { IfErr result (IsPlanFault net.now) }
{
    let Parted { summed, left } = parted;
    let number = next_number(steps.len());
    let step = match bring_together(
        alloc,
        net.group(),
        &mut walk.shapes,
        first,
        second,
        summed,
        number,
    ) {
        Ok(step) => step,
        Err(fault) => return Err(fault),
    };
    steps.push(step)?;
    walk.left = left;
    Ok(())
}

/// Sums the tensor at a place over labels of its own, as the next step.
fn close<const K: usize>(
    alloc: Global,
    net: &Network<K>,
    walk: &mut Walk<K>,
    steps: &mut Vec<Step>,
    place: usize,
    parted: Parted,
) -> Result<(), PlanFault>
    requires within { place < length walk.old.shapes }
    requires few { length steps.old.items < 8448 }
    requires next { (rest : List ℤ) × IsTraceNext net.now rest steps.old.items walk.old place parted.summed.items parted.left.items }
    ensures done { OnOk result ((rest : List ℤ) → IsTraceNext net.now rest steps.old.items walk.old place parted.summed.items parted.left.items → IsReached net.now rest steps.new.items walk.new) }
    ensures err { IfErr result (IsPlanFault net.now) }
{
    let Parted { summed, left } = parted;
    let number = next_number(steps.len());
    let step = match sum_couples(alloc, net.group(), &mut walk.shapes, place, summed, number) {
        Ok(step) => step,
        Err(fault) => return Err(fault),
    };
    steps.push(step)?;
    walk.left = left;
    Ok(())
}

/// Takes a label that is left and whose first tensor was found.
fn meet<const K: usize>(
    alloc: Global,
    net: &Network<K>,
    place: usize,
    label: i64,
    walk: &mut Walk<K>,
    steps: &mut Vec<Step>,
    first: usize,
) -> Result<(), PlanFault>
    requires place { place < length net.now.order }
    requires label { label ≡ slice_index_or net.now.order place (pos 0) }
    requires reached { IsReached net.now (drop place net.now.order) steps.old.items walk.old }
    requires left { is_in int_eq label walk.old.left ≡ true }
    requires within { first < length walk.old.shapes }
    requires met { is_on label (shape_at walk.old.shapes first).ends ≡ true }
    requires before { (k : ℕ) → 0 ≤ k → k < first → is_on label (shape_at walk.old.shapes k).ends ≡ false }
    ensures reached { OnOk result (IsReached net.now (drop (place + 1) net.now.order) steps.new.items walk.new) }
    ensures err { IfErr result (IsPlanFault net.now) }
{
    legs_left_are_open();
    net.known();
    match find(&walk.shapes, first + 1, label) {
        Some(second) => {
            let parted = part_pair(alloc, &walk.left, &walk.shapes[first], &walk.shapes[second])?;
            bring(alloc, net, walk, steps, first, second, parted)
        }
        None => {
            let parted = part_one(alloc, &walk.left, &walk.shapes[first])?;
            close(alloc, net, walk, steps, first, parted)
        }
    }
}

/// Takes the label at a place of the order.
fn take_label<const K: usize>(
    alloc: Global,
    net: &Network<K>,
    place: usize,
    walk: &mut Walk<K>,
    steps: &mut Vec<Step>,
) -> Result<(), PlanFault>
    requires place { place < length net.now.order }
    requires reached { IsReached net.now (drop place net.now.order) steps.old.items walk.old }
    ensures reached { OnOk result (IsReached net.now (drop (place + 1) net.now.order) steps.new.items walk.new) }
    ensures err { IfErr result (IsPlanFault net.now) }
{
    legs_left_are_open();
    net.known();
    let order = net.order();
    let label = order[place];
    if !is_listed(&walk.left, label) {
        return Ok(());
    }
    match find(&walk.shapes, 0, label) {
        Some(first) => meet(alloc, net, place, label, walk, steps, first),
        None => unreachable!(),
    }
}

/// Multiplies the first two tensors, where no label is left to be taken.
fn multiply<const K: usize>(
    alloc: Global,
    net: &Network<K>,
    walk: &mut Walk<K>,
    steps: &mut Vec<Step>,
) -> Result<(), PlanFault>
    requires some { 1 < length walk.old.shapes }
    requires reached { IsReached net.now [] steps.old.items walk.old }
    ensures fewer { OnOk result (length walk.new.shapes < length walk.old.shapes) }
    ensures reached { OnOk result (IsReached net.now [] steps.new.items walk.new) }
    ensures err { IfErr result (IsPlanFault net.now) }
{
    legs_left_are_open();
    net.known();
    let parted = Parted {
        summed: Vec::new(alloc),
        left: Vec::from_slice(alloc, &walk.left)?,
    };
    bring(alloc, net, walk, steps, 0, 1, parted)
}

/// Takes all labels in their order.
fn take_labels<const K: usize>(
    alloc: Global,
    net: &Network<K>,
    walk: &mut Walk<K>,
    steps: &mut Vec<Step>,
) -> Result<(), PlanFault>
    requires { IsReached net.now net.now.order steps.old.items walk.old }
    ensures reached { OnOk result (IsReached net.now [] steps.new.items walk.new) }
    ensures err { IfErr result (IsPlanFault net.now) }
{
    for place in 0..net.order().len() {
        match take_label(alloc, net, place, walk, steps) {
            Ok(()) => {}
            Err(fault) => return Err(fault),
        }
    }
    Ok(())
}

/// Multiplies what is left, until one tensor is.
#[tactic(auto, using(crate::proofs::Costs::costs_bounded))]
fn multiply_all<const K: usize>(
    alloc: Global,
    net: &Network<K>,
    walk: &mut Walk<K>,
    steps: &mut Vec<Step>,
) -> Result<(), PlanFault>
    requires { IsReached net.now [] steps.old.items walk.old }
    ensures steps { OnOk result (steps.new.items ≡ planned net.now) }
    ensures bounded { OnOk result (sum_by (λ t. t.cost) steps.new.items < 2 ^ 64) }
    ensures few { OnOk result (length steps.new.items ≤ 8448) }
    ensures narrow { OnOk result (first_wide net.now ≡ None) }
    ensures err { IfErr result (IsPlanFault net.now) }
{
    legs_left_are_open();
    net.known();
    while walk.shapes.len() > 1 {
        match multiply(alloc, net, walk, steps) {
            Ok(()) => {}
            Err(fault) => return Err(fault),
        }
    }
    Ok(())
}

/// The steps of the network, by the order of its labels: a label whose two ends are on two tensors contracts these over all
/// lines that they share, and one with both ends on a tensor sums all lines of this tensor; a label that was already
/// summed is passed over. What is then left is multiplied, the first two at a time. The result of a step
/// stands in the place of the earlier tensor. There are at most 8,448 steps.
pub fn plan<const K: usize>(alloc: Global, net: &Network<K>) -> Result<Vec<Step>, PlanFault>
    ensures steps { IfOk result (λ v. v.items ≡ planned net.now) }
    ensures bounded { IfOk result (λ v. sum_by (λ t. t.cost) v.items < 2 ^ 64) }
    ensures few { IfOk result (λ v. length v.items ≤ 8448) }
    ensures narrow { OnOk result (first_wide net.now ≡ None) }
    ensures err { IfErr result (IsPlanFault net.now) }
{
    let mut walk = start(alloc, net)?;
    let mut steps = Vec::new(alloc);
    match take_labels(alloc, net, &mut walk, &mut steps) {
        Ok(()) => {}
        Err(fault) => return Err(fault),
    }
    match multiply_all(alloc, net, &mut walk, &mut steps) {
        Ok(()) => Ok(steps),
        Err(fault) => Err(fault),
    }
}
