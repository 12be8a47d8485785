//! The tensors of a network on the way through its steps.

ghost use Rattle.std.specs.Prelude.{◌≡◌, ◌<◌, ◌≤◌, ℕ, true, false, not, ◌&&◌, filter, MatchOption, length, IfOk, OnOk, IfErr};
ghost use Rattle.qn_plan.specs.Shapes.{is_on, is_couple, shape_at, joined_shape, closed_shape};
ghost use Rattle.qn_plan.specs.Planned.{is_too_wide};
ghost use Rattle.qn_plan.specs.Conditions.{CanJoin, CanClose, CanCost, IsWideStep};
ghost use Rattle.qn_plan.specs.ShapeSteps.{joined_step, closed_step, joined_shapes, closed_shapes};

use crate::ends::{Parted, has_label, part_couples, part_shared};
use crate::fusing::fuses;
use crate::shape::{Shape, closed, cost_over, is_too_wide, joined};
use crate::step::{PlanFault, Step, StepKind};
use qn_charge::Group;
use std::alloc::{AllocError, Global};
use std::marker::Model;

/// The tensors in their places, and the labels that are not summed yet, ascending.
#[derive(Drop)]
pub(crate) struct Walk<const K: usize> {
    pub shapes: Vec<Shape<K>>,
    pub left: Vec<i64>,
}

impl<const K: usize> Model for Walk<K> {
    ghost use Rattle.qn_plan.specs.Shapes.{WalkValue};

    ghost Value = { WalkValue };

    ghost view = { λ w. record { shapes = w.shapes.items; left = w.left.items } };
}

/// Whether a leg of the tensor has the label.
fn is_met<const K: usize>(shape: &Shape<K>, label: i64) -> bool
    ensures { result ≡ is_on label shape.now.ends }
{
    has_label(&shape.ends, label)
}

/// The first place, from this one on, of a tensor with the label.
pub(crate) fn find<const K: usize>(shapes: &[Shape<K>], from: usize, label: i64) -> Option<usize>
    ensures { MatchOption result
        ((k : ℕ) → from ≤ k → k < length shapes.now → is_on label (shape_at shapes.now k).ends ≡ false)
        (λ i. (from ≤ i) × (i < length shapes.now) × (is_on label (shape_at shapes.now i).ends ≡ true) × ((k : ℕ) → from ≤ k → k < i → is_on label (shape_at shapes.now k).ends ≡ false)) }
{
    for i in from..shapes.len() {
        if is_met(&shapes[i], label) {
            return Some(i);
        }
    }
    None
}

/// The step that brings two tensors together over these labels.
fn pair_step<const K: usize>(
    alloc: Global,
    group: &Group<K>,
    first: &Shape<K>,
    second: &Shape<K>,
    summed: Vec<i64>,
) -> Result<Step, AllocError>
    requires { CanCost group.now first.now second.now summed.items }
    ensures { IfOk result (λ t. t ≡ joined_step group.now first.now second.now summed.items) }
{
    if fuses(alloc, first.role, &first.ends, &summed)?
        || fuses(alloc, second.role, &second.ends, &summed)?
    {
        return Ok(Step {
            kind: StepKind::Fuse,
            first: first.number,
            second: second.number,
            labels: summed,
            cost: 0,
        });
    }
    let cost = cost_over(alloc, group, first, second, &summed)?;
    Ok(Step {
        kind: StepKind::Pair,
        first: first.number,
        second: second.number,
        labels: summed,
        cost,
    })
}

/// Brings the tensors at two places together over these labels, in the step with this number.
pub(crate) fn bring_together<const K: usize>(
    alloc: Global,
    group: &Group<K>,
    shapes: &mut Vec<Shape<K>>,
    first: usize,
    second: usize,
    summed: Vec<i64>,
    number: u32,
) -> Result<Step, PlanFault>
    requires order { first < second }
    requires within { second < length shapes.old.items }
    requires shapes { CanJoin group.now (shape_at shapes.old.items first) (shape_at shapes.old.items second) summed.items }
    ensures step { IfOk result (λ t. t ≡ joined_step group.now (shape_at shapes.old.items first) (shape_at shapes.old.items second) summed.items) }
    ensures shapes { OnOk result (shapes.new.items ≡ joined_shapes group.now shapes.old.items first second summed.items) }
    ensures narrow { OnOk result (is_too_wide group.now (joined_shape group.now (shape_at shapes.old.items first) (shape_at shapes.old.items second) summed.items).legs (joined_shape group.now (shape_at shapes.old.items first) (shape_at shapes.old.items second) summed.items).flux ≡ false) }
    ensures err { IfErr result (IsWideStep number (is_too_wide group.now (joined_shape group.now (shape_at shapes.old.items first) (shape_at shapes.old.items second) summed.items).legs (joined_shape group.now (shape_at shapes.old.items first) (shape_at shapes.old.items second) summed.items).flux)) }
{
    let result = joined(alloc, group, &shapes[first], &shapes[second], &summed)?;
    if is_too_wide(alloc, group, &result)? {
        return Err(PlanFault::StepWide { step: number });
    }
    let step = pair_step(alloc, group, &shapes[first], &shapes[second], summed)?;
    shapes.remove(second);
    shapes[first] = result;
    Ok(step)
}

/// Sums the tensor at this place over these labels, in the step with this number.
pub(crate) fn sum_couples<const K: usize>(
    alloc: Global,
    group: &Group<K>,
    shapes: &mut Vec<Shape<K>>,
    place: usize,
    summed: Vec<i64>,
    number: u32,
) -> Result<Step, PlanFault>
    requires within { place < length shapes.old.items }
    requires shape { CanClose group.now (shape_at shapes.old.items place) summed.items }
    ensures step { IfOk result (λ t. t ≡ closed_step (shape_at shapes.old.items place) summed.items) }
    ensures shapes { OnOk result (shapes.new.items ≡ closed_shapes shapes.old.items place summed.items) }
    ensures narrow { OnOk result (is_too_wide group.now (closed_shape (shape_at shapes.old.items place) summed.items).legs (closed_shape (shape_at shapes.old.items place) summed.items).flux ≡ false) }
    ensures err { IfErr result (IsWideStep number (is_too_wide group.now (closed_shape (shape_at shapes.old.items place) summed.items).legs (closed_shape (shape_at shapes.old.items place) summed.items).flux)) }
{
    let result = closed(alloc, &shapes[place], &summed)?;
    if is_too_wide(alloc, group, &result)? {
        return Err(PlanFault::StepWide { step: number });
    }
    let first = result.number;
    shapes[place] = result;
    Ok(Step {
        kind: StepKind::Trace,
        first,
        second: 0,
        labels: summed,
        cost: 0,
    })
}

/// The labels that two tensors share, and the others.
pub(crate) fn part_pair<const K: usize>(
    alloc: Global,
    labels: &[i64],
    first: &Shape<K>,
    second: &Shape<K>,
) -> Result<Parted, AllocError>
    ensures summed { IfOk result (λ p. p.summed.items ≡ filter (λ l. is_on l first.now.ends && is_on l second.now.ends) labels.now) }
    ensures left { IfOk result (λ p. p.left.items ≡ filter (λ l. not (is_on l first.now.ends && is_on l second.now.ends)) labels.now) }
{
    part_shared(alloc, labels, &first.ends, &second.ends)
}

/// The labels both of whose legs are on the tensor, and the others.
pub(crate) fn part_one<const K: usize>(
    alloc: Global,
    labels: &[i64],
    shape: &Shape<K>,
) -> Result<Parted, AllocError>
    ensures summed { IfOk result (λ p. p.summed.items ≡ filter (λ l. is_couple l shape.now.ends) labels.now) }
    ensures left { IfOk result (λ p. p.left.items ≡ filter (λ l. not (is_couple l shape.now.ends)) labels.now) }
{
    part_couples(alloc, labels, &shape.ends)
}
