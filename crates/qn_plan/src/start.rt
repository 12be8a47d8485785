//! Before the first step.

ghost use Rattle.std.specs.Prelude.{◌≡◌, ◌≤◌, ◌++◌, ◌∷◌, ◌&&◌, [], length, All, flat_map, if◌then◌else◌, IfOk, OnOk};
ghost use Rattle.qn_value.specs.Labels.{is_positive};
ghost use Rattle.std.specs.List.{insert};
ghost use Rattle.qn_net.specs.Members.{IsHeld};
ghost use Rattle.qn_plan.specs.Shapes.{inner_labels, place_label, sorted_labels};
ghost use Rattle.qn_plan.specs.Reached.{IsReached};

use crate::member::shapes_of;
use crate::shape::Shape;
use crate::walk::Walk;
use qn_net::operations::first_tensors_law;
use qn_net::values::network_value_law;
use qn_net::{NetTensor, Network, member_law};
use qn_value::plain::LineEnd;
use std::alloc::{AllocError, Global};

/// Whether a leg points into its tensor and has a positive label.
fn is_inner(end: LineEnd) -> bool
    ensures { result ≡ (end.inward && is_positive end.label) }
{
    end.inward && end.label > 0
}

/// Adds a label where it is wanted.
fn add_if(list: &mut Vec<i64>, label: i64, is_wanted: bool) -> Result<(), AllocError>
    ensures { OnOk result (list.new.items ≡ (if is_wanted then list.old.items ++ label ∷ [] else list.old.items)) }
{
    if is_wanted {
        list.push(label)?;
    }
    Ok(())
}

/// Adds the positive labels of the inward legs.
fn add_inner(ends: &[LineEnd], list: &mut Vec<i64>) -> Result<(), AllocError>
    ensures { OnOk result (list.new.items ≡ list.old.items ++ inner_labels ends.now) }
{
    let mut rest = ends;
    while let [e, tail @ ..] = rest {
        add_if(list, e.label, is_inner(*e))?;
        rest = tail;
    }
    Ok(())
}

/// Adds the positive labels of a tensor's inward legs.
fn add_inner_of<const K: usize>(shape: &Shape<K>, list: &mut Vec<i64>) -> Result<(), AllocError>
    ensures { OnOk result (list.new.items ≡ list.old.items ++ inner_labels shape.now.ends) }
{
    add_inner(&shape.ends, list)
}

/// The positive labels of all inward legs.
fn inner_of<const K: usize>(alloc: Global, shapes: &[Shape<K>]) -> Result<Vec<i64>, AllocError>
    ensures { IfOk result (λ v. v.items ≡ flat_map (λ s. inner_labels s.ends) shapes.now) }
{
    let mut list = Vec::new(alloc);
    for i in 0..shapes.len() {
        add_inner_of(&shapes[i], &mut list)?;
    }
    Ok(list)
}

/// The place of a label among ascending ones.
fn place_for(sorted: &[i64], label: i64) -> usize
    ensures within { result ≤ length sorted.now }
    ensures place { insert sorted.now result label ≡ place_label label sorted.now }
{
    match sorted {
        [] => 0,
        [k, rest @ ..] => {
            if label < *k {
                0
            } else {
                1 + place_for(rest, label)
            }
        }
    }
}

/// Adds a label to ascending ones.
fn place_label(sorted: &mut Vec<i64>, label: i64) -> Result<(), AllocError>
    ensures { OnOk result (sorted.new.items ≡ place_label label sorted.old.items) }
{
    let place = place_for(sorted, label);
    sorted.insert(place, label)?;
    Ok(())
}

/// The labels, ascending.
fn sorted_labels(alloc: Global, labels: &[i64]) -> Result<Vec<i64>, AllocError>
    ensures { IfOk result (λ v. v.items ≡ sorted_labels labels.now) }
{
    let mut sorted = Vec::with_capacity(alloc, labels.len())?;
    for i in (0..labels.len()).rev() {
        place_label(&mut sorted, labels[i])?;
    }
    Ok(sorted)
}

/// What holds of each member.
fn known_members<const K: usize>(members: &[NetTensor<K>])
    ensures { All (λ m. IsHeld m.member) members.now }
{
    for m in members {
        m.known();
    }
}

/// The tensors of a network before the first step, and the labels that are to be summed.
pub(crate) fn start<const K: usize>(alloc: Global, net: &Network<K>) -> Result<Walk<K>, AllocError>
    ensures { IfOk result (λ w. IsReached net.now net.now.order [] w) }
{
    net.known();
    let members = net.tensors();
    known_members(members);
    member_law();
    first_tensors_law();
    network_value_law();
    let shapes = shapes_of(alloc, members)?;
    let labels = inner_of(alloc, &shapes)?;
    let left = sorted_labels(alloc, &labels)?;
    Ok(Walk { shapes, left })
}
