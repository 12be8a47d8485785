//! Tensors twisted before a step, in place of the lines that it sums.

ghost use Rattle.std.specs.Prelude.{◌≡◌, ◌<◌, ◌++◌, ◌∷◌, [], length, if◌then◌else◌, IfOk, OnOk};
ghost use Rattle.std.specs.List.{All};
ghost use Rattle.qn_value.specs.Labels.{is_inward};
ghost use Rattle.qn_block.specs.Blocked.{tensor_of};
ghost use Rattle.qn_net.specs.Members.{IsNarrow, member_tensor};
ghost use Rattle.qn_twist.specs.Twisted.{Twisted};
ghost use Rattle.qn_engine.specs.Parts.{tensor_value, held_value};
ghost use Rattle.qn_engine.specs.Twisting.{is_twisted_leg, twisted_places};

use crate::part::{Held, Tensor, settled};
use qn_index::{Dir, Leg};
use qn_plan::is_listed;
use qn_twist::twist as twist_tensor;
use std::alloc::{AllocError, Global};

/// Whether the arrow points into the tensor.
fn points_in(dir: Dir) -> bool
    ensures { result ≡ is_inward dir }
{
    match dir {
        Dir::In => true,
        Dir::Out => false,
    }
}

/// Whether a leg with this label is to be twisted: one whose line the step sums and the network twists. All legs
/// count, or only those that point into the tensor.
fn is_twisted_leg(inward: bool, label: i64, summed: &[i64], twist: &[i64], all: bool) -> bool
    ensures { result ≡ is_twisted_leg all summed.now twist.now inward label }
{
    (all || inward) && is_listed(summed, label) && is_listed(twist, label)
}

/// Adds a place where the leg is to be twisted.
fn add_place(place: usize, is_twisted: bool, out: &mut Vec<usize>) -> Result<(), AllocError>
    ensures { OnOk result (out.new.items ≡ out.old.items ++ (if is_twisted then place ∷ [] else [])) }
{
    if is_twisted {
        out.push(place)?;
    }
    Ok(())
}

/// The places of the legs that are to be twisted.
fn twisted_places<const K: usize>(
    alloc: Global,
    legs: &[Leg<K>],
    labels: &[i64],
    summed: &[i64],
    twist: &[i64],
    all: bool,
) -> Result<Vec<usize>, AllocError>
    requires { length labels.now ≡ length legs.now }
    ensures { IfOk result (λ v. v.items ≡ twisted_places all summed.now twist.now 0 legs.now labels.now) }
{
    let mut places = Vec::new(alloc);
    for i in 0..legs.len() {
        let inward = points_in(legs[i].dir());
        let is_twisted = is_twisted_leg(inward, labels[i], summed, twist, all);
        add_place(i, is_twisted, &mut places)?;
    }
    Ok(places)
}

/// The tensor, twisted at these places. One that is lent is copied before; where there is no place it stays.
fn twisted_at<'a, const K: usize>(
    tensor: Tensor<'a, K>,
    places: &[usize],
) -> Result<Tensor<'a, K>, AllocError>
    requires { All (λ k. k < length (tensor_value K tensor).legs) places.now }
    ensures { IfOk result (λ r. Twisted (tensor_of (tensor_value K tensor.entry)) places.now (tensor_of (tensor_value K r))) }
{
    if places.is_empty() {
        return Ok(tensor);
    }
    match tensor {
        Tensor::Lent(t) => Ok(Tensor::Made(twist_tensor(t.copy()?, places))),
        Tensor::Made(t) => Ok(Tensor::Made(twist_tensor(t, places))),
    }
}

/// The tensor that a step takes: a table is made into one, and it is twisted at its legs of the step's twisted labels,
/// at all of them or only at those that point into it.
pub(crate) fn twisted<'a, const K: usize>(
    alloc: Global,
    held: Held<'a, K>,
    labels: &[i64],
    summed: &[i64],
    twist: &[i64],
    all: bool,
) -> Result<Tensor<'a, K>, AllocError>
    requires narrow { IsNarrow (held_value K held) }
    requires long { length labels.now ≡ length (member_tensor (held_value K held)).legs }
    ensures { IfOk result (λ t. Twisted (member_tensor (held_value K held.entry))
        (twisted_places all summed.now twist.now 0 (member_tensor (held_value K held.entry)).legs labels.now) (tensor_of (tensor_value K t))) }
{
    let tensor = settled(held)?;
    let places = twisted_places(alloc, tensor.get().legs(), labels, summed, twist, all)?;
    twisted_at(tensor, &places)
}
