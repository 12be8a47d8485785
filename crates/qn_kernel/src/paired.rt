//! How the shared legs of two blocks are gone through.

ghost use Rattle.std.specs.Prelude.{◌≡◌, ◌<◌, ◌≤◌, ◌^◌, ◌++◌, ◌∷◌, [], length, slice_index_or, replicate, IfOk};
ghost use Rattle.std.specs.List.{All};
ghost use Rattle.qn_index.specs.Legs.{sector_at};
ghost use Rattle.qn_index.specs.Tuples.{IsTuple};
ghost use Rattle.qn_value.specs.Local.{no_leg};
ghost use Rattle.qn_kernel.specs.Sources.{IsPaired, paired_axes};

use qn_index::{Leg, known_all};
use qn_strides::stride_at;
use std::alloc::{AllocError, Global};
use std::marker::Model;

/// A shared pair of legs in two blocks: how many values it has, and how far apart the entries of neighbouring values stand in each block.
#[derive(Clone, Copy, Debug, PartialEq, Eq)]
pub struct Paired {
    pub len: u64,
    pub first: u64,
    pub second: u64,
}

impl Model for Paired {
    ghost use Rattle.qn_kernel.specs.Sources.{PairedValue};

    ghost Value = { PairedValue };

    ghost view = { λ x. record { len = x.len; first = x.first; second = x.second } };

    ghost inverse = { λ x. record { len = x.len; first = x.first; second = x.second } };
}

/// A shared pair of legs in two blocks with these strides.
fn paired_at<const K: usize>(
    legs: &[Leg<K>],
    tuple: &[u32],
    firsts: &[u64],
    seconds: &[u64],
    pair: (usize, usize),
) -> Paired
    requires tuple { IsTuple legs.now tuple.now }
    requires firsts { All (λ w. w ≤ 2 ^ 22) firsts.now }
    requires seconds { All (λ w. w ≤ 2 ^ 22) seconds.now }
    requires pair { pair.0 < length legs.now }
    ensures len { result.len ≡ (sector_at (slice_index_or legs.now pair.0 no_leg).sectors (slice_index_or tuple.now pair.0 0)).dim }
    ensures first { result.first ≡ slice_index_or firsts.now pair.0 0 }
    ensures second { result.second ≡ slice_index_or seconds.now pair.1 0 }
    ensures small { IsPaired result }
{
    known_all(legs);
    let len = legs[pair.0].dim_at(tuple[pair.0]);
    Paired {
        len: u64::from(len),
        first: stride_at(firsts, pair.0),
        second: stride_at(seconds, pair.1),
    }
}

/// The shared pairs of legs in two blocks with these strides.
pub(crate) fn paired_of<const K: usize>(
    alloc: Global,
    legs: &[Leg<K>],
    tuple: &[u32],
    firsts: &[u64],
    seconds: &[u64],
    shared: &[(usize, usize)],
) -> Result<Vec<Paired>, AllocError>
    requires tuple { IsTuple legs.now tuple.now }
    requires firsts { All (λ w. w ≤ 2 ^ 22) firsts.now }
    requires seconds { All (λ w. w ≤ 2 ^ 22) seconds.now }
    requires shared { All (λ p. p.0 < length legs.now) shared.now }
    ensures value { IfOk result (λ v. v.items ≡ paired_axes legs.now tuple.now firsts.now seconds.now shared.now) }
    ensures small { IfOk result (λ v. All IsPaired v.items) }
{
    let mut axes = Vec::with_capacity(alloc, shared.len())?;
    for pair in shared {
        axes.push(paired_at(legs, tuple, firsts, seconds, *pair))?;
    }
    Ok(axes)
}

/// The strides of a block, after as many zeros as the other tensor has legs.
pub(crate) fn after_zeros(
    alloc: Global,
    count: usize,
    strides: &[u64],
) -> Result<Vec<u64>, AllocError>
    requires small { All (λ w. w ≤ 2 ^ 22) strides.now }
    ensures value { IfOk result (λ v. v.items ≡ replicate count 0 ++ strides.now) }
    ensures small { IfOk result (λ v. All (λ w. w ≤ 2 ^ 22) v.items) }
{
    let mut all = vec![in alloc; 0u64; count]?;
    all.extend_from_slice(strides)?;
    Ok(all)
}
