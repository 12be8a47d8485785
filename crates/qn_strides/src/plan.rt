//! How a block is gone through for a block of the result.

ghost use Rattle.std.specs.Prelude.{◌≡◌, ◌==◌, ◌<◌, ◌≤◌, ◌+◌, ◌^◌, length, slice_index_or, IfOk};
ghost use Rattle.std.specs.List.{All};
ghost use Rattle.qn_index.specs.Legs.{sector_at};
ghost use Rattle.qn_index.specs.Tuples.{IsTuple};
ghost use Rattle.qn_index.specs.Places.{block_size};
ghost use Rattle.qn_value.specs.Local.{no_leg, IsCouple};
ghost use Rattle.qn_strides.specs.Strides.{in_place, strides, stride_at, summed_axes, kept_axes, sector_parities, IsKept, IsSummed};
ghost use Rattle.qn_sign.specs.Sign.{exchange_sign};
ghost use Rattle.qn_sign.specs.Positions.{positions, is_odd_at};

use crate::axis::{Kept, Summed};
use crate::places::{in_place, sector_parities};
use qn_charge::Group;
use qn_index::{Leg, block_len, known_all};
use qn_sign::exchange;
use std::alloc::{AllocError, Global};

/// For each leg of a block, how far apart the entries of neighbouring values stand.
pub fn strides_of<const K: usize>(
    alloc: Global,
    legs: &[Leg<K>],
    tuple: &[u32],
) -> Result<Vec<u64>, AllocError>
    requires tuple { IsTuple legs.now tuple.now }
    requires small { block_size legs.now tuple.now ≤ 2 ^ 22 }
    ensures value { IfOk result (λ v. v.items ≡ strides legs.now tuple.now) }
    ensures small { IfOk result (λ v. All (λ w. w ≤ 2 ^ 22) v.items) }
{
    known_all(legs);
    let mut size = block_len(legs, tuple);
    let mut strides = Vec::new(alloc);
    for i in 0..legs.len() {
        size /= u64::from(legs[i].dim_at(tuple[i]));
        strides.push(size)?;
    }
    Ok(strides)
}

/// The stride of the leg at a place, and 0 past the end.
pub fn stride_at(steps: &[u64], place: usize) -> u64
    requires small { All (λ w. w ≤ 2 ^ 22) steps.now }
    ensures value { result ≡ slice_index_or steps.now place 0 }
    ensures bound { result ≤ 2 ^ 22 }
{
    match steps.get(place) {
        Some(step) => *step,
        None => 0,
    }
}

/// The two legs of a couple in a block with these strides.
fn summed_pair<const K: usize>(
    legs: &[Leg<K>],
    tuple: &[u32],
    steps: &[u64],
    couple: &(usize, usize),
) -> Summed
    requires tuple { IsTuple legs.now tuple.now }
    requires steps { steps.now ≡ strides legs.now tuple.now }
    requires small { All (λ w. w ≤ 2 ^ 22) steps.now }
    requires couple { IsCouple legs.now couple.now }
    ensures len { result.len ≡
        (sector_at (slice_index_or legs.now (in_place legs.now couple.now) no_leg).sectors (slice_index_or tuple.now (in_place legs.now couple.now) 0)).dim }
    ensures stride { result.stride ≡ stride_at legs.now tuple.now couple.now.0 + stride_at legs.now tuple.now couple.now.1 }
    ensures small { IsSummed result }
{
    known_all(legs);
    let place = in_place(legs, *couple);
    let len = legs[place].dim_at(tuple[place]);
    let first = stride_at(steps, couple.0);
    let second = stride_at(steps, couple.1);
    Summed {
        len: u64::from(len),
        stride: first + second,
    }
}

/// The two legs of each couple in a block with these strides.
pub fn summed_of<const K: usize>(
    alloc: Global,
    legs: &[Leg<K>],
    tuple: &[u32],
    steps: &[u64],
    couples: &[(usize, usize)],
) -> Result<Vec<Summed>, AllocError>
    requires tuple { IsTuple legs.now tuple.now }
    requires steps { steps.now ≡ strides legs.now tuple.now }
    requires small { All (λ w. w ≤ 2 ^ 22) steps.now }
    requires couples { All (IsCouple legs.now) couples.now }
    ensures value { IfOk result (λ v. v.items ≡ summed_axes legs.now tuple.now couples.now) }
    ensures small { IfOk result (λ v. All IsSummed v.items) }
{
    let mut axes = Vec::new(alloc);
    for couple in couples {
        axes.push(summed_pair(legs, tuple, steps, couple))?;
    }
    Ok(axes)
}

/// The open legs of a block with these strides, whose sectors in the result's block are given.
pub fn kept_of<const K: usize>(
    alloc: Global,
    steps: &[u64],
    left: &[Leg<K>],
    sectors: &[u32],
    places: &[usize],
) -> Result<Vec<Kept>, AllocError>
    requires sectors { IsTuple left.now sectors.now }
    requires size { block_size left.now sectors.now ≤ 2 ^ 22 }
    requires places { length places.now ≡ length left.now }
    requires small { All (λ w. w ≤ 2 ^ 22) steps.now }
    ensures value { IfOk result (λ v. v.items ≡ kept_axes steps.now left.now sectors.now places.now) }
    ensures kept { IfOk result (λ v. All IsKept v.items) }
{
    known_all(left);
    let mut size = block_len(left, sectors);
    let mut kept = Vec::new(alloc);
    for i in 0..left.len() {
        size /= u64::from(left[i].dim_at(sectors[i]));
        let stride = stride_at(steps, places[i]);
        kept.push(Kept { size, stride })?;
    }
    Ok(kept)
}

/// Whether a block has the sign -1: that of its odd sectors, which are brought into the order of the goal.
pub fn is_minus<const K: usize>(
    alloc: Global,
    group: &Group<K>,
    legs: &[Leg<K>],
    tuple: &[u32],
    goal: &[usize],
) -> Result<bool, AllocError>
    requires tuple { IsTuple legs.now tuple.now }
    requires goal { All (λ k. k < length legs.now) goal.now }
    ensures { IfOk result (λ m.
        m ≡
        exchange_sign ◌==◌ (is_odd_at (sector_parities group.now legs.now tuple.now)) (positions (length legs.now)) goal.now) }
{
    let odd = sector_parities(alloc, group, legs, tuple)?;
    Ok(sign_of(&odd, legs.len(), goal))
}

/// The sign of a rearrangement of this many things.
fn sign_of(odd: &[bool], count: usize, goal: &[usize]) -> bool
    requires count { length odd.now ≡ count }
    requires goal { All (λ k. k < count) goal.now }
    ensures { result ≡ exchange_sign ◌==◌ (is_odd_at odd.now) (positions count) goal.now }
{
    exchange(odd, goal)
}
