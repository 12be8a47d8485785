//! Legs and sectors before and behind those that are fused.
ghost use Rattle.std.specs.Prelude.{◌≡◌, ◌≤◌, ◌+◌, ◌++◌, length, take, drop, IfOk, OnOk};
ghost use Rattle.std.specs.List.{All};
ghost use Rattle.qn_index.specs.Legs.{IsLegOf};
ghost use Rattle.qn_index.specs.Tuples.{admitted};
ghost use Rattle.qn_index.specs.Extents.{IsWithinLimits};
ghost use Rattle.qn_fuse.specs.Fused.{HasFusedAt, HasLegsAt, fused_at, split_at};

use qn_block::{BlockTensor, Combiner};
use qn_index::{Leg, Tuple, admissible};
use std::alloc::{AllocError, Global};

/// The legs from a place on.
pub(crate) fn legs_from<const K: usize>(legs: &[Leg<K>], place: usize) -> &[Leg<K>]
    requires { place ≤ length legs.now }
    ensures { result.now ≡ drop place legs.now }
{
    &legs[place..]
}

/// The sectors from a place on.
pub(crate) fn sectors_from(tuple: &[u32], place: usize) -> &[u32]
    requires { place ≤ length tuple.now }
    ensures { result.now ≡ drop place tuple.now }
{
    &tuple[place..]
}

/// So many sectors from a place on.
pub(crate) fn sectors_between(tuple: &[u32], place: usize, count: usize) -> &[u32]
    requires { place + count ≤ length tuple.now }
    ensures { result.now ≡ take count (drop place tuple.now) }
{
    &sectors_from(tuple, place)[..count]
}

/// Adds equal legs.
pub(crate) fn append_legs<const K: usize>(
    legs: &[Leg<K>],
    out: &mut Vec<Leg<K>>,
) -> Result<(), AllocError>
    ensures { OnOk result (out.new.items ≡ out.old.items ++ legs.now) }
{
    for leg in legs {
        out.push(leg.copy()?)?;
    }
    Ok(())
}

/// The legs with those of the combiner, from the place `first` on, made into one.
pub(crate) fn fused_legs<const K: usize>(
    alloc: Global,
    legs: &[Leg<K>],
    first: usize,
    c: &Combiner<K>,
) -> Result<Vec<Leg<K>>, AllocError>
    requires { HasLegsAt c.now first legs.now }
    ensures { IfOk result (λ v. v.items ≡ fused_at c.now first legs.now) }
{
    let mut out = Vec::new(alloc);
    append_legs(&legs[..first], &mut out)?;
    out.push(c.fused().copy()?)?;
    append_legs(legs_from(legs, first + c.legs().len()), &mut out)?;
    Ok(out)
}

/// The legs with the fused one, at the place `at`, parted.
pub(crate) fn split_legs<const K: usize>(
    alloc: Global,
    legs: &[Leg<K>],
    at: usize,
    c: &Combiner<K>,
) -> Result<Vec<Leg<K>>, AllocError>
    requires { HasFusedAt c.now at legs.now }
    ensures { IfOk result (λ v. v.items ≡ split_at c.now at legs.now) }
{
    let mut out = Vec::new(alloc);
    append_legs(&legs[..at], &mut out)?;
    append_legs(c.legs(), &mut out)?;
    append_legs(legs_from(legs, at + 1), &mut out)?;
    Ok(out)
}

/// The admissible tuples of legs and the flux of a tensor.
pub(crate) fn tuples_of<const K: usize>(
    alloc: Global,
    t: &BlockTensor<K>,
    legs: &[Leg<K>],
) -> Result<Vec<Tuple>, AllocError>
    requires charges { All (IsLegOf t.now.group) legs.now }
    requires shape { IsWithinLimits t.now.group legs.now t.now.flux }
    ensures { IfOk result (λ ts. ts.items ≡ admitted t.now.group legs.now t.now.flux) }
{
    t.known();
    admissible(alloc, t.group(), legs, t.flux())
}

/// Three lists of sectors, one after the other.
pub(crate) fn joined_sectors(
    alloc: Global,
    before: &[u32],
    between: &[u32],
    behind: &[u32],
) -> Result<Vec<u32>, AllocError>
    ensures { IfOk result (λ v. v.items ≡ before.now ++ (between.now ++ behind.now)) }
{
    let mut sectors = Vec::from_slice(alloc, before)?;
    sectors.extend_from_slice(between)?;
    sectors.extend_from_slice(behind)?;
    Ok(sectors)
}
