//! Shared legs, and what is left beside them.
ghost use Rattle.std.specs.Prelude.{◌≡◌, ◌++◌, ◌<◌, length, All, IfOk, OnOk};
ghost use Rattle.qn_match.specs.Pairs.{is_first, is_second, marks, unmarked};

use qn_index::Leg;
use std::alloc::{AllocError, Global};

/// Whether a leg of the first tensor is shared.
fn is_first(shared: &[(usize, usize)], leg: usize) -> bool
    ensures { result ≡ is_first shared.now leg }
{
    match shared {
        [] => false,
        [pair, rest @ ..] => leg == pair.0 || is_first(rest, leg),
    }
}

/// Whether a leg of the second tensor is shared.
fn is_second(shared: &[(usize, usize)], leg: usize) -> bool
    ensures { result ≡ is_second shared.now leg }
{
    match shared {
        [] => false,
        [pair, rest @ ..] => leg == pair.1 || is_second(rest, leg),
    }
}

/// A mark for each of `count` legs of the first tensor that is shared.
pub fn first_marks(
    alloc: Global,
    shared: &[(usize, usize)],
    count: usize,
) -> Result<Vec<bool>, AllocError>
    ensures { IfOk result (λ v. v.items ≡ marks (is_first shared.now) count) }
{
    let mut out = Vec::with_capacity(alloc, count)?;
    for leg in 0..count {
        out.push(is_first(shared, leg))?;
    }
    Ok(out)
}

/// A mark for each of `count` legs of the second tensor that is shared.
pub fn second_marks(
    alloc: Global,
    shared: &[(usize, usize)],
    count: usize,
) -> Result<Vec<bool>, AllocError>
    ensures { IfOk result (λ v. v.items ≡ marks (is_second shared.now) count) }
{
    let mut out = Vec::with_capacity(alloc, count)?;
    for leg in 0..count {
        out.push(is_second(shared, leg))?;
    }
    Ok(out)
}

/// Appends the sectors without a mark.
pub fn append_sectors(tuple: &[u32], marks: &[bool], out: &mut Vec<u32>) -> Result<(), AllocError>
    requires count { length marks.now ≡ length tuple.now }
    ensures { OnOk result (out.new.items ≡ out.old.items ++ unmarked marks.now tuple.now) }
{
    for i in 0..tuple.len() {
        if !marks[i] {
            out.push(tuple[i])?;
        }
    }
    Ok(())
}

/// Appends the legs without a mark.
pub fn append_legs<const K: usize>(
    legs: &[Leg<K>],
    marks: &[bool],
    out: &mut Vec<Leg<K>>,
) -> Result<(), AllocError>
    requires count { length marks.now ≡ length legs.now }
    ensures { OnOk result (out.new.items ≡ out.old.items ++ unmarked marks.now legs.now) }
{
    for i in 0..legs.len() {
        if !marks[i] {
            out.push(legs[i].copy()?)?;
        }
    }
    Ok(())
}
