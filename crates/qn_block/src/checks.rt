//! What is wrong with given blocks, first in order.

ghost use Rattle.std.specs.Prelude.{◌≡◌, ◌<◌, ◌≤◌, ◌^◌, ◌↔◌, ℕ, length, IfErr, OnOk, IsTrue, MatchOption};
ghost use Rattle.std.specs.List.{All};
ghost use Rattle.qn_charge.specs.Firsts.{IsFirst, HasNone};
ghost use Rattle.qn_index.specs.Legs.{IsLegOf};
ghost use Rattle.qn_index.specs.Tuples.{IsFlux, IsTuple};
ghost use Rattle.qn_index.specs.Places.{block_size};
ghost use Rattle.qn_index.specs.Extents.{IsWithinLimits};
ghost use Rattle.qn_block.specs.Refusals.{block_at, BadTupleAt, OffFluxAt, NotAscendingAt, BadLengthAt, IsNoSector, IsShapeFault, IsTupleFault};

use crate::fault::BlockFault;
use crate::tensor::Block;
use qn_charge::{Charge, Group};
use qn_index::{Leg, MAX_ENTRIES, MAX_LEGS, MAX_TUPLES, block_len, net_charge, width};
use std::alloc::Global;
use std::cmp::Ordering;

/// The limits of a shape. Tuples are counted, not listed.
pub(crate) fn check_shape<const K: usize>(
    alloc: Global,
    group: &Group<K>,
    legs: &[Leg<K>],
    flux: &Charge<K>,
) -> Result<(), BlockFault>
    requires group { All (IsLegOf group.now) legs.now }
    requires flux { IsFlux group.now flux.now }
    ensures ok { OnOk result (IsWithinLimits group.now legs.now flux.now) }
    ensures err { IfErr result (IsShapeFault group.now legs.now flux.now) }
{
    if legs.len() > MAX_LEGS {
        return Err(BlockFault::TooManyLegs);
    }
    let extent = width(alloc, group, legs, flux)?;
    if extent.tuples > MAX_TUPLES {
        return Err(BlockFault::TooManyTuples);
    }
    if extent.entries > MAX_ENTRIES {
        return Err(BlockFault::TooManyEntries);
    }
    Ok(())
}

/// The first number that is no sector of its leg.
fn first_no_sector<const K: usize>(legs: &[Leg<K>], tuple: &[u32]) -> Option<usize>
    requires { length tuple.now ≡ length legs.now }
    ensures { MatchOption result (IsTuple legs.now tuple.now) (IsFirst (IsNoSector legs.now tuple.now)) }
{
    for i in 0..legs.len() {
        if tuple[i] as usize >= legs[i].sectors().len() {
            return Some(i);
        }
    }
    None
}

/// The first block whose tuple is none of the legs, and why.
pub(crate) fn first_bad_tuple<const K: usize>(
    legs: &[Leg<K>],
    blocks: &[Block],
) -> Option<BlockFault>
    ensures { MatchOption result (HasNone (BadTupleAt legs.now blocks.now)) (IsTupleFault legs.now blocks.now) }
{
    for (block, b) in blocks.iter().enumerate() {
        let tuple = b.tuple();
        if tuple.len() != legs.len() {
            return Some(BlockFault::Arity { block });
        }
        match first_no_sector(legs, tuple) {
            Some(leg) => return Some(BlockFault::BlockRange { block, leg }),
            None => {}
        }
    }
    None
}

/// The first block whose tuple does not meet the flux.
pub(crate) fn first_off_flux<const K: usize>(
    group: &Group<K>,
    legs: &[Leg<K>],
    flux: &Charge<K>,
    blocks: &[Block],
) -> Option<usize>
    requires few { length legs.now ≤ 64 }
    requires group { All (IsLegOf group.now) legs.now }
    requires tuples { HasNone (BadTupleAt legs.now blocks.now) }
    ensures { MatchOption result (HasNone (OffFluxAt group.now legs.now flux.now blocks.now)) (
        IsFirst (OffFluxAt group.now legs.now flux.now blocks.now)) }
{
    for (block, b) in blocks.iter().enumerate() {
        if !net_charge(group, legs, b.tuple()).same(flux) {
            return Some(block);
        }
    }
    None
}

/// The first block whose tuple is not above that of the block before it.
pub(crate) fn first_not_ascending(blocks: &[Block]) -> Option<usize>
    ensures { MatchOption result (HasNone (NotAscendingAt blocks.now)) (IsFirst (NotAscendingAt blocks.now)) }
{
    for i in 1..blocks.len() {
        if blocks[i - 1].compare(blocks[i].tuple()) != Ordering::Less {
            return Some(i);
        }
    }
    None
}

/// The first block that has not as many entries as its tuple asks for.
pub(crate) fn first_bad_length<const K: usize>(legs: &[Leg<K>], blocks: &[Block]) -> Option<usize>
    requires tuples { HasNone (BadTupleAt legs.now blocks.now) }
    requires small { (i : ℕ) → i < length blocks.now → block_size legs.now (block_at blocks.now i).tuple ≤ 2 ^ 22 }
    ensures { MatchOption result (HasNone (BadLengthAt legs.now blocks.now)) (IsFirst (BadLengthAt legs.now blocks.now)) }
{
    for (block, b) in blocks.iter().enumerate() {
        if b.entries().len() as u64 != block_len(legs, b.tuple()) {
            return Some(block);
        }
    }
    None
}
