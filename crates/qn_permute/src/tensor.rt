//! A tensor with its legs in another order.
ghost use Rattle.std.specs.Prelude.{◌≡◌, ◌<◌, ◌↔◌, IsTrue, map, length, All, IfOk, OnOk};
ghost use Rattle.std.specs.List.Sorted.{IsPermutation, IsSortedBy};
ghost use Rattle.std.specs.Cmp.Lexicographic.{slice_cmp};
ghost use Rattle.std.specs.Ordering.{nat_cmp};
ghost use Rattle.qn_sign.specs.Positions.{positions, IsOrder};
ghost use Rattle.qn_value.specs.Local.{picked, no_leg, Moved};
ghost use Rattle.qn_value.specs.Tensors.{IsBlock};
ghost use Rattle.qn_block.specs.Blocked.{tensor_of};
ghost use Rattle.qn_permute.specs.Moved.{moved_block, is_before};

use crate::block::moved_block;
use qn_block::{Block, BlockTensor};
use qn_charge::{Charge, Group};
use qn_index::Leg;
use rayon::prelude::*;
use std::alloc::{AllocError, Global};
use std::cmp::Ordering;
use std::thread::Threads;

/// How many entries pay for a thread.
const PIECE: usize = 1 << 16;

/// Whether the positions stand in their own order.
fn is_in_order(order: &[usize]) -> bool
    ensures { IsTrue result ↔ (order.now ≡ positions (length order.now)) }
{
    for (i, k) in order.iter().enumerate() {
        if *k != i {
            return false;
        }
    }
    true
}

/// The legs in another order.
fn legs_in_order<const K: usize>(
    alloc: Global,
    legs: &[Leg<K>],
    order: &[usize],
) -> Result<Vec<Leg<K>>, AllocError>
    requires order { All (λ k. k < length legs.now) order.now }
    ensures { IfOk result (λ v. v.items ≡ picked no_leg legs.now order.now) }
{
    let mut out = Vec::with_capacity(alloc, order.len())?;
    for k in order {
        out.push(legs[*k].copy()?)?;
    }
    Ok(out)
}

/// How many blocks pay for a thread: as many as have `PIECE` entries together, if all are as long as the mean.
fn piece_len(blocks: &[Block]) -> usize {
    let mut entries: usize = 0;
    for block in blocks {
        entries = entries.saturating_add(block.entries().len());
    }
    let mean = entries / blocks.len().max(1);
    PIECE / mean.max(1) + 1
}

/// The blocks with their legs in another order. Threads share them in pieces that pay for one.
fn moved_blocks<const K: usize, R: Threads + Sync>(
    rt: &R,
    alloc: Global,
    group: &Group<K>,
    legs: &[Leg<K>],
    flux: &Charge<K>,
    blocks: &[Block],
    order: &[usize],
) -> Result<Vec<Block>, AllocError>
    requires blocks { All (IsBlock group.now legs.now flux.now) blocks.now }
    requires order { IsOrder (length legs.now) order.now }
    ensures { IfOk result (λ v. v.items ≡ map (moved_block group.now legs.now order.now) blocks.now) }
{
    blocks
        .par_iter()
        .with_min_len(piece_len(blocks))
        .map(
            |block: &Block| -> Result<Block, AllocError>
                requires { IsBlock group.now legs.now flux.now block.now × IsOrder (length legs.now) order.now }
                ensures { IfOk result (λ b. b ≡ moved_block group.entry.now legs.entry.now order.entry.now block.now) }
            { moved_block(alloc, group, legs, flux, block, order) },
        )
        .collect::<Result<Vec<Block>, AllocError>>(rt, alloc)?
}

/// How two blocks' tuples stand to each other, compared leg by leg from the first.
fn compare(a: &Block, b: &Block) -> Ordering
    ensures { result ≡ slice_cmp nat_cmp a.now.tuple b.now.tuple }
{
    a.compare(b.tuple.as_slice())
}

/// Sorts blocks by their tuples.
fn sort_blocks(blocks: &mut Vec<Block>) -> Result<(), AllocError>
    ensures kept { IsPermutation blocks.old.items blocks.new.items }
    ensures sorted { OnOk result (IsSortedBy is_before blocks.new.items) }
{
    blocks.sort_by(|a, b| compare(a, b))?;
    Ok(())
}

/// The tensor with its legs in another order: leg `k` of the result is leg `order[k]` of `t`.
/// Each entry has the sign of exchanging its odd values. Takes memory for the result and for one list of legs a block.
/// Threads share the blocks where these are large enough to pay for them.
pub fn permute<const K: usize, R: Threads + Sync>(
    rt: &R,
    alloc: Global,
    t: &BlockTensor<K>,
    order: &[usize],
) -> Result<BlockTensor<K>, AllocError>
    requires order { IsOrder (length t.now.legs) order.now }
    ensures { IfOk result (λ r. Moved (tensor_of t.now) order.now (tensor_of r)) }
{
    t.known();
    if is_in_order(order) {
        return t.copy();
    }
    let legs = legs_in_order(alloc, t.legs(), order)?;
    let mut blocks = moved_blocks(rt, alloc, t.group(), t.legs(), t.flux(), t.blocks(), order)?;
    sort_blocks(&mut blocks)?;
    Ok(BlockTensor::of_blocks(*t.group(), legs, *t.flux(), blocks))
}
