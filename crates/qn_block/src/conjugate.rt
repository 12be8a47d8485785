//! The conjugate of a tensor: legs in reverse order, arrows turned, entries conjugated.

ghost use Rattle.std.specs.Prelude.{◌≡◌, ◌<◌, ◌≤◌, ◌^◌, ℕ, List, length, reverse, IfOk};
ghost use Rattle.std.specs.List.Sorted.{IsPermutation};
ghost use Rattle.qn_index.specs.Tuples.{IsTuple};
ghost use Rattle.qn_index.specs.Places.{block_size, IsInner, offset_of};
ghost use Rattle.qn_value.specs.Tensors.{AreAscending};
ghost use Rattle.qn_block.specs.Blocked.{AreDistinct, IsConjugate, IsConjugateBlock, IsWhole, conjugate_legs, tensor_of};
ghost use Rattle.qn_block.specs.Refusals.{block_at};

use crate::tensor::{Block, BlockTensor};
use qn_charge::Abelian;
use qn_index::{Leg, Tuple, block_len, known_all};
use std::alloc::{AllocError, Global};

/// The legs in reversed order, each with the other arrow.
pub(crate) fn conjugate_legs<const K: usize>(
    alloc: Global,
    legs: &[Leg<K>],
) -> Result<Vec<Leg<K>>, AllocError>
    ensures { IfOk result (λ v. v.items ≡ conjugate_legs legs.now) }
{
    let mut turned = Vec::with_capacity(alloc, legs.len())?;
    for i in (0..legs.len()).rev() {
        turned.push(legs[i].copy()?.flip())?;
    }
    Ok(turned)
}

/// The numbers in reversed order.
fn reversed(alloc: Global, tuple: &[u32]) -> Result<Tuple, AllocError>
    ensures { IfOk result (λ t. t ≡ reverse tuple.now) }
{
    let mut list = tuple.to_vec(alloc)?;
    list.reverse();
    Ok(Tuple::new(list))
}

/// The offset in the tuple's block of the entry that is at offset `place` in the block of the
/// reversed tuple over the reversed legs.
fn mirrored_place<const K: usize>(legs: &[Leg<K>], tuple: &[u32], place: u64) -> u64
    requires tuple { IsTuple legs.now tuple.now }
    requires small { block_size legs.now tuple.now ≤ 2 ^ 22 }
    ensures below { result < block_size legs.now tuple.now }
    ensures place { (os : List ℕ) → IsInner legs.now tuple.now os →
        place ≡ offset_of (conjugate_legs legs.now) (reverse tuple.now) (reverse os) →
        result ≡ offset_of legs.now tuple.now os }
{
    known_all(legs);
    let mut found = 0u64;
    let mut rest = place;
    for i in 0..legs.len() {
        let dim = u64::from(legs[i].dim_at(tuple[i]));
        found = found * dim + rest % dim;
        rest /= dim;
    }
    found
}

/// The block of the conjugate.
fn conjugate_block<const K: usize>(
    alloc: Global,
    legs: &[Leg<K>],
    block: &Block,
) -> Result<Block, AllocError>
    requires tuple { IsTuple legs.now block.now.tuple }
    requires full { length block.now.entries ≡ block_size legs.now block.now.tuple }
    requires small { block_size legs.now block.now.tuple ≤ 2 ^ 22 }
    ensures { IfOk result (IsConjugateBlock legs.now block.now) }
{
    let tuple = block.tuple();
    let size = block_len(legs, tuple);
    let mut entries = Vec::with_capacity(alloc, size as usize)?;
    for place in 0..size {
        let entry = block.entry(mirrored_place(legs, tuple, place));
        entries.push(entry.conj())?;
    }
    Ok(Block {
        tuple: reversed(alloc, tuple)?,
        entries,
    })
}

/// The blocks of the conjugate, in the order of the blocks.
fn conjugate_blocks<const K: usize>(
    alloc: Global,
    legs: &[Leg<K>],
    blocks: &[Block],
) -> Result<Vec<Block>, AllocError>
    requires blocks { (k : ℕ) → k < length blocks.now → IsWhole legs.now (block_at blocks.now k) }
    ensures count { IfOk result (λ v. length v.items ≡ length blocks.now) }
    ensures blocks { IfOk result (λ v.
        (k : ℕ) → k < length blocks.now → IsConjugateBlock legs.now (block_at blocks.now k) (block_at v.items k)) }
{
    let mut conjugates = Vec::with_capacity(alloc, blocks.len())?;
    for block in blocks {
        conjugates.push(conjugate_block(alloc, legs, block)?)?;
    }
    Ok(conjugates)
}

/// Puts blocks in ascending order of their tuples.
fn sort_blocks(blocks: &mut Vec<Block>)
    ensures permutation { IsPermutation blocks.old.items blocks.new.items }
    ensures ascending { AreDistinct blocks.old.items → AreAscending blocks.new.items }
{
    blocks.sort_unstable_by(|a, b| a.compare(b.tuple()));
}

impl<const K: usize> BlockTensor<K> {
    /// The conjugate: its legs stand in reversed order with the other arrows, its flux is negated,
    /// and its entries are conjugated.
    pub fn dag(&self) -> Result<BlockTensor<K>, AllocError>
        ensures { IfOk result (λ t. IsConjugate (tensor_of self.now) (tensor_of t)) }
    {
        self.known();
        let alloc = self.allocator();
        let legs = conjugate_legs(alloc, self.legs())?;
        let flux = self.group().neg(self.flux());
        let mut blocks = conjugate_blocks(alloc, self.legs(), self.blocks())?;
        sort_blocks(&mut blocks);
        Ok(BlockTensor::of_blocks(*self.group(), legs, flux, blocks))
    }
}
