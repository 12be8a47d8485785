//! The entry of a tensor at a value for each leg.

ghost use Rattle.std.specs.Prelude.{◌≡◌, ◌≢◌, ◌<◌, ◌≤◌, ◌^◌, ◌↔◌, ℕ, length, take, IsTrue, MatchOption, Contains};
ghost use Rattle.qn_index.specs.Places.{IsValues, sectors_at};
ghost use Rattle.qn_value.specs.Tensors.{entry_of, AreAscending};
ghost use Rattle.qn_block.specs.Blocked.{tensor_of, offsets_at};
ghost use Rattle.qn_block.specs.Refusals.{block_at};

use crate::tensor::{Block, BlockTensor};
use qn_gauss::Gauss;
use qn_index::{Leg, offset_of};

/// Where the block of this tuple stands.
fn find(blocks: &[Block], tuple: &[u32]) -> Option<usize>
    requires { AreAscending blocks.now }
    ensures { MatchOption result ((i : ℕ) → i < length blocks.now → (block_at blocks.now i).tuple ≢ tuple.now) (λ i.
        (i < length blocks.now) × ((block_at blocks.now i).tuple ≡ tuple.now)) }
{
    match blocks.binary_search_by(|b| b.compare(tuple)) {
        Ok(i) => Some(i),
        Err(_) => None,
    }
}

/// The sector of each leg's value, and the value's offset in that sector.
pub(crate) fn placed<const K: usize>(legs: &[Leg<K>], values: &[u32]) -> ([u32; 64], [u32; 64])
    requires few { length legs.now ≤ 64 }
    requires values { IsValues legs.now values.now }
    ensures sectors { take (length legs.now) result.0 ≡ sectors_at legs.now values.now }
    ensures offsets { take (length legs.now) result.1 ≡ offsets_at legs.now values.now }
{
    let mut sectors = [0u32; 64];
    let mut offsets = [0u32; 64];
    for i in 0..legs.len() {
        let leg = &legs[i];
        let (sector, offset) = leg.at(values[i]);
        sectors[i] = sector;
        offsets[i] = offset;
    }
    (sectors, offsets)
}

/// Whether there is one value for each leg, in its range.
pub(crate) fn are_in_range<const K: usize>(legs: &[Leg<K>], values: &[u32]) -> bool
    ensures { IsTrue result ↔ IsValues legs.now values.now }
{
    if values.len() != legs.len() {
        return false;
    }
    for i in 0..legs.len() {
        if values[i] >= legs[i].dim() {
            return false;
        }
    }
    true
}

impl<const K: usize> BlockTensor<K> {
    /// The block of this tuple of sectors, where there is one. Takes no memory.
    pub fn block_at(&self, tuple: &[u32]) -> Option<&Block>
        ensures { MatchOption result ((i : ℕ) → i < length self.now.blocks → (block_at self.now.blocks i).tuple ≢ tuple.now) (λ b. Contains self.now.blocks b.now × (b.now.tuple ≡ tuple.now)) }
    {
        self.known();
        let blocks = self.blocks();
        match find(blocks, tuple) {
            Some(i) => Some(&blocks[i]),
            None => None,
        }
    }

    /// Whether there is one value for each leg, in its range. Takes no memory.
    pub fn is_in_range(&self, values: &[u32]) -> bool
        ensures { IsTrue result ↔ IsValues self.now.legs values.now }
    {
        are_in_range(self.legs(), values)
    }

    /// The entry at one value for each leg. Takes no memory.
    pub fn entry(&self, values: &[u32]) -> Gauss
        requires { IsValues self.now.legs values.now }
        ensures { result ≡ entry_of (tensor_of self.now) values.now }
    {
        self.known();
        let legs = self.legs();
        let n = legs.len();
        let (sectors, offsets) = placed(legs, values);
        match self.block_at(&sectors[..n]) {
            Some(block) => block.entry(offset_of(legs, &sectors[..n], &offsets[..n])),
            None => Gauss::ZERO,
        }
    }
}
