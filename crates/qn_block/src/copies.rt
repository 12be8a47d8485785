//! Copies of a tensor, and its canonical form, without blocks of zeros.

ghost use Rattle.std.specs.Prelude.{◌≡◌, List, ℕ, IfOk, not, filter};
ghost use Rattle.std.specs.List.{list_any};
ghost use Rattle.qn_value.specs.Tensors.{entry_of};
ghost use Rattle.qn_block.specs.Blocked.{tensor_of, is_filled, is_zero};

use crate::tensor::{Block, BlockTensor};
use qn_gauss::Gauss;
use qn_index::copy_legs;
use std::alloc::{AllocError, Global};

/// Equal blocks.
fn copy_blocks(alloc: Global, blocks: &[Block]) -> Result<Vec<Block>, AllocError>
    ensures { IfOk result (λ v. v.items ≡ blocks.now) }
{
    let mut copies = Vec::with_capacity(alloc, blocks.len())?;
    for block in blocks {
        copies.push(block.copy()?)?;
    }
    Ok(copies)
}

/// Whether an entry is not 0.
fn is_not_zero(entry: &Gauss) -> bool
    ensures { result ≡ not (is_zero entry.now) }
{
    !entry.is_zero()
}

/// Whether some entry is not 0.
fn any_not_zero(entries: &[Gauss]) -> bool
    ensures { result ≡ list_any (λ z. not (is_zero z)) entries.now }
{
    for entry in entries {
        if is_not_zero(entry) {
            return true;
        }
    }
    false
}

impl Block {
    /// Whether an entry is not 0.
    pub fn is_filled(&self) -> bool
        ensures { result ≡ is_filled self.now }
    {
        any_not_zero(&self.entries)
    }
}

impl<const K: usize> BlockTensor<K> {
    /// An equal tensor.
    pub fn copy(&self) -> Result<BlockTensor<K>, AllocError>
        ensures { IfOk result (λ t. t ≡ self.now) }
    {
        self.known();
        let alloc = self.allocator();
        let legs = copy_legs(alloc, self.legs())?;
        let blocks = copy_blocks(alloc, self.blocks())?;
        Ok(BlockTensor::of_blocks(*self.group(), legs, *self.flux(), blocks))
    }

    /// The same tensor without the blocks that are all zeros. Nothing is copied.
    pub fn canonical(self) -> BlockTensor<K>
        ensures blocks { result ≡
            record { group = self.entry.group; legs = self.entry.legs; flux = self.entry.flux; blocks = filter is_filled self.entry.blocks } }
        ensures entries { (xs : List ℕ) → entry_of (tensor_of result) xs ≡ entry_of (tensor_of self.entry) xs }
    {
        let (group, legs, flux, mut blocks) = self.into_parts();
        blocks.retain(|block| block.is_filled());
        BlockTensor::of_blocks(group, legs, flux, blocks)
    }
}
