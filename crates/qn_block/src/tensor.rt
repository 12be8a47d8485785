//! A block, and a tensor held in blocks.

ghost use Rattle.std.specs.Prelude.{◌≡◌, ◌<◌, length, slice_index_or, IfOk};
ghost use Rattle.std.specs.Cmp.Lexicographic.{slice_cmp};
ghost use Rattle.std.specs.List.{All};
ghost use Rattle.std.specs.Ordering.{nat_cmp};
ghost use Rattle.qn_gauss.specs.Gaussian.{zero_g};
ghost use Rattle.qn_index.specs.Legs.{IsLegOf};
ghost use Rattle.qn_index.specs.Tuples.{IsFlux};
ghost use Rattle.qn_index.specs.Extents.{IsWithinLimits};
ghost use Rattle.qn_value.specs.Tensors.{IsBlock, AreAscending};
ghost use Rattle.qn_block.specs.Blocked.{IsBlocked};

use qn_charge::{Charge, Group};
use qn_gauss::Gauss;
use qn_index::{Leg, Tuple, known_all};
use std::alloc::{AllocError, Global};
use std::cmp::Ordering;
use std::marker::Model;

/// The entries at a tuple of sectors, one for each leg. They are row-major, the last leg fastest.
#[derive(Debug, Drop)]
pub struct Block {
    pub tuple: Tuple,
    pub entries: Vec<Gauss>,
}

impl Model for Block {
    ghost use Rattle.qn_value.specs.Tensors.{BlockValue};

    ghost Value = { BlockValue };

    ghost view = { λ b. record { tuple = b.tuple; entries = b.entries.items } };
}

impl Block {
    /// How the block's tuple stands to a tuple, compared leg by leg from the first.
    pub fn compare(&self, tuple: &[u32]) -> Ordering
        ensures { result ≡ slice_cmp nat_cmp self.now.tuple tuple.now }
    {
        self.tuple.as_slice().cmp(tuple)
    }

    /// The tuple of sectors.
    pub fn tuple(&self) -> &[u32]
        ensures { result.now ≡ self.now.tuple }
    {
        self.tuple.as_slice()
    }

    /// The entries.
    pub fn entries(&self) -> &[Gauss]
        ensures { result.now ≡ self.now.entries }
    {
        &self.entries
    }

    /// The entry at an offset.
    pub fn entry(&self, offset: u64) -> Gauss
        requires { offset < length self.now.entries }
        ensures { result ≡ slice_index_or self.now.entries offset zero_g }
    {
        let entries = self.entries.as_slice();
        entries[offset as usize]
    }

    /// An equal block.
    pub fn copy(&self) -> Result<Block, AllocError>
        ensures { IfOk result (λ b. b ≡ self.now) }
    {
        Ok(Block {
            tuple: self.tuple.copy()?,
            entries: self.entries.clone()?,
        })
    }
}

/// A tensor that conserves charge, held in blocks. Only admissible tuples of sectors have blocks: the charges
/// of the Out legs minus those of the In legs are the flux. Blocks stand in ascending order of their tuples.
/// Where there is no block the entries are 0.
#[derive(Debug, Drop)]
pub struct BlockTensor<const K: usize> {
    group: Group<K>,
    legs: Vec<Leg<K>>,
    flux: Charge<K>,
    blocks: Vec<Block>,
}

impl<const K: usize> Model for BlockTensor<K> {
    ghost use Rattle.qn_block.specs.Blocked.{BlockedValue, IsBlocked};

    ghost Value = { BlockedValue };

    ghost view = { λ t. record { group = t.group; legs = t.legs.items; flux = t.flux; blocks = t.blocks.items } };

    ghost invariant = { λ t. IsBlocked (record { group = t.group; legs = t.legs.items; flux = t.flux; blocks = t.blocks.items }) };
}

impl<const K: usize> BlockTensor<K> {
    /// The tensor of blocks that are known to be right. Nothing is tested; `new` tests them.
    pub fn of_blocks(
        group: Group<K>,
        legs: Vec<Leg<K>>,
        flux: Charge<K>,
        blocks: Vec<Block>,
    ) -> BlockTensor<K>
        requires charges { All (IsLegOf group) legs.items }
        requires flux { IsFlux group flux }
        requires shape { IsWithinLimits group legs.items flux }
        requires blocks { All (IsBlock group legs.items flux) blocks.items }
        requires ascending { AreAscending blocks.items }
        ensures { result ≡ record { group = group.entry; legs = legs.entry.items; flux = flux.entry; blocks = blocks.items } }
    {
        group.known();
        known_all(&legs);
        BlockTensor {
            group,
            legs,
            flux,
            blocks,
        }
    }

    /// What holds of each tensor held in blocks. Nothing is done.
    pub fn known(&self)
        ensures { IsBlocked self.now }
    {
        let _group = &self.group;
    }

    /// The allocator of the blocks.
    pub(crate) fn allocator(&self) -> Global {
        *self.blocks.allocator()
    }

    /// The group of the charges.
    pub fn group(&self) -> &Group<K>
        ensures { result.now ≡ self.now.group }
    {
        &self.group
    }

    /// The legs, at most 64.
    pub fn legs(&self) -> &[Leg<K>]
        ensures { result.now ≡ self.now.legs }
    {
        &self.legs
    }

    /// The flux.
    pub fn flux(&self) -> &Charge<K>
        ensures { result.now ≡ self.now.flux }
    {
        &self.flux
    }

    /// The blocks, ascending.
    pub fn blocks(&self) -> &[Block]
        ensures { result.now ≡ self.now.blocks }
    {
        &self.blocks
    }

    /// The group, the legs, the flux and the blocks.
    pub fn into_parts(self) -> (Group<K>, Vec<Leg<K>>, Charge<K>, Vec<Block>)
        ensures group { result.0 ≡ self.entry.group }
        ensures legs { result.1.items ≡ self.entry.legs }
        ensures flux { result.2 ≡ self.entry.flux }
        ensures blocks { result.3.items ≡ self.entry.blocks }
        ensures known { IsBlocked self.entry }
    {
        (self.group, self.legs, self.flux, self.blocks)
    }
}
