//! A fused leg parted into the legs that it was made of.
ghost use Rattle.std.specs.Prelude.{◌≡◌, ◌<◌, ◌≤◌, ◌+◌, ◌^◌, ℕ, List, length, take, drop, slice_index_or, IfOk, IfErr, OnOk};
ghost use Rattle.std.specs.List.{All};
ghost use Rattle.qn_gauss.specs.Gaussian.{zero_g};
ghost use Rattle.qn_index.specs.Legs.{IsLegOf};
ghost use Rattle.qn_index.specs.Tuples.{IsTuple, IsFlux, net};
ghost use Rattle.qn_index.specs.Places.{block_size, values_at};
ghost use Rattle.qn_index.specs.Extents.{IsWithinLimits};
ghost use Rattle.qn_value.specs.Tensors.{IsBlock, AreAscending, entry_in};
ghost use Rattle.qn_block.specs.Blocked.{MeetFlux, tensor_of};
ghost use Rattle.qn_fuse.specs.Fused.{AreFused, HasFusedAt, HasLegsAt, IsSplitFault, split_at};
ghost use Rattle.qn_fuse.specs.Pieces.{IsSplitEntry, IsSplitOf};

use crate::fault::SplitFault;
use crate::lookup::{entries_at, place_in};
use crate::pieces::cut_rows;
use crate::sides::{
    joined_sectors, legs_from, sectors_between, sectors_from, split_legs, tuples_of,
};
use qn_block::{Block, BlockTensor, Combiner};
use qn_charge::{Charge, Group};
use qn_index::{Leg, MAX_ENTRIES, MAX_TUPLES, Tuple, block_len, width};
use std::alloc::{AllocError, Global};

/// The limits of a shape.
fn check_shape<const K: usize>(
    alloc: Global,
    group: &Group<K>,
    legs: &[Leg<K>],
    flux: &Charge<K>,
) -> Result<(), SplitFault>
    requires group { All (IsLegOf group.now) legs.now }
    requires flux { IsFlux group.now flux.now }
    ensures ok { OnOk result (IsWithinLimits group.now legs.now flux.now) }
    ensures err { IfErr result (IsSplitFault group.now legs.now flux.now) }
{
    if legs.len() > 64 {
        return Err(SplitFault::TooWide);
    }
    let extent = width(alloc, group, legs, flux)?;
    if extent.tuples > MAX_TUPLES {
        return Err(SplitFault::TooWide);
    }
    if extent.entries > MAX_ENTRIES {
        return Err(SplitFault::TooWide);
    }
    Ok(())
}

/// The block of the split tensor at this tuple.
fn split_block<const K: usize>(
    alloc: Global,
    t: &BlockTensor<K>,
    at: usize,
    c: &Combiner<K>,
    tuple: &Tuple,
) -> Result<Block, AllocError>
    requires group { t.now.group ≡ c.now.group }
    requires leg { HasFusedAt c.now at t.now.legs }
    requires tuple { IsTuple (split_at c.now at t.now.legs) tuple.now }
    requires flux { net t.now.group (split_at c.now at t.now.legs) tuple.now ≡ t.now.flux }
    requires small { block_size (split_at c.now at t.now.legs) tuple.now ≤ 2 ^ 22 }
    ensures tuple { IfOk result (λ b. b.tuple ≡ tuple.now) }
    ensures full { IfOk result (λ b. length b.entries ≡ block_size (split_at c.now at t.now.legs) tuple.now) }
    ensures entries { IfOk result (λ b. (o : ℕ) → o < block_size (split_at c.now at t.now.legs) tuple.now →
        IsSplitEntry c.now at (tensor_of t.now) (values_at (split_at c.now at t.now.legs) tuple.now o)
        (slice_index_or b.entries o zero_g)) }
{
    t.known();
    c.known();
    let sectors = tuple.as_slice();
    let count = c.legs().len();
    let before = &sectors[..at];
    let own = sectors_between(sectors, at, count);
    let behind = sectors_from(sectors, at + count);
    let (sector, offset) = place_in(alloc, c, own)?;
    let source = joined_sectors(alloc, before, &[sector], behind)?;
    let legs = t.legs();
    let rows = block_len(&legs[..at], before) as usize;
    let len = block_len(legs_from(legs, at + 1), behind) as usize;
    let width = c.fused().dim_at(sector) as usize * len;
    let start = offset as usize * len;
    let own_len = block_len(c.legs(), own) as usize * len;
    let entries = cut_rows(alloc, entries_at(t, &source), rows, width, start, own_len)?;
    Ok(Block {
        tuple: tuple.copy()?,
        entries,
    })
}

/// The blocks of the split tensor, one for each admissible tuple.
fn split_blocks<const K: usize>(
    alloc: Global,
    t: &BlockTensor<K>,
    at: usize,
    c: &Combiner<K>,
    legs: &[Leg<K>],
) -> Result<Vec<Block>, AllocError>
    requires group { t.now.group ≡ c.now.group }
    requires place { HasFusedAt c.now at t.now.legs }
    requires legs { legs.now ≡ split_at c.now at t.now.legs }
    requires charges { All (IsLegOf t.now.group) legs.now }
    requires shape { IsWithinLimits t.now.group legs.now t.now.flux }
    ensures blocks { IfOk result (λ bs. All (IsBlock t.now.group legs.now t.now.flux) bs.items) }
    ensures ascending { IfOk result (λ bs. AreAscending bs.items) }
    ensures entries { IfOk result (λ bs. (xs : List ℕ) → MeetFlux t.now.group legs.now t.now.flux xs →
        IsSplitEntry c.now at (tensor_of t.now) xs (entry_in legs.now bs.items xs)) }
{
    let tuples = tuples_of(alloc, t, legs)?;
    let mut blocks = Vec::with_capacity(alloc, tuples.len())?;
    for tuple in &tuples {
        blocks.push(split_block(alloc, t, at, c, tuple)?)?;
    }
    Ok(blocks)
}

/// The split tensor, with a block for each admissible tuple.
fn split_tensor<const K: usize>(
    alloc: Global,
    t: &BlockTensor<K>,
    at: usize,
    c: &Combiner<K>,
) -> Result<BlockTensor<K>, SplitFault>
    requires group { t.now.group ≡ c.now.group }
    requires leg { HasFusedAt c.now at t.now.legs }
    ensures value { IfOk result (IsSplitOf c.now at t.now) }
    ensures err { IfErr result (IsSplitFault t.now.group (split_at c.now at t.now.legs) t.now.flux) }
{
    t.known();
    c.known();
    let legs = split_legs(alloc, t.legs(), at, c)?;
    check_shape(alloc, t.group(), &legs, t.flux())?;
    let blocks = split_blocks(alloc, t, at, c, &legs)?;
    Ok(BlockTensor::of_blocks(*t.group(), legs, *t.flux(), blocks))
}

/// The tensor with the fused leg of the combiner, which stands at the place `at`, parted into the
/// combiner's legs. Entries keep their value; nothing is multiplied, and no block is all zeros.
pub fn split<const K: usize>(
    alloc: Global,
    t: &BlockTensor<K>,
    at: usize,
    c: &Combiner<K>,
) -> Result<BlockTensor<K>, SplitFault>
    requires group { t.now.group ≡ c.now.group }
    requires leg { HasFusedAt c.now at t.now.legs }
    ensures shape { OnOk result (IsWithinLimits t.now.group (split_at c.now at t.now.legs) t.now.flux) }
    ensures fused { IfOk result (λ r. AreFused c.now (take at t.now.legs) (drop (at + 1) t.now.legs)
        (tensor_of r) (tensor_of t.now)) }
    ensures legs { IfOk result (λ r. HasLegsAt c.now at r.legs) }
    ensures err { IfErr result (IsSplitFault t.now.group (split_at c.now at t.now.legs) t.now.flux) }
{
    t.known();
    c.known();
    let result = split_tensor(alloc, t, at, c)?;
    result.known();
    Ok(result.canonical())
}
