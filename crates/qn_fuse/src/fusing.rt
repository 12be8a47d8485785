//! Legs made into one.
ghost use Rattle.std.specs.Prelude.{◌≡◌, ◌<◌, ◌+◌, ◌++◌, ℕ, List, length, map, take, drop, slice_index_or, IfOk};
ghost use Rattle.std.specs.List.{All};
ghost use Rattle.qn_gauss.specs.Gaussian.{zero_g};
ghost use Rattle.qn_index.specs.Legs.{IsLegOf};
ghost use Rattle.qn_index.specs.Places.{block_size, values_at};
ghost use Rattle.qn_index.specs.Extents.{IsWithinLimits};
ghost use Rattle.qn_value.specs.Tensors.{IsBlock, AreAscending, entry_in};
ghost use Rattle.qn_block.specs.Blocked.{MeetFlux, tensor_of};
ghost use Rattle.qn_fuse.specs.Fused.{AreFused, HasFusedAt, HasLegsAt, fused_at};
ghost use Rattle.qn_fuse.specs.Pieces.{source, IsBlockAt, IsFusedEntry, IsFusedOf, IsSource};

use crate::lookup::{entries_at, starts_in};
use crate::pieces::{Source, joined_rows};
use crate::sides::{fused_legs, joined_sectors, legs_from, sectors_from, tuples_of};
use qn_block::{Block, BlockTensor, Combiner, Start};
use qn_index::{Leg, Tuple, block_len};
use std::alloc::{AllocError, Global};

/// The block in which the fused legs have these sectors.
fn source_of<'a, const K: usize>(
    alloc: Global,
    t: &'a BlockTensor<K>,
    first: usize,
    before: &[u32],
    between: &[u32],
    behind: &[u32],
) -> Result<Source<'a>, AllocError>
    requires before { length before.now ≡ first }
    requires block { IsBlockAt t.now.legs (before.now ++ (between.now ++ behind.now)) }
    ensures value { IfOk result (λ x. x ≡ source t.now first before.now behind.now between.now) }
    ensures rows { IfOk result (IsSource (block_size (take first t.now.legs) before.now)) }
{
    t.known();
    let tuple = joined_sectors(alloc, before, between, behind)?;
    let len = block_len(legs_from(t.legs(), first), sectors_from(&tuple, first)) as usize;
    Ok(Source {
        entries: entries_at(t, &tuple),
        len,
    })
}

/// The blocks of which the block of the fused tensor at this tuple is made.
fn sources_of<'a, const K: usize>(
    alloc: Global,
    t: &'a BlockTensor<K>,
    first: usize,
    before: &[u32],
    starts: &[Start],
    behind: &[u32],
) -> Result<Vec<Source<'a>>, AllocError>
    requires before { length before.now ≡ first }
    requires blocks { All (λ s. IsBlockAt t.now.legs (before.now ++ (s.tuple ++ behind.now))) starts.now }
    ensures value { IfOk result (λ v. v.items ≡
        map (λ s. source t.now first before.now behind.now s.tuple) starts.now) }
    ensures rows { IfOk result (λ v. All (IsSource (block_size (take first t.now.legs) before.now)) v.items) }
{
    let mut sources = Vec::with_capacity(alloc, starts.len())?;
    for start in starts {
        sources.push(source_of(alloc, t, first, before, start.tuple(), behind)?)?;
    }
    Ok(sources)
}

/// The block of the fused tensor at this tuple.
fn fused_block<const K: usize>(
    alloc: Global,
    t: &BlockTensor<K>,
    first: usize,
    c: &Combiner<K>,
    tuple: &Tuple,
) -> Result<Block, AllocError>
    requires legs { HasLegsAt c.now first t.now.legs }
    requires tuple { IsBlockAt (fused_at c.now first t.now.legs) tuple.now }
    ensures tuple { IfOk result (λ b. b.tuple ≡ tuple.now) }
    ensures full { IfOk result (λ b. length b.entries ≡ block_size (fused_at c.now first t.now.legs) tuple.now) }
    ensures entries { IfOk result (λ b. (o : ℕ) → o < block_size (fused_at c.now first t.now.legs) tuple.now →
        IsFusedEntry c.now first (tensor_of t.now) (values_at (fused_at c.now first t.now.legs) tuple.now o)
        (slice_index_or b.entries o zero_g)) }
{
    t.known();
    c.known();
    let sectors = tuple.as_slice();
    let before = &sectors[..first];
    let behind = sectors_from(sectors, first + 1);
    let starts = starts_in(c, sectors[first]);
    let sources = sources_of(alloc, t, first, before, starts, behind)?;
    let rows = block_len(&t.legs()[..first], before) as usize;
    let entries = joined_rows(alloc, &sources, rows)?;
    Ok(Block {
        tuple: tuple.copy()?,
        entries,
    })
}

/// The blocks of the fused tensor, one for each admissible tuple.
fn fused_blocks<const K: usize>(
    alloc: Global,
    t: &BlockTensor<K>,
    first: usize,
    c: &Combiner<K>,
    legs: &[Leg<K>],
) -> Result<Vec<Block>, AllocError>
    requires place { HasLegsAt c.now first t.now.legs }
    requires legs { legs.now ≡ fused_at c.now first t.now.legs }
    requires charges { All (IsLegOf t.now.group) legs.now }
    requires shape { IsWithinLimits t.now.group legs.now t.now.flux }
    ensures blocks { IfOk result (λ bs. All (IsBlock t.now.group legs.now t.now.flux) bs.items) }
    ensures ascending { IfOk result (λ bs. AreAscending bs.items) }
    ensures entries { IfOk result (λ bs. (xs : List ℕ) → MeetFlux t.now.group legs.now t.now.flux xs →
        IsFusedEntry c.now first (tensor_of t.now) xs (entry_in legs.now bs.items xs)) }
{
    let tuples = tuples_of(alloc, t, legs)?;
    let mut blocks = Vec::with_capacity(alloc, tuples.len())?;
    for tuple in &tuples {
        blocks.push(fused_block(alloc, t, first, c, tuple)?)?;
    }
    Ok(blocks)
}

/// The fused tensor, with a block for each admissible tuple.
fn fused_tensor<const K: usize>(
    alloc: Global,
    t: &BlockTensor<K>,
    first: usize,
    c: &Combiner<K>,
) -> Result<BlockTensor<K>, AllocError>
    requires group { t.now.group ≡ c.now.group }
    requires legs { HasLegsAt c.now first t.now.legs }
    ensures { IfOk result (IsFusedOf c.now first t.now) }
{
    t.known();
    c.known();
    let legs = fused_legs(alloc, t.legs(), first, c)?;
    let blocks = fused_blocks(alloc, t, first, c, &legs)?;
    Ok(BlockTensor::of_blocks(*t.group(), legs, *t.flux(), blocks))
}

/// The tensor with the legs of the combiner, which stand from the place `first` on, made into the
/// fused leg. Entries keep their value; nothing is multiplied, and no block is all zeros.
pub fn fuse<const K: usize>(
    alloc: Global,
    t: &BlockTensor<K>,
    first: usize,
    c: &Combiner<K>,
) -> Result<BlockTensor<K>, AllocError>
    requires group { t.now.group ≡ c.now.group }
    requires legs { HasLegsAt c.now first t.now.legs }
    ensures fused { IfOk result (λ r. AreFused c.now (take first t.now.legs)
        (drop (first + length c.now.legs) t.now.legs) (tensor_of t.now) (tensor_of r)) }
    ensures leg { IfOk result (λ r. HasFusedAt c.now first r.legs) }
{
    t.known();
    c.known();
    let result = fused_tensor(alloc, t, first, c)?;
    result.known();
    Ok(result.canonical())
}
