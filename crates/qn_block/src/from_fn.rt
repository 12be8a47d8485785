//! A tensor with its entries from a function.

ghost use Rattle.std.specs.Prelude.{◌≡◌, ◌<◌, ◌≤◌, ◌^◌, ℕ, List, length, IfOk, IfErr, slice_index_or};
ghost use Rattle.std.specs.Fn.{FnReturnsAt};
ghost use Rattle.std.specs.List.{All};
ghost use Rattle.qn_gauss.specs.Gaussian.{zero_g};
ghost use Rattle.qn_index.specs.Legs.{IsLegOf};
ghost use Rattle.qn_index.specs.Tuples.{IsTuple, IsFlux, admitted};
ghost use Rattle.qn_index.specs.Places.{block_size, values_at};
ghost use Rattle.qn_index.specs.Extents.{IsWithinLimits};
ghost use Rattle.qn_value.specs.Tensors.{BlockValue, IsBlock, AreAscending, entry_in, entry_of};
ghost use Rattle.qn_block.specs.Blocked.{MeetFlux, tensor_of};
ghost use Rattle.qn_block.specs.Refusals.{IsShapeFault};

use crate::fault::BlockFault;
use crate::tensor::{Block, BlockTensor};
use qn_charge::{Charge, Group};
use qn_gauss::Gauss;
use qn_index::{Leg, Tuple, admissible, block_len};
use std::alloc::{AllocError, Global};

/// Writes the values at a place of the tuple's block, which has `size` entries.
pub(crate) fn write_values<const K: usize>(
    legs: &[Leg<K>],
    tuple: &[u32],
    size: u64,
    place: u64,
    values: &mut [u32],
)
    requires tuple { IsTuple legs.now tuple.now }
    requires size { size ≡ block_size legs.now tuple.now }
    requires below { place < size }
    requires long { length values.old ≡ length legs.now }
    ensures { values.new ≡ values_at legs.now tuple.now place }
{
    let mut size = size;
    let mut rest = place;
    for i in 0..legs.len() {
        let leg = &legs[i];
        let sector = tuple[i];
        size /= u64::from(leg.dim_at(sector));
        values[i] = leg.place_of(sector, (rest / size) as u32);
        rest %= size;
    }
}

/// The block whose entries are the function's answers.
fn block_of<const K: usize, F: Fn(&[u32]) -> Gauss>(
    alloc: Global,
    legs: &[Leg<K>],
    tuple: &Tuple,
    f: &F,
) -> Result<Block, AllocError>
    requires tuple { IsTuple legs.now tuple.now }
    requires small { block_size legs.now tuple.now ≤ 2 ^ 22 }
    requires callable { (x : _) (o : ℕ) → o < block_size legs.now tuple.now → x.now ≡ values_at legs.now tuple.now o → F.pre f.now x }
    ensures tuple { IfOk result (λ b. b.tuple ≡ tuple.now) }
    ensures full { IfOk result (λ b. length b.entries ≡ block_size legs.now tuple.now) }
    ensures answers { IfOk result (λ b.
        (o : ℕ) → o < block_size legs.now tuple.now →
        FnReturnsAt F.Fn f.now (values_at legs.now tuple.now o) (slice_index_or b.entries o zero_g)) }
{
    let size = block_len(legs, tuple.as_slice());
    let mut entries = Vec::with_capacity(alloc, size as usize)?;
    let mut values = vec![in alloc; 0u32; legs.len()]?;
    for place in 0..size {
        write_values(legs, tuple.as_slice(), size, place, &mut values);
        entries.push(f(&values))?;
    }
    Ok(Block {
        tuple: tuple.copy()?,
        entries,
    })
}

/// The blocks of all admissible tuples, whose entries are the function's answers.
pub(crate) fn blocks_from<const K: usize, F: Fn(&[u32]) -> Gauss>(
    alloc: Global,
    group: &Group<K>,
    legs: &[Leg<K>],
    flux: &Charge<K>,
    f: &F,
) -> Result<Vec<Block>, AllocError>
    requires group { All (IsLegOf group.now) legs.now }
    requires flux { IsFlux group.now flux.now }
    requires shape { IsWithinLimits group.now legs.now flux.now }
    requires callable { (x : _) → MeetFlux group.now legs.now flux.now x.now → F.pre f.now x }
    ensures blocks { IfOk result (λ bs. All (IsBlock group.now legs.now flux.now) bs.items) }
    ensures ascending { IfOk result (λ bs. AreAscending bs.items) }
    ensures answers { IfOk result (λ bs.
        (xs : List ℕ) → MeetFlux group.now legs.now flux.now xs →
        FnReturnsAt F.Fn f.now xs (entry_in legs.now bs.items xs)) }
{
    let tuples = admissible(alloc, group, legs, flux)?;
    let mut blocks = Vec::with_capacity(alloc, tuples.len())?;
    for tuple in &tuples {
        blocks.push(block_of(alloc, legs, tuple, f)?)?;
    }
    Ok(blocks)
}

/// The tensor whose entries are the function's answers, where its shape is known to be within the limits.
pub(crate) fn tensor_from<const K: usize, F: Fn(&[u32]) -> Gauss>(
    alloc: Global,
    group: Group<K>,
    legs: Vec<Leg<K>>,
    flux: Charge<K>,
    f: &F,
) -> Result<BlockTensor<K>, AllocError>
    requires group { All (IsLegOf group) legs.items }
    requires flux { IsFlux group flux }
    requires shape { IsWithinLimits group legs.items flux }
    requires callable { (x : _) → MeetFlux group legs.items flux x.now → F.pre f.now x }
    ensures group { IfOk result (λ t. t.group ≡ group.entry) }
    ensures legs { IfOk result (λ t. t.legs ≡ legs.entry.items) }
    ensures flux { IfOk result (λ t. t.flux ≡ flux.entry) }
    ensures entries { IfOk result (λ t.
        (xs : List ℕ) → MeetFlux t.group t.legs t.flux xs → FnReturnsAt F.Fn f.now xs (entry_of (tensor_of t) xs)) }
{
    let blocks = blocks_from(alloc, &group, &legs, &flux, f)?;
    Ok(BlockTensor::of_blocks(group, legs, flux, blocks))
}
