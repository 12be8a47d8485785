//! Tensors all of whose entries are drawn.

ghost use Rattle.std.specs.Prelude.{◌≡◌, ◌≤◌, ◌^◌, length, map, IfOk, OnOk};
ghost use Rattle.std.specs.List.{All, range_with_len, sum_by};
ghost use Rattle.qn_index.specs.Legs.{IsLegOf};
ghost use Rattle.qn_index.specs.Tuples.{IsFlux, IsTuple, admitted};
ghost use Rattle.qn_index.specs.Places.{block_size};
ghost use Rattle.qn_index.specs.Extents.{IsWithinLimits};
ghost use Rattle.qn_gen.specs.Workload.{drawn, drawn_blocks, turned};

use crate::draw::Draws;
use qn_block::{Block, BlockTensor};
use qn_charge::{Charge, Group};
use qn_index::{Leg, Tuple, admissible, block_len};
use std::alloc::{AllocError, Global};

/// The block of a tuple.
fn block(
    alloc: Global,
    legs: &[Leg<1>],
    tuple: &Tuple,
    draws: &mut Draws,
) -> Result<Block, AllocError>
    requires tuple { IsTuple legs.now tuple.now }
    requires small { block_size legs.now tuple.now ≤ 2 ^ 22 }
    ensures block { IfOk result (λ b.
        b ≡
        record { tuple = tuple.now; entries = map (drawn draws.old.x) (range_with_len 0 (block_size legs.now tuple.now)) }) }
    ensures state { OnOk result (draws.new.x ≡ turned draws.old.x (block_size legs.now tuple.now)) }
{
    let size = block_len(legs, tuple.as_slice());
    let entries = draws.take(alloc, size as usize)?;
    Ok(Block {
        tuple: tuple.copy()?,
        entries,
    })
}

/// The blocks of all admissible tuples, ascending.
fn blocks(
    alloc: Global,
    group: &Group<1>,
    legs: &[Leg<1>],
    flux: &Charge<1>,
    draws: &mut Draws,
) -> Result<Vec<Block>, AllocError>
    requires group { All (IsLegOf group.now) legs.now }
    requires flux { IsFlux group.now flux.now }
    requires shape { IsWithinLimits group.now legs.now flux.now }
    ensures blocks { IfOk result (λ v. v.items ≡ drawn_blocks draws.old.x 0 legs.now (admitted group.now legs.now flux.now)) }
    ensures state { OnOk result (
        draws.new.x ≡ turned draws.old.x (sum_by (block_size legs.now) (admitted group.now legs.now flux.now))) }
{
    let tuples = admissible(alloc, group, legs, flux)?;
    let mut blocks = Vec::with_capacity(alloc, tuples.len())?;
    for tuple in &tuples {
        blocks.push(block(alloc, legs, tuple, draws)?)?;
    }
    Ok(blocks)
}

/// The tensor of these legs and this flux.
pub(crate) fn drawn_tensor(
    alloc: Global,
    group: &Group<1>,
    legs: Vec<Leg<1>>,
    flux: Charge<1>,
    draws: &mut Draws,
) -> Result<BlockTensor<1>, AllocError>
    requires group { All (IsLegOf group.now) legs.items }
    requires flux { IsFlux group.now flux }
    requires shape { IsWithinLimits group.now legs.items flux }
    ensures tensor { IfOk result (λ t.
        t ≡
        record { group = group.now; legs = legs.items; flux = flux; blocks = drawn_blocks draws.old.x 0 legs.items (admitted group.now legs.items flux) }) }
    ensures state { OnOk result (
        draws.new.x ≡ turned draws.old.x (sum_by (block_size legs.items) (admitted group.now legs.items flux))) }
{
    let blocks = blocks(alloc, group, &legs, &flux, draws)?;
    Ok(BlockTensor::of_blocks(*group, legs, flux, blocks))
}
