//! One block with its legs in another order.
ghost use Rattle.std.specs.Prelude.{◌≡◌, ◌<◌, ◌≤◌, ◌^◌, length, All, IfOk};
ghost use Rattle.qn_sign.specs.Positions.{IsOrder};
ghost use Rattle.qn_index.specs.Legs.{IsLegOf};
ghost use Rattle.qn_index.specs.Tuples.{IsTuple};
ghost use Rattle.qn_index.specs.Places.{block_size};
ghost use Rattle.qn_value.specs.Local.{picked};
ghost use Rattle.qn_value.specs.Tensors.{IsBlock};
ghost use Rattle.qn_permute.specs.Moved.{sector_parities, block_sign, moved_entries, moved_block};

use crate::axis::{append_entries, axes_in_order, axes_of};
use qn_block::Block;
use qn_charge::{Abelian, Charge, Group};
use qn_gauss::Gauss;
use qn_index::{Leg, Tuple, known_all};
use qn_sign::exchange;
use std::alloc::{AllocError, Global};

/// Whether the sectors of a tuple are odd.
fn parities_of<const K: usize>(
    alloc: Global,
    group: &Group<K>,
    legs: &[Leg<K>],
    tuple: &[u32],
) -> Result<Vec<bool>, AllocError>
    requires tuple { IsTuple legs.now tuple.now }
    ensures { IfOk result (λ v. v.items ≡ sector_parities group.now legs.now tuple.now) }
{
    let mut out = Vec::new(alloc);
    for i in 0..legs.len() {
        out.push(group.parity(legs[i].charge(tuple[i])))?;
    }
    Ok(out)
}

/// The sectors in another order.
fn sectors_in_order(alloc: Global, tuple: &[u32], order: &[usize]) -> Result<Tuple, AllocError>
    requires order { All (λ k. k < length tuple.now) order.now }
    ensures { IfOk result (λ t. t ≡ picked 0 tuple.now order.now) }
{
    let mut out = Vec::new(alloc);
    for k in order {
        out.push(tuple[*k])?;
    }
    Ok(Tuple::new(out))
}

/// The sign of bringing the sectors of a tuple into another order, true for minus.
fn sign_of<const K: usize>(
    alloc: Global,
    group: &Group<K>,
    legs: &[Leg<K>],
    tuple: &[u32],
    order: &[usize],
) -> Result<bool, AllocError>
    requires tuple { IsTuple legs.now tuple.now }
    requires order { IsOrder (length legs.now) order.now }
    ensures { IfOk result (λ s. s ≡ block_sign group.now legs.now tuple.now order.now) }
{
    let odd = parities_of(alloc, group, legs, tuple)?;
    Ok(exchange(&odd, order))
}

/// The entries of a block with its legs in another order. All have one sign.
fn moved_entries<const K: usize>(
    alloc: Global,
    group: &Group<K>,
    legs: &[Leg<K>],
    tuple: &[u32],
    source: &[Gauss],
    order: &[usize],
) -> Result<Vec<Gauss>, AllocError>
    requires tuple { IsTuple legs.now tuple.now }
    requires small { block_size legs.now tuple.now ≤ 2 ^ 22 }
    requires full { length source.now ≡ block_size legs.now tuple.now }
    requires order { IsOrder (length legs.now) order.now }
    ensures { IfOk result (λ v. v.items ≡ moved_entries group.now legs.now order.now tuple.now source.now) }
{
    known_all(legs);
    let minus = sign_of(alloc, group, legs, tuple, order)?;
    let own = axes_of(alloc, legs, tuple)?;
    let axes = axes_in_order(alloc, &own, order)?;
    let mut entries = Vec::with_capacity(alloc, source.len())?;
    append_entries(source, &axes, 0, minus, &mut entries)?;
    Ok(entries)
}

/// The block with its legs in another order.
pub fn moved_block<const K: usize>(
    alloc: Global,
    group: &Group<K>,
    legs: &[Leg<K>],
    flux: &Charge<K>,
    block: &Block,
    order: &[usize],
) -> Result<Block, AllocError>
    requires block { IsBlock group.now legs.now flux.now block.now }
    requires order { IsOrder (length legs.now) order.now }
    ensures { IfOk result (λ b. b ≡ moved_block group.now legs.now order.now block.now) }
{
    let tuple = block.tuple.as_slice();
    let source = block.entries.as_slice();
    let entries = moved_entries(alloc, group, legs, tuple, source, order)?;
    Ok(Block {
        tuple: sectors_in_order(alloc, tuple, order)?,
        entries,
    })
}
