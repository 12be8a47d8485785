//! Where blocks of a tensor and sectors of a combiner are found.
ghost use Rattle.std.specs.Prelude.{◌≡◌, ◌<◌, ◌≤◌, ℕ, nat_lt, length, map, IfOk};
ghost use Rattle.qn_index.specs.Tuples.{IsTuple};
ghost use Rattle.qn_index.specs.Places.{values_at};
ghost use Rattle.qn_block.specs.Combiners.{fused_sectors, start_at};
ghost use Rattle.qn_fuse.specs.Pieces.{IsCount, IsPlace, entries_at, tuples_in};

use qn_block::{BlockTensor, Combiner, Start};
use qn_gauss::Gauss;
use qn_index::{Leg, known_all};
use std::alloc::{AllocError, Global};

/// The entries of the block of a tuple, none where there is no block.
pub(crate) fn entries_at<'a, const K: usize>(t: &'a BlockTensor<K>, tuple: &[u32]) -> &'a [Gauss]
    ensures { result.now ≡ entries_at t.now.blocks tuple.now }
{
    t.known();
    match t.block_at(tuple) {
        Some(block) => block.entries(),
        None => &[],
    }
}

/// Whether the values of a tuple begin before a value.
fn is_before(start: &Start, value: u32) -> bool
    ensures { result ≡ nat_lt start.now.start value }
{
    start.start() < value
}

/// The number of tuples whose values begin before a value.
fn count_before(starts: &[Start], value: u32) -> usize
    requires { (i j : ℕ) → i ≤ j → j < length starts.now →
        (start_at starts.now i).start ≤ (start_at starts.now j).start }
    ensures { IsCount starts.now value result }
{
    starts.partition_point(|start| is_before(start, value))
}

/// The tuples of which a sector of the fused leg is made, in their order.
pub(crate) fn starts_in<const K: usize>(c: &Combiner<K>, sector: u32) -> &[Start]
    requires { sector < length (fused_sectors c.now.group c.now.legs c.now.arrow) }
    ensures { map (λ s. s.tuple) result.now ≡ tuples_in c.now sector }
{
    c.known();
    let fused = c.fused();
    fused.known();
    let first = fused.place_of(sector, 0);
    let starts = c.starts();
    let low = count_before(starts, first);
    let high = count_before(starts, first + fused.dim_at(sector));
    &starts[low..high]
}

/// The first values of the legs in these sectors.
fn first_values<const K: usize>(
    alloc: Global,
    legs: &[Leg<K>],
    tuple: &[u32],
) -> Result<Vec<u32>, AllocError>
    requires { IsTuple legs.now tuple.now }
    ensures { IfOk result (λ v. v.items ≡ values_at legs.now tuple.now 0) }
{
    known_all(legs);
    let mut values = Vec::with_capacity(alloc, legs.len())?;
    for i in 0..legs.len() {
        let leg = &legs[i];
        values.push(leg.place_of(tuple[i], 0))?;
    }
    Ok(values)
}

/// The sector of the fused leg in which the values of a tuple stand, and how many of its values
/// stand before them.
pub(crate) fn place_in<const K: usize>(
    alloc: Global,
    c: &Combiner<K>,
    tuple: &[u32],
) -> Result<(u32, u32), AllocError>
    requires { IsTuple c.now.legs tuple.now }
    ensures { IfOk result (λ p. IsPlace c.now tuple.now p.0 p.1) }
{
    c.known();
    let values = first_values(alloc, c.legs(), tuple)?;
    Ok(c.fused().at(c.value_of(&values)))
}
