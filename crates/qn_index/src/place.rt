//! Places in the block of a tuple of sectors. Entries are row-major, the last leg fastest.
ghost use Rattle.std.specs.Prelude.{◌≡◌, ◌<◌, ◌≤◌, ◌^◌, ◌↔◌, length, IfOk, IsTrue};
ghost use Rattle.qn_index.specs.Tuples.{IsTuple};
ghost use Rattle.qn_index.specs.Places.{block_size, IsInner, offset_of, inner_of, IsValues, sectors_at, offset_at, values_at};

use crate::leg::{Leg, known_all};
use crate::tuple::Tuple;
use std::alloc::{AllocError, Global};

/// The number of entries of the tuple's block: the product of the dimensions of its sectors.
/// The tuple has one sector for each leg. Takes no memory.
pub fn block_len<const K: usize>(legs: &[Leg<K>], tuple: &[u32]) -> u64
    requires tuple { IsTuple legs.now tuple.now }
    requires small { block_size legs.now tuple.now ≤ 2 ^ 22 }
    ensures { result ≡ block_size legs.now tuple.now }
{
    known_all(legs);
    let mut size = 1u64;
    for i in (0..legs.len()).rev() {
        let dim = legs[i].dim_at(tuple[i]);
        size *= u64::from(dim);
    }
    size
}

/// The offset in the tuple's block of one offset inside each of its sectors. Takes no memory.
pub fn offset_of<const K: usize>(legs: &[Leg<K>], tuple: &[u32], inner: &[u32]) -> u64
    requires tuple { IsTuple legs.now tuple.now }
    requires inner { IsInner legs.now tuple.now inner.now }
    requires small { block_size legs.now tuple.now ≤ 2 ^ 22 }
    ensures value { result ≡ offset_of legs.now tuple.now inner.now }
    ensures in_range { result < block_size legs.now tuple.now }
    ensures inverse { inner_of legs.now tuple.now result ≡ inner.now }
{
    known_all(legs);
    let mut size = 1u64;
    let mut offset = 0u64;
    for i in (0..legs.len()).rev() {
        let dim = legs[i].dim_at(tuple[i]);
        offset += u64::from(inner[i]) * size;
        size *= u64::from(dim);
    }
    offset
}

/// The offsets inside the sectors, one for each leg, of an offset in the tuple's block.
pub fn inner_of<const K: usize>(
    alloc: Global,
    legs: &[Leg<K>],
    tuple: &[u32],
    offset: u64,
) -> Result<Tuple, AllocError>
    requires tuple { IsTuple legs.now tuple.now }
    requires small { block_size legs.now tuple.now ≤ 2 ^ 22 }
    requires offset { offset < block_size legs.now tuple.now }
    ensures value { IfOk result (λ t. t ≡ inner_of legs.now tuple.now offset) }
    ensures in_range { IfOk result (λ t. IsInner legs.now tuple.now t) }
    ensures inverse { IfOk result (λ t. offset_of legs.now tuple.now t ≡ offset) }
{
    let mut inner = Vec::new(alloc);
    let mut size = block_len(legs, tuple);
    let mut rest = offset;
    for i in 0..legs.len() {
        let dim = legs[i].dim_at(tuple[i]);
        size /= u64::from(dim);
        inner.push((rest / size) as u32)?;
        rest %= size;
    }
    Ok(Tuple::new(inner))
}
