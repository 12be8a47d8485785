//! Numbers, blocks, tensors and combiners.

ghost use Rattle.std.specs.Prelude.{◌≡◌, IfOk};

use crate::fault::SampleFault;
use crate::legs::{LegRow, flux_of, legs_of};
use qn_block::{Block, BlockTensor, Combiner};
use qn_charge::Group;
use qn_gauss::Gauss;
use qn_index::{Dir, Tuple};
use std::alloc::Global;

/// A block: its tuple, and the real parts of its entries.
pub type BlockRow<'a> = (&'a [u32], &'a [i128]);

/// A tensor.
#[derive(Clone, Copy, Debug)]
pub struct TensorRow<'a> {
    pub legs: &'a [LegRow<'a>],
    pub flux: i64,
    pub blocks: &'a [BlockRow<'a>],
}

/// The number of these parts.
pub fn number(re: i128, im: i128) -> Result<Gauss, SampleFault> {
    match Gauss::new(re, im) {
        Some(number) => Ok(number),
        None => Err(SampleFault::Number),
    }
}

/// The numbers of these real parts.
pub fn entries_of(alloc: Global, parts: &[i128]) -> Result<Vec<Gauss>, SampleFault> {
    let mut entries = Vec::new(alloc);
    for part in parts {
        entries.push(number(*part, 0)?)?;
    }
    Ok(entries)
}

/// The blocks of rows.
pub fn blocks_of(alloc: Global, rows: &[BlockRow]) -> Result<Vec<Block>, SampleFault> {
    let mut blocks = Vec::new(alloc);
    for (tuple, parts) in rows {
        blocks.push(Block {
            tuple: Tuple::new(Vec::from_slice(alloc, tuple)?),
            entries: entries_of(alloc, parts)?,
        })?;
    }
    Ok(blocks)
}

/// The tensor of a row.
pub fn tensor_of<const K: usize>(
    alloc: Global,
    group: &Group<K>,
    row: TensorRow,
) -> Result<BlockTensor<K>, SampleFault>
    ensures { IfOk result (λ t. t.group ≡ group.now) }
{
    let legs = legs_of(alloc, group, row.legs)?;
    let flux = flux_of(group, row.flux)?;
    let blocks = blocks_of(alloc, row.blocks)?;
    match BlockTensor::new(alloc, *group, legs, flux, blocks) {
        Ok(tensor) => Ok(tensor),
        Err(fault) => Err(SampleFault::Block(fault)),
    }
}

/// Whether these are the blocks of rows, in their order.
pub fn are_blocks(blocks: &[Block], rows: &[BlockRow]) -> bool {
    if blocks.len() != rows.len() {
        return false;
    }
    for (block, row) in blocks.iter().zip(rows.iter()) {
        if block.tuple() != row.0 || !are_entries(block.entries(), row.1) {
            return false;
        }
    }
    true
}

fn are_entries(entries: &[Gauss], parts: &[i128]) -> bool {
    if entries.len() != parts.len() {
        return false;
    }
    for (entry, part) in entries.iter().zip(parts.iter()) {
        if entry.re() != *part || entry.im() != 0 {
            return false;
        }
    }
    true
}

/// The combiner of the legs of rows.
pub fn combiner_of<const K: usize>(
    alloc: Global,
    group: &Group<K>,
    rows: &[LegRow],
    dir: Dir,
) -> Result<Combiner<K>, SampleFault>
    ensures { IfOk result (λ c. c.group ≡ group.now) }
{
    let legs = legs_of(alloc, group, rows)?;
    if legs.len() > 63 {
        return Err(SampleFault::TooManyLegs);
    }
    match Combiner::new(alloc, *group, legs, dir) {
        Ok(combiner) => Ok(combiner),
        Err(fault) => Err(SampleFault::Fuse(fault)),
    }
}
