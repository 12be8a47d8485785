//! The result of a contraction from the blocks that its workers bring back.

ghost use Rattle.std.specs.Prelude.{◌≡◌, ◌<◌, ◌++◌, None, Some, cond, length, map, option_to_list, replicate, set, IfOk, OnOk};
ghost use Rattle.qn_sign.specs.Positions.{positions};
ghost use Rattle.qn_pair.specs.Jobs.{tuples_of};
ghost use Rattle.qn_pair.specs.Workers.{IsComplete, is_empty, kept_blocks, slot_of};

use crate::job::Job;
use qn_block::Block;
use std::alloc::{AllocError, Global};

/// A row of empty slots.
fn empty_row(alloc: Global, count: usize) -> Result<Vec<Option<Block>>, AllocError>
    ensures { IfOk result (λ v. v.items ≡ replicate count None) }
{
    let mut row = Vec::with_capacity(alloc, count)?;
    for _ in 0..count {
        row.push(None)?;
    }
    Ok(row)
}

/// A block of a task with these pairs. Without a pair all its entries are 0, and it is not kept.
fn kept(block: Block, pairs: &[(usize, usize)]) -> Option<Block>
    ensures { result ≡ cond (is_empty pairs.now) None (Some block) }
{
    if pairs.is_empty() { None } else { Some(block) }
}

/// Puts a block, if there is one, into a slot.
fn put(row: &mut Vec<Option<Block>>, number: usize, block: Option<Block>)
    requires { number < length row.old.items }
    ensures { row.new.items ≡ set row.old.items number block }
{
    row[number] = block;
}

/// The blocks of tasks that have pairs of blocks, each in the slot of its task's number.
fn row_of<const K: usize>(
    alloc: Global,
    job: &Job<'_, K>,
    mut done: Vec<(u64, Block)>,
) -> Result<Vec<Option<Block>>, AllocError>
    requires { IsComplete job.now done.items }
    ensures { IfOk result (λ v. v.items ≡ map (slot_of job.now) (positions (length (tuples_of job.now)))) }
{
    let mut row = empty_row(alloc, job.count())?;
    while let Some(one) = done.pop() {
        let (number, block) = one;
        let task = job.task(number as usize);
        put(&mut row, number as usize, kept(block, &task.pairs));
    }
    Ok(row)
}

/// Appends a block, if there is one.
fn append_slot(slot: Option<Block>, out: &mut Vec<Block>) -> Result<(), AllocError>
    ensures { OnOk result (out.new.items ≡ out.old.items ++ option_to_list slot) }
{
    match slot {
        Some(block) => {
            out.push(block)?;
            Ok(())
        }
        None => Ok(()),
    }
}

/// The blocks that workers bring back, in the order of their tasks' numbers. Those whose entries are 0 for want of a pair of
/// blocks are not kept.
pub(crate) fn blocks_in_order<const K: usize>(
    alloc: Global,
    job: &Job<'_, K>,
    done: Vec<(u64, Block)>,
) -> Result<Vec<Block>, AllocError>
    requires { IsComplete job.now done.items }
    ensures { IfOk result (λ v. v.items ≡ kept_blocks job.now) }
{
    let row = row_of(alloc, job, done)?;
    let mut blocks = Vec::new(alloc);
    for slot in row {
        append_slot(slot, &mut blocks)?;
    }
    Ok(blocks)
}
