//! The tasks of a contraction.
ghost use Rattle.std.specs.Prelude.{◌≡◌, ◌<◌, length, map, All, IfOk};
ghost use Rattle.std.specs.Cmp.Lexicographic.{slice_cmp};
ghost use Rattle.std.specs.List.{AllPairs};
ghost use Rattle.std.specs.Ordering.{nat_cmp};
ghost use Rattle.qn_match.specs.Pairs.{unmarked, joined, left_of_first, left_of_second, empty_task, task_for, tasks, IsPair};

use crate::filling::add_row;
use crate::index::{index_of, key_of, positions_of};
use crate::keys::{first_places, second_places};
use crate::marks::{append_legs, append_sectors, first_marks, second_marks};
use qn_block::{Block, BlockTensor};
use qn_charge::Abelian;
use qn_index::{Leg, Tuple, admissible};
use std::alloc::{AllocError, Global};
use std::cmp::Ordering;
use std::marker::Model;

/// A tuple of the result of a contraction, and the positions of the blocks that are multiplied for it.
#[derive(Debug, Drop)]
pub struct Task {
    pub out: Tuple,
    pub pairs: Vec<(usize, usize)>,
}

impl Model for Task {
    ghost use Rattle.qn_match.specs.Pairs.{TaskValue};

    ghost Value = { TaskValue };

    ghost view = { λ t. record { out = t.out; pairs = t.pairs.items } };
}

/// The legs of the result: what is left of the first tensor's, then of the second's.
pub fn result_legs<const K: usize>(
    alloc: Global,
    firsts: &[Leg<K>],
    seconds: &[Leg<K>],
    shared: &[(usize, usize)],
) -> Result<Vec<Leg<K>>, AllocError>
    ensures { IfOk result (λ v. v.items ≡ joined shared.now firsts.now seconds.now) }
{
    let first_marks = first_marks(alloc, shared, firsts.len())?;
    let second_marks = second_marks(alloc, shared, seconds.len())?;
    let mut legs = Vec::new(alloc);
    append_legs(firsts, &first_marks, &mut legs)?;
    append_legs(seconds, &second_marks, &mut legs)?;
    Ok(legs)
}

/// What is left of each block's tuple beside the marked legs.
fn left_of_blocks(alloc: Global, blocks: &[Block], marks: &[bool]) -> Result<Vec<Tuple>, AllocError>
    requires counts { All (λ b. length b.tuple ≡ length marks.now) blocks.now }
    ensures { IfOk result (λ v. v.items ≡ map (λ b. unmarked marks.now b.tuple) blocks.now) }
{
    let mut lefts = Vec::with_capacity(alloc, blocks.len())?;
    for block in blocks {
        let mut left = Vec::new(alloc);
        append_sectors(block.tuple.as_slice(), marks, &mut left)?;
        lefts.push(Tuple::new(left))?;
    }
    Ok(lefts)
}

/// What is left of each block's tuple in the first tensor.
fn left_of_firsts(
    alloc: Global,
    shared: &[(usize, usize)],
    count: usize,
    blocks: &[Block],
) -> Result<Vec<Tuple>, AllocError>
    requires counts { All (λ b. length b.tuple ≡ count) blocks.now }
    ensures { IfOk result (λ v. v.items ≡ map (left_of_first shared.now) blocks.now) }
{
    let marks = first_marks(alloc, shared, count)?;
    left_of_blocks(alloc, blocks, &marks)
}

/// What is left of each block's tuple in the second tensor.
fn left_of_seconds(
    alloc: Global,
    shared: &[(usize, usize)],
    count: usize,
    blocks: &[Block],
) -> Result<Vec<Tuple>, AllocError>
    requires counts { All (λ b. length b.tuple ≡ count) blocks.now }
    ensures { IfOk result (λ v. v.items ≡ map (left_of_second shared.now) blocks.now) }
{
    let marks = second_marks(alloc, shared, count)?;
    left_of_blocks(alloc, blocks, &marks)
}

/// A task without a pair for each of these tuples.
fn empty_tasks(alloc: Global, tuples: &[Tuple]) -> Result<Vec<Task>, AllocError>
    ensures { IfOk result (λ ts. ts.items ≡ map empty_task tuples.now) }
{
    let mut tasks = Vec::with_capacity(alloc, tuples.len())?;
    for out in tuples {
        tasks.push(Task {
            out: out.copy()?,
            pairs: Vec::new(alloc),
        })?;
    }
    Ok(tasks)
}

/// The tasks of these tuples of the result.
fn tasks_of(
    alloc: Global,
    shared: &[(usize, usize)],
    firsts: &[Block],
    first_lefts: &[Tuple],
    seconds: &[Block],
    second_lefts: &[Tuple],
    tuples: &[Tuple],
) -> Result<Vec<Task>, AllocError>
    requires firsts { All (λ b. All (λ p. p.0 < length b.tuple) shared.now) firsts.now }
    requires seconds { All (λ b. All (λ p. p.1 < length b.tuple) shared.now) seconds.now }
    requires first_lefts { first_lefts.now ≡ map (left_of_first shared.now) firsts.now }
    requires second_lefts { second_lefts.now ≡ map (left_of_second shared.now) seconds.now }
    requires ascending { AllPairs (λ s t. slice_cmp nat_cmp s t ≡ Ordering.Less) tuples.now }
    ensures { IfOk result (λ ts. ts.items ≡ map (task_for shared.now firsts.now seconds.now) tuples.now) }
{
    let places = first_places(alloc, shared)?;
    let index = index_of(alloc, &second_places(alloc, shared)?, seconds)?;
    let mut tasks = empty_tasks(alloc, tuples)?;
    for i in 0..firsts.len() {
        let block = &firsts[i];
        let key = key_of(alloc, &places, block.tuple.as_slice())?;
        let found = positions_of(&index, &key);
        add_row(
            alloc,
            i,
            first_lefts[i].as_slice(),
            second_lefts,
            found,
            &mut tasks,
        )?;
    }
    Ok(tasks)
}

/// The tasks of a contraction over pairs of legs: one for each admissible tuple of the result, ascending.
/// Its pairs are the positions of stored blocks that agree on the shared legs and give this tuple, ascending.
/// The legs of the result are those of `a` that are left, then those of `b`.
pub fn pairs<const K: usize>(
    alloc: Global,
    a: &BlockTensor<K>,
    b: &BlockTensor<K>,
    shared: &[(usize, usize)],
) -> Result<Vec<Task>, AllocError>
    requires pair { IsPair a.now b.now shared.now }
    ensures { IfOk result (λ ts. ts.items ≡ tasks a.now b.now shared.now) }
{
    a.known();
    b.known();
    let legs = result_legs(alloc, a.legs(), b.legs(), shared)?;
    let flux = a.group().add(a.flux(), b.flux());
    let tuples = admissible(alloc, a.group(), &legs, &flux)?;
    let firsts = left_of_firsts(alloc, shared, a.legs().len(), a.blocks())?;
    let seconds = left_of_seconds(alloc, shared, b.legs().len(), b.blocks())?;
    tasks_of(
        alloc,
        shared,
        a.blocks(),
        &firsts,
        b.blocks(),
        &seconds,
        &tuples,
    )
}
