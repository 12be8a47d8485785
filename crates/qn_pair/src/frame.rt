//! What all blocks of a contraction have in common.

ghost use Rattle.std.specs.Prelude.{◌≡◌, ◌≤◌, ◌<◌, ◌+◌, ◌*◌, ◌^◌, ◌++◌, ◌&&◌, length, slice_index_or, IfOk, IfErr, OnOk};
ghost use Rattle.std.specs.List.{All, sum_by};
ghost use Rattle.qn_charge.specs.Charges.{parity};
ghost use Rattle.qn_index.specs.Legs.{sector_at};
ghost use Rattle.qn_index.specs.Tuples.{IsTuple};
ghost use Rattle.qn_value.specs.Local.{no_leg};
ghost use Rattle.qn_index.specs.Places.{block_size};
ghost use Rattle.qn_block.specs.Refusals.{block_at};
ghost use Rattle.qn_match.specs.Pairs.{task_for, IsPair};
ghost use Rattle.qn_match.specs.Shares.{shared_size};
ghost use Rattle.qn_kernel.specs.Sources.{couples_of, sources, AreSources};
ghost use Rattle.qn_pair.specs.Steps.{result_legs, IsTaskFault};
ghost use Rattle.qn_pair.specs.Jobs.{legs_of, tuples_of, tuple_at, task_block, sources_at, products_at, Passes, ArePriced, AreLists};

use crate::job::Job;
use qn_block::{Block, BlockTensor, StepFault};
use qn_charge::{Abelian, Charge, Group};
use qn_gauss::Steps;
use qn_index::{Leg, block_len, copy_legs, known_all};
use qn_kernel::{Source, block_from, first_above, sources_of};
use qn_match::Task;
use qn_strides::{goal_places, legs_at, open_places};
use std::alloc::{AllocError, Global};
use std::marker::Model;
use std::sync::ledger::Ledger;

/// The lists of legs and places that all blocks of a contraction have in common.
#[derive(Drop)]
pub(crate) struct Lists<const K: usize> {
    /// The legs of both tensors.
    word: Vec<Leg<K>>,
    /// The places in the word in the order that brings the two legs of each shared pair together.
    goal: Vec<usize>,
    /// The places of the legs that are left.
    places: Vec<usize>,
    left: Vec<Leg<K>>,
}

/// A contraction, and what all blocks of its result have in common.
#[derive(Drop)]
pub(crate) struct Frame<'a, const K: usize> {
    alloc: Global,
    job: &'a Job<'a, K>,
    lists: Lists<K>,
}

impl<'a, const K: usize> Model for Frame<'a, K> {
    ghost use Rattle.qn_pair.specs.Jobs.{JobValue, AreLists};

    ghost Value = { JobValue };

    ghost view = { λ f. f.job.now };

    ghost invariant = { λ f. AreLists f.job.now.first f.job.now.second f.job.now.shared f.lists.word.items f.lists.goal.items f.lists.places.items f.lists.left.items };
}

/// The legs of both tensors, first those of the first.
fn word_of<const K: usize>(
    alloc: Global,
    firsts: &[Leg<K>],
    seconds: &[Leg<K>],
) -> Result<Vec<Leg<K>>, AllocError>
    ensures { IfOk result (λ v. v.items ≡ firsts.now ++ seconds.now) }
{
    let mut word = copy_legs(alloc, firsts)?;
    for leg in seconds {
        word.push(leg.copy()?)?;
    }
    Ok(word)
}

/// The places of the shared legs in the word of both tensors.
fn couples_of(
    alloc: Global,
    count: usize,
    shared: &[(usize, usize)],
) -> Result<Vec<(usize, usize)>, AllocError>
    requires few { count ≤ 64 }
    requires small { All (λ p. p.1 < 64) shared.now }
    ensures { IfOk result (λ v. v.items ≡ couples_of count shared.now) }
{
    let mut couples = Vec::with_capacity(alloc, shared.len())?;
    for pair in shared {
        couples.push((pair.0, count + pair.1))?;
    }
    Ok(couples)
}

/// Whether all signs are turned: whether what stands between the two tensors is odd, and so is the second one's flux.
fn is_turned<const K: usize>(group: &Group<K>, flux: &Charge<K>, between_odd: bool) -> bool
    ensures { result ≡ (between_odd && parity group.now flux.now) }
{
    between_odd && group.parity(flux)
}

/// The lists of a contraction.
fn lists_of<const K: usize>(
    alloc: Global,
    a: &BlockTensor<K>,
    b: &BlockTensor<K>,
    shared: &[(usize, usize)],
) -> Result<Lists<K>, AllocError>
    requires { IsPair a.now b.now shared.now }
    ensures { IfOk result (λ f. AreLists a.now b.now shared.now f.word.items f.goal.items f.places.items f.left.items) }
{
    a.known();
    b.known();
    let word = word_of(alloc, a.legs(), b.legs())?;
    let couples = couples_of(alloc, a.legs().len(), shared)?;
    let places = open_places(alloc, &couples, word.len())?;
    let goal = goal_places(alloc, &word, &couples, &places)?;
    let left = legs_at(alloc, &word, &places)?;
    Ok(Lists {
        word,
        goal,
        places,
        left,
    })
}

/// The pairs of blocks that are multiplied for a task.
fn sources_of_task<'a, const K: usize>(
    alloc: Global,
    a: &'a BlockTensor<K>,
    b: &'a BlockTensor<K>,
    shared: &[(usize, usize)],
    between_odd: bool,
    lists: &Lists<K>,
    task: &Task,
) -> Result<Vec<Source<'a>>, AllocError>
    requires pair { IsPair a.now b.now shared.now }
    requires lists { AreLists a.now b.now shared.now lists.now.word.items lists.now.goal.items lists.now.places.items lists.now.left.items }
    requires task { task.now ≡ task_for shared.now a.now.blocks b.now.blocks task.now.out }
    requires tuple { IsTuple (result_legs a.now b.now shared.now) task.now.out }
    requires small { block_size (result_legs a.now b.now shared.now) task.now.out ≤ 2 ^ 22 }
    ensures value { IfOk result (λ v. v.items ≡ sources a.now.group a.now.legs b.now.legs shared.now (between_odd && parity b.now.group b.now.flux) (result_legs a.now b.now shared.now) task.now.out a.now.blocks b.now.blocks task.now.pairs) }
    ensures small { IfOk result (λ v. AreSources (block_size (result_legs a.now b.now shared.now) task.now.out) v.items) }
{
    a.known();
    b.known();
    let sectors = task.out.as_slice();
    let turned = is_turned(b.group(), b.flux(), between_odd);
    sources_of(
        alloc,
        a.group(),
        a.legs(),
        b.legs(),
        shared,
        &lists.word,
        &lists.goal,
        &lists.places,
        &lists.left,
        turned,
        sectors,
        a.blocks(),
        b.blocks(),
        &task.pairs,
    )
}

/// The dimension of a leg's sector in a tuple.
fn dim_in<const K: usize>(legs: &[Leg<K>], tuple: &[u32], place: usize) -> u64
    requires tuple { IsTuple legs.now tuple.now }
    requires place { place < length legs.now }
    ensures { result ≡ (sector_at (slice_index_or legs.now place no_leg).sectors (slice_index_or tuple.now place 0)).dim }
{
    let dim = legs[place].dim_at(tuple[place]);
    u64::from(dim)
}

/// A number times the number of values of the shared legs in a tuple.
fn values_times<const K: usize>(
    legs: &[Leg<K>],
    tuple: &[u32],
    shared: &[(usize, usize)],
    size: u64,
) -> u64
    requires tuple { IsTuple legs.now tuple.now }
    requires places { All (λ p. p.0 < length legs.now) shared.now }
    requires small { size * shared_size shared.now legs.now tuple.now ≤ 2 ^ 44 }
    ensures { result ≡ size * shared_size shared.now legs.now tuple.now }
{
    known_all(legs);
    let mut values = size;
    let mut rest = shared;
    while let [pair, later @ ..] = rest {
        values *= dim_in(legs, tuple, pair.0);
        rest = later;
    }
    values
}

/// How many products of single entries these pairs of blocks take for a block of this size.
fn products_of<const K: usize>(
    legs: &[Leg<K>],
    blocks: &[Block],
    shared: &[(usize, usize)],
    pairs: &[(usize, usize)],
    size: u64,
) -> u64
    requires places { All (λ p. p.0 < length legs.now) shared.now }
    requires blocks { All (λ b. IsTuple legs.now b.tuple) blocks.now }
    requires there { All (λ p. p.0 < length blocks.now) pairs.now }
    requires small { sum_by (λ p. size * shared_size shared.now legs.now (block_at blocks.now p.0).tuple) pairs.now ≤ 2 ^ 44 }
    ensures { result ≡ sum_by (λ p. size * shared_size shared.now legs.now (block_at blocks.now p.0).tuple) pairs.now }
{
    let mut products = 0;
    let mut rest = pairs;
    while let [pair, later @ ..] = rest {
        products += values_times(legs, blocks[pair.0].tuple(), shared, size);
        rest = later;
    }
    products
}

impl<'a, const K: usize> Frame<'a, K> {
    /// The frame of a contraction.
    pub(crate) fn new(alloc: Global, job: &'a Job<'a, K>) -> Result<Frame<'a, K>, AllocError>
        ensures { IfOk result (λ f. f ≡ job.now) }
    {
        job.known();
        let lists = lists_of(alloc, job.first, job.second, job.shared)?;
        Ok(Frame { alloc, job, lists })
    }

    /// Tells that each task takes at most its share of the cost, and all together at most the cost.
    pub(crate) fn priced(&self)
        ensures { ArePriced self.now }
    {
        self.job.priced();
    }

    /// The pairs of blocks that are multiplied for the block of a task.
    fn sources(&self, task: usize) -> Result<Vec<Source<'_>>, AllocError>
        requires { task < length (tuples_of self.now) }
        ensures value { IfOk result (λ v. v.items ≡ sources_at self.now task) }
        ensures small { IfOk result (λ v. AreSources (block_size (legs_of self.now) (tuple_at self.now task)) v.items) }
    {
        let job = self.job;
        job.known();
        sources_of_task(
            self.alloc,
            job.first,
            job.second,
            job.shared,
            job.between_odd,
            &self.lists,
            job.task(task),
        )
    }

    /// The number of entries of the block of a task.
    fn size(&self, task: usize) -> u64
        requires { task < length (tuples_of self.now) }
        ensures value { result ≡ block_size (legs_of self.now) (tuple_at self.now task) }
        ensures small { result ≤ 2 ^ 22 }
    {
        let job = self.job;
        job.known();
        block_len(&self.lists.left, job.task(task).out.as_slice())
    }

    /// How many products of single entries a task takes.
    pub(crate) fn products_of_task(&self, task: usize) -> u64
        requires { task < length (tuples_of self.now) }
        ensures value { result ≡ products_at self.now task }
        ensures small { result ≤ 2 ^ 44 }
    {
        let size = self.size(task);
        let job = self.job;
        job.known();
        job.priced();
        let task = job.task(task);
        products_of(
            job.first.legs(),
            job.first.blocks(),
            job.shared,
            &task.pairs,
            size,
        )
    }

    /// The block of a task, or its first place at which the sum of magnitudes is above 2^127 - 1.
    pub(crate) fn block_of_task<L: Ledger>(
        &self,
        task: usize,
        steps: &mut Steps<L>,
    ) -> Result<Block, StepFault>
        requires { task < length (tuples_of self.now) }
        ensures block { IfOk result (λ b. b ≡ task_block self.now task) }
        ensures clear { OnOk result (¬ Passes self.now task) }
        ensures err { IfErr result (IsTaskFault self.now.first self.now.second self.now.shared (tuple_at self.now task)) }
        ensures steps { steps.new ≤ steps.old + products_at self.now task }
    {
        let job = self.job;
        job.known();
        let sources = self.sources(task)?;
        let size = self.size(task);
        block_from(self.alloc, &sources, &job.task(task).out, size, steps)
    }

    /// The first place that passes in the block of a task that passes. It is found by magnitudes alone, without a step.
    pub(crate) fn first_place(&self, task: usize) -> Result<StepFault, AllocError>
        requires task { task < length (tuples_of self.now) }
        requires passes { Passes self.now task }
        ensures { IfOk result (IsTaskFault self.now.first self.now.second self.now.shared (tuple_at self.now task)) }
    {
        let job = self.job;
        job.known();
        let sources = self.sources(task)?;
        let size = self.size(task);
        let found = first_above(self.alloc, &sources, size)?;
        match found {
            Some(offset) => {
                let at = job.task(task).out.copy()?;
                Ok(StepFault::Passed { at, offset })
            }
            None => unreachable!(),
        }
    }

    /// How many tasks there are.
    pub(crate) fn count(&self) -> usize
        ensures count { result ≡ length (tuples_of self.now) }
        ensures few { result ≤ 2 ^ 20 }
    {
        self.job.count()
    }

    /// The legs of the result.
    pub(crate) fn into_left(self) -> Vec<Leg<K>>
        ensures { result.items ≡ legs_of self.entry }
    {
        let Frame { lists, .. } = self;
        lists.left
    }
}
