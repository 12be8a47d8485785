//! A contraction of two tensors.

ghost use Rattle.std.specs.Prelude.{◌≡◌, ◌≤◌, ◌+◌, None, IfOk, IfErr, OnOk};
ghost use Rattle.qn_value.specs.Local.{Pairwise};
ghost use Rattle.qn_block.specs.Blocked.{tensor_of};
ghost use Rattle.qn_block.specs.Steps.{IsStepFault};
ghost use Rattle.qn_match.specs.Pairs.{IsPair};
ghost use Rattle.qn_match.specs.Cost.{cost_of};
ghost use Rattle.qn_pair.specs.Steps.{passing_place};
ghost use Rattle.qn_pair.specs.Jobs.{cost_of_job, passing_of_job};
ghost use Rattle.qn_pair.specs.Workers.{IsComplete, IsOutcome};

use crate::frame::Frame;
use crate::gate::Gate;
use crate::job::Job;
use crate::result::blocks_in_order;
use crate::sharing::share_out;
use qn_block::{Block, BlockTensor, StepFault};
use qn_board::Board;
use qn_charge::Abelian;
use qn_gauss::Steps;
use qn_match::pairs;
use std::alloc::{AllocError, Global};
use std::sync::ledger::Ledger;
use std::thread::Threads;

/// Counts so many steps.
fn tick_all<L: Ledger>(count: u64, steps: &mut Steps<L>)
    ensures { steps.new ≡ steps.old + count }
{
    for _ in 0..count {
        steps.tick();
    }
}

/// The work of so many workers, this thread among them: the least task that passes, or none and the blocks of all tasks with
/// their numbers.
fn worked<const K: usize, R: Threads + Sync, G: Gate, L: Ledger>(
    rt: &R,
    alloc: Global,
    frame: &Frame<'_, K>,
    workers: u32,
    gate: &G,
    steps: &mut Steps<L>,
) -> Result<(Option<u64>, Vec<(u64, Block)>), AllocError>
    requires some { 1 ≤ workers }
    requires few { workers ≤ 64 }
    ensures outcome { IfOk result (λ r. IsOutcome frame.now r.0 r.1.items) }
    ensures steps { steps.new ≤ steps.old + cost_of_job frame.now }
{
    frame.priced();
    let weight = u64::from(workers);
    let (board, seat) = Board::new(alloc, frame.count() as u64, weight)?;
    let (seat, cost, done) = share_out(rt, alloc, frame, &board, gate, seat, weight);
    let outcome = board.finish(seat);
    tick_all(cost, steps);
    match done {
        Ok(done) => Ok((outcome.least, done)),
        Err(e) => Err(e),
    }
}

/// The blocks of all tasks with their numbers, or the first place that passes.
fn all_blocks<const K: usize, R: Threads + Sync, G: Gate, L: Ledger>(
    rt: &R,
    alloc: Global,
    frame: &Frame<'_, K>,
    workers: u32,
    gate: &G,
    steps: &mut Steps<L>,
) -> Result<Vec<(u64, Block)>, StepFault>
    requires some { 1 ≤ workers }
    requires few { workers ≤ 64 }
    ensures done { IfOk result (λ v. IsComplete frame.now v.items) }
    ensures clear { OnOk result (passing_of_job frame.now ≡ None) }
    ensures err { IfErr result (IsStepFault (passing_of_job frame.now)) }
    ensures steps { steps.new ≤ steps.old + cost_of_job frame.now }
{
    let (least, done) = worked(rt, alloc, frame, workers, gate, steps)?;
    match least {
        Some(task) => match frame.first_place(task as usize) {
            Ok(fault) => Err(fault),
            Err(_) => Err(StepFault::Memory),
        },
        None => Ok(done),
    }
}

/// Two tensors contracted over pairs of legs, given by their places in `a` and in `b`: the result has the legs of `a`
/// that are left and then those of `b`, and the sum of the two fluxes. Entries are summed with the exchange sign of
/// bringing the two legs of each pair together, the word being the legs of `a` and then those of `b`; where
/// `between_odd` and the flux of `b` are odd the result is negated.
///
/// So many workers, this thread among them, draw the blocks of the result one by one and pass the gate with each; the
/// answer is the same for every number of workers. Blocks that no pair of blocks adds to are left out.
///
/// Passed where a sum of products of magnitudes is above 2^127 - 1, at the first such place, whatever the sum itself is.
/// Each multiplication is one of `steps`.
pub fn contract<const K: usize, R: Threads + Sync, G: Gate, L: Ledger>(
    rt: &R,
    alloc: Global,
    a: &BlockTensor<K>,
    b: &BlockTensor<K>,
    shared: &[(usize, usize)],
    between_odd: bool,
    workers: u32,
    gate: &G,
    steps: &mut Steps<L>,
) -> Result<BlockTensor<K>, StepFault>
    requires pair { IsPair a.now b.now shared.now }
    requires some { 1 ≤ workers }
    requires few { workers ≤ 64 }
    ensures value { IfOk result (λ r. Pairwise (tensor_of a.now) (tensor_of b.now) shared.now between_odd (tensor_of r)) }
    ensures clear { OnOk result (passing_place a.now b.now shared.now ≡ None) }
    ensures err { IfErr result (IsStepFault (passing_place a.now b.now shared.now)) }
    ensures steps { steps.new ≤ steps.old + cost_of a.now.group a.now.legs a.now.flux b.now.legs b.now.flux shared.now }
{
    a.known();
    b.known();
    let tasks = pairs(alloc, a, b, shared)?;
    let job = Job {
        first: a,
        second: b,
        shared,
        between_odd,
        tasks: &tasks,
    };
    let frame = Frame::new(alloc, &job)?;
    let done = all_blocks(rt, alloc, &frame, workers, gate, steps)?;
    let blocks = blocks_in_order(alloc, &job, done)?;
    let left = frame.into_left();
    let flux = a.group().add(a.flux(), b.flux());
    Ok(BlockTensor::of_blocks(*a.group(), left, flux, blocks))
}
