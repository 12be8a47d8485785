//! One worker of a contraction.

ghost use Rattle.std.specs.Prelude.{◌≡◌, ℕ, ◌+◌, ◌<◌, ◌≤◌, ◌++◌, List, length, OnOk, MatchResult};
ghost use Rattle.std.specs.List.{sum_by};
ghost use Rattle.qn_value.specs.Tensors.{BlockValue};
ghost use Rattle.qn_board.specs.Lists.{IsIn};
ghost use Rattle.qn_pair.specs.Jobs.{tuples_of, products_at, share_at, job};
ghost use Rattle.qn_pair.specs.Work.{IsReady, IsWorked, IsDone, IsTouched, IsOne};

use crate::frame::Frame;
use crate::gate::Gate;
use crate::job::Job;
use crate::task_list::Tasks;
use qn_block::{Block, BlockTensor, StepFault};
use qn_board::{Board, Seat};
use qn_gauss::Steps;
use qn_match::Task;
use std::alloc::{AllocError, Global};
use std::sync::ledger::Ledger;

/// Does a task that was drawn, unless a lesser one is known to pass: a task that passes is noted, and the block of any
/// other is kept.
fn do_task<T: Tasks, L: Ledger>(
    tasks: &T,
    board: &Board,
    seat: &mut Seat,
    task: u64,
    done: &mut Vec<(u64, Block)>,
    steps: &mut Steps<L>,
) -> Result<(), AllocError>
    requires here { seat.old.board ≡ board.now }
    requires drawn { IsIn task seat.old.state.drawn }
    requires task { task < length (tuples_of (T.job tasks.now)) }
    ensures board { seat.new.board ≡ board.now }
    ensures one { (gained : List ℕ) × IsTouched (T.job tasks.now) seat.old.state seat.new.state task gained × OnOk result ((more : List (ℕ × BlockValue)) × IsOne (T.job tasks.now) task seat.new.state.seen gained more × (done.new.items ≡ done.old.items ++ more)) }
    ensures ticks { steps.new ≤ steps.old + products_at (T.job tasks.now) task }
{
    let seen = board.look(seat);
    if seen < task {
        return Ok(());
    }
    match tasks.block(task as usize, steps) {
        Ok(block) => match done.push((task, block)) {
            Ok(()) => Ok(()),
            Err(_) => Err(AllocError),
        },
        Err(StepFault::Passed { .. }) => {
            board.note(seat, task);
            Ok(())
        }
        Err(StepFault::Memory) => Err(AllocError),
    }
}

/// Draws tasks until none is left, and does them: what `work` is for tasks at hand.
pub(crate) fn work_on<T: Tasks, G: Gate, L: Ledger>(
    alloc: Global,
    tasks: &T,
    board: &Board,
    mut seat: Seat,
    gate: &G,
    steps: &mut Steps<L>,
) -> (Seat, u64, Result<Vec<(u64, Block)>, AllocError>)
    requires here { seat.board ≡ board.now }
    requires unspent { seat.state.spent < seat.state.weight }
    requires count { board.now.n ≡ length (tuples_of (T.job tasks.now)) }
    ensures board { result.0.board ≡ board.now }
    ensures work { (new : List ℕ) × (gained : List ℕ) × IsWorked (T.job tasks.now) seat.state result.0.state new gained × (result.1 ≤ sum_by (share_at (T.job tasks.now)) new) × MatchResult result.2 (λ v. IsDone (T.job tasks.now) seat.state result.0.state new gained v.items) (λ _. result.0.state.spent ≤ seat.state.spent + 1) }
    ensures ticks { steps.new ≤ steps.old + result.1 }
{
    tasks.known();
    let mut done = Vec::new(alloc);
    let mut cost = 0u64;
    while let Some(task) = board.draw(&mut seat) {
        gate.pass(task);
        cost += tasks.products(task as usize);
        match do_task(tasks, board, &mut seat, task, &mut done, steps) {
            Ok(()) => {}
            Err(e) => return (seat, cost, Err(e)),
        }
    }
    (seat, cost, Ok(done))
}

/// One worker's share of a contraction: it draws tasks from the board until its own draw finds none left, whatever other
/// seats do, and gives back the seat, a number that bounds its steps, and the blocks with the numbers of their tasks.
/// It passes the gate once with each task that it drew, before its work on it. A task above a noted one that it has seen
/// is left out, and a task that passes is noted.
///
/// # Errors
///
/// Want of memory, beside the seat and the number of the tasks that it drew.
pub fn work<const K: usize, G: Gate, L: Ledger>(
    alloc: Global,
    board: &Board,
    seat: Seat,
    a: &BlockTensor<K>,
    b: &BlockTensor<K>,
    shared: &[(usize, usize)],
    between_odd: bool,
    tasks: &[Task],
    gate: &G,
    steps: &mut Steps<L>,
) -> (Seat, u64, Result<Vec<(u64, Block)>, AllocError>)
    requires { IsReady a.now b.now shared.now tasks.now board.now seat }
    ensures board { result.0.board ≡ board.now }
    ensures work { (new : List ℕ) × (gained : List ℕ) × IsWorked (job a.now b.now shared.now between_odd) seat.state result.0.state new gained × (result.1 ≤ sum_by (share_at (job a.now b.now shared.now between_odd)) new) × MatchResult result.2 (λ v. IsDone (job a.now b.now shared.now between_odd) seat.state result.0.state new gained v.items) (λ _. result.0.state.spent ≤ seat.state.spent + 1) }
    ensures ticks { steps.new ≤ steps.old + result.1 }
{
    let job = Job {
        first: a,
        second: b,
        shared,
        between_odd,
        tasks,
    };
    match Frame::new(alloc, &job) {
        Ok(frame) => work_on(alloc, &frame, board, seat, gate, steps),
        Err(e) => (seat, 0, Err(e)),
    }
}
