//! The tasks of a contraction shared among workers.

ghost use Rattle.std.specs.Prelude.{◌≡◌, ℕ, ◌+◌, ◌-◌, ◌/◌, ◌<◌, ◌≤◌, ◌++◌, length, IfOk, IsOkAnd};
ghost use Rattle.std.specs.Thread.{IsSync};
ghost use Rattle.qn_pair.specs.Jobs.{tuples_of};
ghost use Rattle.qn_pair.specs.Workers.{IsFresh, IsShared, IsAll};

use crate::gate::Gate;
use crate::task_list::Tasks;
use crate::worker::work_on;
use qn_block::Block;
use qn_board::{Board, Seat};
use qn_gauss::Steps;
use std::alloc::{AllocError, Global};
use std::marker::Brand;
use std::sync::ledger::{Blank, Ledger};
use std::thread::{Threads, join};

/// What a worker gives back: its seat, a number that bounds its steps, and the blocks with the numbers of their tasks.
pub(crate) type Share = (Seat, u64, Result<Vec<(u64, Block)>, AllocError>);

/// One worker: the work of `work` on tasks at hand, with a counter of its own that starts here.
fn counted<T: Tasks, G: Gate, L: Ledger>(
    alloc: Global,
    tasks: &T,
    board: &Board,
    gate: &G,
    seat: Seat,
    blank: Blank,
) -> Share
    requires name { blank.name ≡ L.name }
    requires parts { blank.parts ≡ L.parts }
    requires some { 0 < L.parts }
    requires count { board.now.n ≡ length (tuples_of (T.job tasks.now)) }
    requires here { seat.board ≡ board.now }
    requires fresh { IsFresh 1 seat.state }
    ensures board { result.0.board ≡ board.now }
    ensures work { IsShared (T.job tasks.now) 1 result.0.state result.1 }
    ensures results { IfOk result.2 (λ v. IsAll (T.job tasks.now) result.0.state v.items) }
{
    let mut steps = Steps::<L>::new(blank);
    work_on(alloc, tasks, board, seat, gate, &mut steps)
}

/// One worker, with a counter of its own.
fn alone<T: Tasks, G: Gate>(alloc: Global, tasks: &T, board: &Board, gate: &G, seat: Seat) -> Share
    requires count { board.now.n ≡ length (tuples_of (T.job tasks.now)) }
    requires here { seat.board ≡ board.now }
    requires fresh { IsFresh 1 seat.state }
    ensures board { result.0.board ≡ board.now }
    ensures work { IsShared (T.job tasks.now) 1 result.0.state result.1 }
    ensures results { IfOk result.2 (λ v. IsAll (T.job tasks.now) result.0.state v.items) }
{
    counted::<_, _, Brand>(alloc, tasks, board, gate, seat, Blank::new(1))
}

/// The results of two parts.
fn both(
    first: Result<Vec<(u64, Block)>, AllocError>,
    second: Result<Vec<(u64, Block)>, AllocError>,
) -> Result<Vec<(u64, Block)>, AllocError>
    ensures { IfOk result (λ v. IsOkAnd first (λ w. IsOkAnd second (λ u. v.items ≡ w.items ++ u.items))) }
{
    let mut all = first?;
    let mut more = second?;
    all.append(&mut more)?;
    Ok(all)
}

/// The seat's weight is shared by halves of halves; each part of weight 1 is one worker, and the halves run side by side.
pub(crate) fn share_out<T: Tasks + Sync, G: Gate, R: Threads + Sync>(
    rt: &R,
    alloc: Global,
    tasks: &T,
    board: &Board,
    gate: &G,
    seat: Seat,
    workers: u64,
) -> Share
    requires count { board.now.n ≡ length (tuples_of (T.job tasks.now)) }
    requires here { seat.board ≡ board.now }
    requires some { 1 ≤ workers }
    requires fresh { IsFresh workers seat.state }
    ensures board { result.0.board ≡ board.now }
    ensures work { IsShared (T.job tasks.now) workers result.0.state result.1 }
    ensures results { IfOk result.2 (λ v. IsAll (T.job tasks.now) result.0.state v.items) }
{
    if workers == 1 {
        return alone(alloc, tasks, board, gate, seat);
    }
    let half = workers / 2;
    let rest = workers - half;
    let (first, second) = board.split(seat, half);
    let ((first, first_cost, first_done), (second, second_cost, second_done)) = join(
        rt,
        || -> Share
            requires { IsSync R.row × IsSync T.row × IsSync G.row × (board.now.n ≡ length (tuples_of (T.job tasks.now))) × (first.board ≡ board.now) × (1 ≤ rest) × IsFresh rest first.state }
            ensures { (result.0.board ≡ board.entry.now) × IsShared (T.job tasks.entry.now) rest result.0.state result.1 × IfOk result.2 (λ v. IsAll (T.job tasks.entry.now) result.0.state v.items) }
        { share_out(rt, alloc, tasks, board, gate, first, rest) },
        || -> Share
            requires { IsSync R.row × IsSync T.row × IsSync G.row × (board.now.n ≡ length (tuples_of (T.job tasks.now))) × (second.board ≡ board.now) × (1 ≤ half) × IsFresh half second.state }
            ensures { (result.0.board ≡ board.entry.now) × IsShared (T.job tasks.entry.now) half result.0.state result.1 × IfOk result.2 (λ v. IsAll (T.job tasks.entry.now) result.0.state v.items) }
        { share_out(rt, alloc, tasks, board, gate, second, half) },
    );
    tasks.known();
    let mut seat = board.join(first, second);
    let _seen = board.look(&mut seat);
    (
        seat,
        first_cost + second_cost,
        both(first_done, second_done),
    )
}
