//! Worked boards, drawn by turns and by threads, and lists of events.

ghost use Rattle.std.specs.Prelude.{◌≡◌, ◌+◌, ◌<◌};

use qn_board::{Board, Event, MachineFault, Reply, RunFault, Seat, TaskMachine, run_events};
use std::test::Fail;
use std::thread::join;

#[test]
fn two_seats_draw_by_turns(rt: HostRuntime) -> Result<(), Fail> {
    let (board, seat) = Board::new(rt.alloc(), 3, 2)?;
    let (mut a, mut b) = board.split(seat, 1);
    let Some(first) = board.draw(&mut a) else {
        panic!(rt; "no first task")
    };
    let Some(second) = board.draw(&mut b) else {
        panic!(rt; "no second task")
    };
    let Some(third) = board.draw(&mut a) else {
        panic!(rt; "no third task")
    };
    assert!(rt; (first, second, third) == (0, 1, 2));
    let None = board.draw(&mut b) else {
        panic!(rt; "a fourth task")
    };
    let None = board.draw(&mut a) else {
        panic!(rt; "a fourth task")
    };
    board.note(&mut a, third);
    assert!(rt; board.look(&mut b) == 2);
    board.note(&mut b, second);
    assert!(rt; board.look(&mut a) == 1);
    let seat = board.join(a, b);
    let outcome = board.finish(seat);
    assert!(rt; outcome.least == Some(1) && outcome.next == 5);
    Ok(())
}

// Draws until no task is left, and says how many tasks there were.
fn drained(board: &Board, mut seat: Seat) -> (Seat, u64)
    requires here { seat.board ≡ board.now }
    requires unspent { seat.state.spent < seat.state.weight }
    ensures board { result.0.board ≡ board.now }
    ensures weight { result.0.state.weight ≡ seat.state.weight }
{
    for tasks in 0..u64::MAX {
        if board.draw(&mut seat).is_none() {
            return (seat, tasks);
        }
    }
    (seat, u64::MAX)
}

// Splits off one seat after the other, and lets each draw until no task is left once all are there.
fn all_drained(board: &Board, seat: Seat, more: u64) -> (Seat, u64)
    requires here { seat.board ≡ board.now }
    requires spent { seat.state.spent ≡ 0 }
    requires weight { seat.state.weight ≡ more + 1 }
    ensures board { result.0.board ≡ board.now }
    ensures weight { result.0.state.weight ≡ seat.state.weight }
{
    if more == 0 {
        return drained(board, seat);
    }
    let (rest, one) = board.split(seat, 1);
    let (rest, tasks) = all_drained(board, rest, more - 1);
    let (one, last) = drained(board, one);
    (board.join(rest, one), tasks.saturating_add(last))
}

#[test]
fn many_seats_on_three_tasks(rt: HostRuntime) -> Result<(), Fail> {
    let (board, seat) = Board::new(rt.alloc(), 3, 64)?;
    let (seat, tasks) = all_drained(&board, seat, 63);
    let outcome = board.finish(seat);
    assert!(rt; tasks == 3 && outcome.least.is_none() && outcome.next == 67);
    Ok(())
}

fn may_be_shared<T: Send + Sync>(_value: &T) {}

fn may_be_sent<T: Send>(_value: &T) {}

#[test]
fn two_threads_on_one_board(rt: HostRuntime) -> Result<(), Fail> {
    let (board, seat) = Board::new(rt.alloc(), 1000, 2)?;
    may_be_shared(&board);
    may_be_sent(&seat);
    let (a, b) = board.split(seat, 1);
    let ((a, some), (b, others)) = join(&rt, || drained(&board, a), || drained(&board, b));
    let seat = board.join(a, b);
    let outcome = board.finish(seat);
    assert!(rt; some.saturating_add(others) == 1000 && outcome.next == 1002);
    Ok(())
}

#[test]
fn the_machine_runs_events(rt: HostRuntime) -> Result<(), Fail> {
    let events = [
        Event::Split { seat: 0, give: 1 },
        Event::Draw { seat: 0 },
        Event::Draw { seat: 1 },
        Event::Note { seat: 1, task: 1 },
        Event::Look { seat: 0 },
        Event::Draw { seat: 0 },
        Event::Draw { seat: 1 },
        Event::Join { seat: 0, other: 1 },
    ];
    let Ok(machine) = run_events(rt.alloc(), 2, 2, &events) else {
        panic!(rt; "the events were refused")
    };
    assert!(rt; machine.next() == 4 && machine.least() == 1);
    let Some(seat) = machine.seat(0) else {
        panic!(rt; "no seat")
    };
    assert!(rt; seat.weight == 2 && seat.spent == 2 && seat.seen == 1);
    assert!(rt;
        seat.drawn.as_slice() == [0, 1].as_slice() && seat.noted.as_slice() == [1].as_slice()
    );
    assert!(rt; machine.seat(1).is_none());
    let early = [Event::Draw { seat: 0 }, Event::Note { seat: 0, task: 1 }];
    let Err(fault) = run_events(rt.alloc(), 2, 2, &early) else {
        panic!(rt; "the events were done")
    };
    assert!(rt; fault == RunFault::Needs { event: 1 });
    let mut machine = TaskMachine::new(rt.alloc(), 1, 1)?;
    for (event, want) in [
        (Event::Draw { seat: 1 }, Err(MachineFault::Needs)),
        (Event::Draw { seat: 0 }, Ok(Reply::Task(0))),
        (Event::Look { seat: 0 }, Ok(Reply::Least(u64::MAX))),
        (Event::Split { seat: 0, give: 1 }, Err(MachineFault::Needs)),
        (Event::Draw { seat: 0 }, Ok(Reply::Empty)),
        (Event::Draw { seat: 0 }, Err(MachineFault::Needs)),
    ] {
        assert!(rt; machine.step(event) == want);
    }
    Ok(())
}
