//! What seats do, what they are answered, and what is refused.

use std::alloc::AllocError;
use thiserror::Error;

/// What a seat does. Seats and tasks are numbered from 0.
#[derive(Clone, Copy, Debug, PartialEq, Eq)]
pub enum Event {
    /// Takes the next task, or spends one unit of weight where none is left. Needs unspent weight.
    Draw { seat: usize },
    /// Notes a task. Needs that the seat drew it.
    Note { seat: usize, task: u64 },
    /// Sees the least task noted.
    Look { seat: usize },
    /// Gives a part of the unspent weight, of at least 1 and less than all, to a new seat.
    Split { seat: usize, give: u64 },
    /// Takes all of another live seat, which is live no more.
    Join { seat: usize, other: usize },
}

/// What an event is answered.
#[derive(Clone, Copy, Debug, PartialEq, Eq)]
pub enum Reply {
    /// To a draw: the task.
    Task(u64),
    /// To a draw: no task is left.
    Empty,
    /// To a note or a look: the least task noted, or the greatest u64 where none is.
    Least(u64),
    /// To a split: the number of the new seat, the least that was never used.
    Seat(usize),
    /// To a join.
    Joined,
}

/// Why an event was refused.
#[derive(Clone, Copy, Debug, PartialEq, Eq, Error)]
pub enum MachineFault {
    /// The seat is not live, or what the event needs is not met.
    #[error("the needs of the event are not met")]
    Needs,
    /// Want of memory.
    #[error("no memory is left")]
    Memory,
}

impl From<AllocError> for MachineFault {
    ghost use Rattle.std.specs.Prelude.{◌≡◌};
    ghost use Rattle.qn_board.specs.declared.event.MachineFault.TheVariants.{Memory};

    ghost from_gives = { λ _ fault. fault ≡ Memory };

    fn from(_error: AllocError) -> MachineFault {
        MachineFault::Memory
    }
}

/// Why a list of events was refused.
#[derive(Clone, Copy, Debug, PartialEq, Eq, Error)]
pub enum RunFault {
    /// The first event, counted from 0, whose needs are not met.
    #[error("the needs of event {event} are not met")]
    Needs { event: usize },
    /// Want of memory.
    #[error("no memory is left")]
    Memory,
}

impl From<AllocError> for RunFault {
    ghost use Rattle.std.specs.Prelude.{◌≡◌};
    ghost use Rattle.qn_board.specs.declared.event.RunFault.TheVariants.{Memory};

    ghost from_gives = { λ _ fault. fault ≡ Memory };

    fn from(_error: AllocError) -> RunFault {
        RunFault::Memory
    }
}
