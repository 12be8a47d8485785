//! Tasks that workers draw from one board, each once, and the least task that any of them noted.
//!
//! For contractions by several threads. It hands on `Board` with its seats, and the task machine that says what they
//! do.
#![tactic(auto)]

mod board;
mod event;
mod laws;
mod machine;
mod rule;
mod seat;

pub use board::{Board, Outcome, Seat};
pub use event::{Event, MachineFault, Reply, RunFault};
pub use laws::machine_laws;
pub use machine::{TaskMachine, run_events};
pub use seat::SeatState;
