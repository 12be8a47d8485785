//! The rule of the table on which a board stands, and its five kinds of atomic step: a draw adds 1 to word 0, a note
//! lowers word 1, a look loads word 1, and a split and a join of seats each load word 0.

use crate::seat::SeatState;
use atomic_table::{Join, Play, Split, TableRule};
use std::marker::{Brand, PhantomData};

/// What a seat knows: both sizes of the board, and its own state unless it was joined to another seat. No value of it
/// is made.
pub struct View {
    pub n: u64,
    pub whole: u64,
    pub seat: Option<SeatState>,
}

/// How many tasks a board has, and the weight of all its seats together.
#[derive(Clone, Copy)]
pub struct Size {
    pub n: u64,
    pub whole: u64,
}

/// Between any two steps the words and the views are a sound state of the task machine.
pub struct BoardRule;

impl TableRule<(), View, Size> for BoardRule {
    ghost use Rattle.qn_board.specs.Board.{IsBoard, first_view};

    ghost holds = { λ key s. IsBoard key.n key.whole s.words s.views };

    ghost first = { λ key. first_view key.n key.whole };
}

/// A draw: the number found in word 0 is the task, where it is one.
pub struct DrawStep;

impl Play<(), View> for DrawStep {
    ghost use Rattle.std.specs.Prelude.{◌≡◌};
    ghost use Rattle.qn_board.specs.declared.event.Event.TheVariants.{Draw};
    ghost use Rattle.qn_board.specs.Board.{Tells, found_reply};

    ghost then = { λ step me found new. (new.1 ≡ me.1) × Tells Draw (found_reply me.0.n found) me.0 new.0 };
}

/// A note of the task that the step has as its number.
pub struct NoteStep;

impl Play<(), View> for NoteStep {
    ghost use Rattle.std.specs.Prelude.{◌≡◌, min};
    ghost use Rattle.qn_board.specs.declared.event.Event.TheVariants.{Note};
    ghost use Rattle.qn_board.specs.declared.event.Reply.TheVariants.{Least};
    ghost use Rattle.qn_board.specs.Board.{Tells};

    ghost then = { λ step me found new. (new.1 ≡ me.1) × Tells (λ k. Note k step.first) (Least (min found step.first)) me.0 new.0 };
}

/// A look: the number found in word 1 is the answer.
pub struct LookStep;

impl Play<(), View> for LookStep {
    ghost use Rattle.std.specs.Prelude.{◌≡◌};
    ghost use Rattle.qn_board.specs.declared.event.Event.TheVariants.{Look};
    ghost use Rattle.qn_board.specs.declared.event.Reply.TheVariants.{Least};
    ghost use Rattle.qn_board.specs.Board.{Tells};

    ghost then = { λ step me found new. (new.1 ≡ me.1) × Tells Look (Least found) me.0 new.0 };
}

/// The weight that a split gives. Each call of it picks its own.
pub trait Amount {
    ghost use Rattle.std.specs.Prelude.{ℕ};

    ghost give: { ℕ };
}

impl Amount for Brand {
    ghost give = { 0 };
}

/// A split that gives this weight to a new seat.
pub struct SplitStep<G: Amount> {
    amount: PhantomData<G>,
}

impl<G: Amount> Split<View> for SplitStep<G> {
    ghost use Rattle.qn_board.specs.Machine.{seat_left, seat_given};
    ghost use Rattle.qn_board.specs.Board.{with_state, state_in};

    ghost left = { λ v. with_state v (seat_left (state_in v.seat) G.give) };

    ghost right = { λ v. with_state v (seat_given (state_in v.seat) G.give) };
}

/// A join of two seats.
pub struct JoinStep;

impl Join<View> for JoinStep {
    ghost use Rattle.qn_board.specs.Machine.{seat_joined};
    ghost use Rattle.qn_board.specs.Board.{with_state, state_in, no_view};

    ghost both = { λ v w. with_state v (seat_joined (state_in v.seat) (state_in w.seat)) };

    ghost spent = { no_view };
}
