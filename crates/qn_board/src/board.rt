//! The board that threads share, and the seats that they step on it with.

ghost use Rattle.std.specs.Prelude.{◌≡◌, ℕ, ◌+◌, ◌-◌, ◌≤◌, ◌<◌, ◌^◌, ◌++◌, ◌↔◌, [], ◌∷◌, IfOk, IfSome, IfNone, IsNone, MatchOption, unwrap_or, min};
ghost use Rattle.qn_board.specs.Lists.{IsIn, IsLeast, IsEachBelow, occurrences, once_below, greatest};
ghost use Rattle.qn_board.specs.Machine.{first_seat, seat_left, seat_given, seat_joined};
ghost use Rattle.qn_board.specs.Board.{IsStep, IsFirstDraw, IsLastState, option_reply};
ghost use Rattle.qn_board.specs.declared.event.Event.TheVariants.{Draw, Note, Look};
ghost use Rattle.qn_board.specs.declared.event.Reply.TheVariants.{Least};

use crate::rule::{
    Amount, BoardRule, DrawStep, JoinStep, LookStep, NoteStep, Size, SplitStep, View,
};
use atomic_table::Table;
use std::alloc::{AllocError, Global};
use std::marker::{Brand, Model};

/// A seat of a board: what lets a thread step on it. It has no bytes; contracts see its board, and its state as that of
/// a seat of the task machine.
#[derive(Drop)]
pub struct Seat {
    token: atomic_table::Seat<(), View>,
}

impl Model for Seat {
    ghost use Rattle.std.specs.Prelude.{◌≡◌, []};
    ghost use Rattle.qn_board.specs.Board.{SeatOnBoard, with_state, state_in};

    ghost Value = { SeatOnBoard };

    ghost view = { λ s. record { board = record { id = s.token.table_id; n = s.token.me.0.n; whole = s.token.me.0.whole }; state = state_in s.token.me.0.seat } };

    ghost invariant = { λ s. s.token.me ≡ (with_state s.token.me.0 (state_in s.token.me.0.seat), []) };
}

/// Tasks by number, from 0, of which each is drawn once. Contracts see its identity, the number n of its tasks and the
/// whole weight of its seats. Between any two atomic steps it is a sound state of the task machine.
#[derive(Drop)]
pub struct Board {
    table: Table<(), View, Size, BoardRule, Global>,
    n: u64,
}

impl Model for Board {
    ghost use Rattle.std.specs.Prelude.{◌≡◌};
    ghost use Rattle.qn_board.specs.Board.{BoardValue};

    ghost Value = { BoardValue };

    ghost view = { λ b. record { id = b.table.shared.table_id; n = b.table.shared.key.n; whole = b.table.shared.key.whole } };

    ghost invariant = { λ b. (b.n ≡ b.table.shared.key.n) × (b.table.shared.table_id.words ≡ 2) × (b.table.shared.table_id.slots ≡ 0) };
}

impl Board {
    /// A board of n tasks, and its one seat, which has this weight and has done nothing.
    ///
    /// # Errors
    ///
    /// Want of memory.
    pub fn new(alloc: Global, n: u64, weight: u64) -> Result<(Board, Seat), AllocError>
        requires tasks { n ≤ 2 ^ 32 }
        requires some { 1 ≤ weight }
        requires few { weight ≤ 2 ^ 32 }
        ensures tasks { IfOk result (λ r. r.0.n ≡ n) }
        ensures whole { IfOk result (λ r. r.0.whole ≡ weight) }
        ensures board { IfOk result (λ r. r.1.board ≡ r.0) }
        ensures seat { IfOk result (λ r. r.1.state ≡ first_seat weight) }
    {
        let size = Size { n, whole: weight };
        let (table, token) = Table::of_words(alloc, &[0, u64::MAX], &size)?;
        Ok((Board { table, n }, Seat { token }))
    }

    /// Draws the next task, or none where none is left: a task joins the seat's drawn numbers, and without one a unit
    /// of weight is spent. It takes no memory and never waits.
    pub fn draw(&self, seat: &mut Seat) -> Option<u64>
        requires here { seat.old.board ≡ self.now }
        requires unspent { seat.old.state.spent < seat.old.state.weight }
        ensures board { seat.new.board ≡ self.now }
        ensures task { IfSome result (λ t. seat.new.state ≡ record seat.old.state { drawn = seat.old.state.drawn ++ t ∷ [] }) }
        ensures none { IfNone result (seat.new.state ≡ record seat.old.state { spent = seat.old.state.spent + 1 }) }

        // A task is below n, above each number that the seat had drawn, and was drawn by no seat before.
        ensures below { IfSome result (λ t. t < self.now.n) }
        ensures above { IfSome result (λ t. (x : ℕ) → IsIn x seat.old.state.drawn → x < t) }
        ensures undrawn { IfSome result (IsFirstDraw self.now.n self.now.whole seat.old.state seat.new.state) }

        // So with none, the step found all n numbers drawn.
        ensures event { IsStep self.now.n self.now.whole Draw (option_reply result) seat.old.state seat.new.state }
    {
        let found = self
            .table
            .shared
            .fetch_add::<DrawStep>(&mut seat.token, 0, 1);
        if found >= self.n {
            return None;
        }
        Some(found)
    }

    /// Notes a task that the seat drew. It takes no memory and never waits.
    pub fn note(&self, seat: &mut Seat, task: u64)
        requires here { seat.old.board ≡ self.now }
        requires drawn { IsIn task seat.old.state.drawn }
        ensures board { seat.new.board ≡ self.now }
        ensures noted { seat.new.state ≡
            record seat.old.state { noted = seat.old.state.noted ++ task ∷ []; seen = seat.new.state.seen } }
        ensures seen_task { seat.new.state.seen ≤ task }
        ensures seen_before { seat.new.state.seen ≤ seat.old.state.seen }
        ensures event { IsStep self.now.n self.now.whole (λ k. Note k task) (Least seat.new.state.seen) seat.old.state seat.new.state }
    {
        self.table
            .shared
            .fetch_min::<NoteStep>(&mut seat.token, 1, task);
    }

    /// The least task noted by any seat, or the greatest u64 where none is. It becomes the seat's bound. It takes no
    /// memory and never waits.
    pub fn look(&self, seat: &mut Seat) -> u64
        requires { seat.old.board ≡ self.now }
        ensures board { seat.new.board ≡ self.now }
        ensures seen { seat.new.state ≡ record seat.old.state { seen = result } }
        ensures noted { (x : ℕ) → IsIn x seat.old.state.noted → result ≤ x }
        ensures before { result ≤ seat.old.state.seen }

        // The seat drew each number below n at most once, and no others.
        ensures once { (x : ℕ) → occurrences x seat.old.state.drawn ≤ once_below x self.now.n }
        ensures event { IsStep self.now.n self.now.whole Look (Least result) seat.old.state seat.new.state }
    {
        self.table.shared.load::<LookStep>(&mut seat.token, 1)
    }

    /// Gives a part of the seat's unspent weight to a new seat, the second one. It takes no memory and never waits.
    pub fn split(&self, seat: Seat, give: u64) -> (Seat, Seat)
        requires here { seat.board ≡ self.now }
        requires some { 1 ≤ give }
        requires unspent { give < seat.state.weight - seat.state.spent }
        ensures boards { (result.0.board ≡ self.now) × (result.1.board ≡ self.now) }
        ensures left { result.0.state ≡ seat_left seat.state give }
        ensures given { result.1.state ≡ seat_given seat.state give }
    {
        self.split_by::<Brand>(seat, give)
    }

    // A split at the call's own amount.
    fn split_by<G: Amount>(&self, mut seat: Seat, give: u64) -> (Seat, Seat)
        requires here { seat.board ≡ self.now }
        requires some { 1 ≤ give }
        requires unspent { give < seat.state.weight - seat.state.spent }
        requires amount { give ≡ G.give }
        ensures boards { (result.0.board ≡ self.now) × (result.1.board ≡ self.now) }
        ensures left { result.0.state ≡ seat_left seat.state give }
        ensures given { result.1.state ≡ seat_given seat.state give }
    {
        let other = self
            .table
            .shared
            .split_seat::<SplitStep<G>>(&mut seat.token);
        (seat, Seat { token: other })
    }

    /// Puts two seats together: weights, spent numbers, drawn and noted numbers, with those of the first seat first,
    /// and the lesser bound. It takes no memory and never waits.
    pub fn join(&self, mut a: Seat, b: Seat) -> Seat
        requires a { a.board ≡ self.now }
        requires b { b.board ≡ self.now }
        ensures board { result.board ≡ self.now }
        ensures seat { result.state ≡ seat_joined a.state b.state }
    {
        let Seat { token } = b;
        self.table.shared.join_seat::<JoinStep>(&mut a.token, token);
        a
    }

    /// Ends the board, by its one seat, which has the whole weight. It takes no memory and never waits.
    pub fn finish(self, seat: Seat) -> Outcome
        requires here { seat.board ≡ self }
        requires whole { seat.state.weight ≡ self.whole }
        ensures none { IsNone result.least ↔ (seat.state.noted ≡ []) }
        ensures least { IfSome result.least (IsLeast seat.state.noted) }
        ensures seen { MatchOption result.least (seat.state.seen ≡ greatest) (λ t. t ≤ seat.state.seen) }

        // The seat drew the numbers below min(next, n), and spent the rest; if that is any, it drew every task.
        ensures drawn { IsEachBelow (min result.next self.n) seat.state.drawn }
        ensures spent { seat.state.spent ≡ result.next - min result.next self.n }
        ensures all { 0 < seat.state.spent → IsEachBelow self.n seat.state.drawn }

        // Both are the last values of the board's words.
        ensures last { IsLastState self.n self.whole result.next (unwrap_or result.least greatest) seat.state }
    {
        let (next, least) = self.last_words(seat);
        if least == u64::MAX {
            return Outcome { least: None, next };
        }
        Outcome {
            least: Some(least),
            next,
        }
    }

    // The last values of both words.
    fn last_words(self, seat: Seat) -> (u64, u64)
        requires { seat.board ≡ self }
        ensures { IsLastState self.n self.whole result.0 result.1 seat.state }
    {
        let Board { table, n: _ } = self;
        let Seat { token } = seat;
        let closed = table.close_with(token);
        let next = closed.word(0);
        let least = closed.word(1);
        closed.free();
        (next, least)
    }
}

/// What a board was at its end: the least task noted, and the next number, which is how many draws there were.
#[derive(Clone, Copy, Debug, PartialEq, Eq)]
pub struct Outcome {
    pub least: Option<u64>,
    pub next: u64,
}
