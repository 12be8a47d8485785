//! A seat of the task machine, and the row of its seats.

ghost use Rattle.std.specs.Prelude.{◌≡◌, ◌≤◌, ◌<◌, ◌^◌, ◌↔◌, ◌+◌, ◌-◌, ◌++◌, [], ◌∷◌, IfOk, IfErr, OnOk, IsTrue, cond, length, min, set};
ghost use Rattle.qn_board.specs.Lists.{IsIn};
ghost use Rattle.qn_board.specs.Seats.{SeatValue, seat_at};
ghost use Rattle.qn_board.specs.Machine.{seat_given, seat_left, seat_joined};

use std::alloc::{AllocError, Global};
use std::marker::Model;

/// A seat: its weight, how much of it is spent, the numbers that it drew and noted in the order of its events, and the
/// bound that it saw last: the least task noted at that time, or the greatest u64.
#[derive(Debug, Drop)]
pub struct SeatState {
    pub weight: u64,
    pub spent: u64,
    pub drawn: Vec<u64>,
    pub noted: Vec<u64>,
    pub seen: u64,
}

impl Model for SeatState {
    ghost use Rattle.qn_board.specs.Seats.{SeatValue};

    ghost Value = { SeatValue };

    ghost view = { λ s. record { weight = s.weight; spent = s.spent; drawn = s.drawn.items; noted = s.noted.items; seen = s.seen } };
}

impl SeatState {
    pub(crate) fn has_unspent(&self) -> bool
        ensures { IsTrue result ↔ (self.now.spent < self.now.weight) }
    {
        self.spent < self.weight
    }

    pub(crate) fn has_drawn(&self, task: u64) -> bool
        ensures { IsTrue result ↔ IsIn task self.now.drawn }
    {
        contains(&self.drawn, task)
    }

    pub(crate) fn can_give(&self, give: u64) -> bool
        ensures { IsTrue result ↔ ((1 ≤ give) × (give < self.now.weight - self.now.spent)) }
    {
        is_less_than_rest(give, self.weight, self.spent)
    }

    // A draw that found this number: a task, or none.
    pub(crate) fn draw(&mut self, next: u64, is_task: bool) -> Result<(), AllocError>
        requires { self.old.spent < 2 ^ 64 - 1 }
        ensures ok { OnOk result (
            self.new ≡
            cond is_task (record self.old { drawn = self.old.drawn ++ next ∷ [] }) (
            record self.old { spent = self.old.spent + 1 })) }
        ensures err { IfErr result (λ _. self.new ≡ self.old) }
    {
        if is_task {
            self.drawn.push(next)?;
        } else {
            self.spent += 1;
        }
        Ok(())
    }

    pub(crate) fn note(&mut self, task: u64, seen: u64) -> Result<(), AllocError>
        ensures ok { OnOk result (self.new ≡ record self.old { noted = self.old.noted ++ task ∷ []; seen = seen }) }
        ensures err { IfErr result (λ _. self.new ≡ self.old) }
    {
        self.noted.push(task)?;
        self.seen = seen;
        Ok(())
    }

    pub(crate) fn see(&mut self, seen: u64)
        ensures { self.new ≡ record self.old { seen = seen } }
    {
        self.seen = seen;
    }

    pub(crate) fn give(&mut self, give: u64)
        requires { give ≤ self.old.weight }
        ensures { self.new ≡ seat_left self.old give }
    {
        self.weight -= give;
    }

    // The new seat of a split.
    pub(crate) fn given(&self, alloc: Global, give: u64) -> SeatState
        ensures { result ≡ seat_given self.now give }
    {
        SeatState {
            weight: give,
            spent: 0,
            drawn: Vec::new(alloc),
            noted: Vec::new(alloc),
            seen: self.seen,
        }
    }

    pub(crate) fn join(&mut self, alloc: Global, other: &SeatState) -> Result<(), AllocError>
        requires weight { self.old.weight + other.now.weight < 2 ^ 64 }
        requires spent { self.old.spent + other.now.spent < 2 ^ 64 }
        ensures ok { OnOk result (self.new ≡ seat_joined self.old other.now) }
        ensures err { IfErr result (λ _. self.new ≡ self.old) }
    {
        let drawn = concatenated(alloc, &self.drawn, &other.drawn)?;
        let noted = concatenated(alloc, &self.noted, &other.noted)?;
        self.weight += other.weight;
        self.spent += other.spent;
        self.drawn = drawn;
        self.noted = noted;
        self.seen = lesser(self.seen, other.seen);
        Ok(())
    }
}

pub(crate) fn lesser(a: u64, b: u64) -> u64
    ensures { result ≡ min a b }
{
    if a < b { a } else { b }
}

fn concatenated(alloc: Global, a: &[u64], b: &[u64]) -> Result<Vec<u64>, AllocError>
    ensures { IfOk result (λ v. v.items ≡ a.now ++ b.now) }
{
    let mut v = Vec::new(alloc);
    v.extend_from_slice(a)?;
    v.extend_from_slice(b)?;
    Ok(v)
}

fn contains(xs: &[u64], x: u64) -> bool
    ensures { IsTrue result ↔ IsIn x xs.now }
{
    for y in xs {
        if *y == x {
            return true;
        }
    }
    false
}

fn is_less_than_rest(give: u64, weight: u64, spent: u64) -> bool
    ensures { IsTrue result ↔ ((1 ≤ give) × (give < weight - spent)) }
{
    1 <= give && spent <= weight && give < weight - spent
}

// Takes a live seat out of the row, and leaves its place empty.
pub(crate) fn take_seat(seats: &mut Vec<Option<SeatState>>, k: usize) -> SeatState
    requires { (s : SeatValue) × (seat_at seats.old.items k ≡ Some s) }
    ensures was { seat_at seats.old.items k ≡ Some result }
    ensures gone { seats.new.items ≡ set seats.old.items k None }
{
    match seats[k].take() {
        Some(s) => s,
        None => unreachable!(),
    }
}

// Puts a seat into a place of the row.
pub(crate) fn put_seat(seats: &mut Vec<Option<SeatState>>, k: usize, s: SeatState)
    requires { k < length seats.old.items }
    ensures { seats.new.items ≡ set seats.old.items k (Some s) }
{
    seats[k] = Some(s);
}

// Adds a seat at the end of the row.
pub(crate) fn add_seat(seats: &mut Vec<Option<SeatState>>, s: SeatState) -> Result<(), AllocError>
    ensures ok { OnOk result (seats.new.items ≡ seats.old.items ++ Some s ∷ []) }
    ensures err { IfErr result (λ _. seats.new.items ≡ seats.old.items) }
{
    seats.push(Some(s))?;
    Ok(())
}
