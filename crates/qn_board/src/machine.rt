//! The task machine: what a board and its seats are, as one thread would keep it.

ghost use Rattle.std.specs.Prelude.{◌≡◌, ℕ, ◌≤◌, ◌^◌, ◌↔◌, IfOk, IfErr, IfSome, OnErr, IsNone, IsTrue, List, cond, take};
ghost use Rattle.qn_board.specs.Seats.{SeatValue, seat_at};
ghost use Rattle.qn_board.specs.Machine.{Machine, IsTransition, IsMet, IsRunFault, Runs, first};
ghost use Rattle.qn_board.specs.Sound.{IsSound, IsFinished, IsDecided};
ghost use Rattle.qn_board.specs.declared.event.Event.TheVariants.{Draw, Note, Look, Split, Join};
ghost use Rattle.qn_board.specs.declared.event.Reply.TheVariants.{Task, Empty};
ghost use Rattle.qn_board.specs.declared.event.MachineFault.TheVariants.{Needs};

use crate::event::{Event, MachineFault, Reply, RunFault};
use crate::seat::{SeatState, add_seat, lesser, put_seat, take_seat};
use std::alloc::{AllocError, Global};
use std::marker::Model;

/// What a board and its seats are after a list of events: the number of tasks, the whole weight, the next number, the
/// least number noted, and the seats by number. A seat that was joined to another one leaves its place empty.
#[derive(Debug, Drop)]
pub struct TaskMachine {
    n: u64,
    whole: u64,
    next: u64,
    least: u64,
    seats: Vec<Option<SeatState>>,
    alloc: Global,
}

impl Model for TaskMachine {
    ghost use Rattle.qn_board.specs.Machine.{Machine};
    ghost use Rattle.qn_board.specs.Sound.{IsSound};

    ghost Value = { Machine };

    ghost view = { λ m. record { n = m.n; whole = m.whole; next = m.next; least = m.least; seats = m.seats.items } };

    ghost invariant = { λ m. IsSound (record { n = m.n; whole = m.whole; next = m.next; least = m.least; seats = m.seats.items }) };
}

impl TaskMachine {
    /// The first state: n tasks, of which none is drawn, and one seat of this weight, which has done nothing.
    ///
    /// # Errors
    ///
    /// Want of memory.
    pub fn new(alloc: Global, n: u64, weight: u64) -> Result<TaskMachine, AllocError>
        requires tasks { n ≤ 2 ^ 32 }
        requires some { 1 ≤ weight }
        requires few { weight ≤ 2 ^ 32 }
        ensures { IfOk result (λ m. m ≡ first n weight) }
    {
        let mut seats = Vec::new(alloc);
        seats.push(Some(SeatState {
            weight,
            spent: 0,
            drawn: Vec::new(alloc),
            noted: Vec::new(alloc),
            seen: u64::MAX,
        }))?;
        Ok(TaskMachine {
            n,
            whole: weight,
            next: 0,
            least: u64::MAX,
            seats,
            alloc,
        })
    }

    /// Every state is sound. It has no code.
    pub fn known(&self)
        ensures { IsSound self.now }
    {
        let _n = &self.n;
    }

    /// The next number: how many draws there were.
    pub fn next(&self) -> u64
        ensures { result ≡ self.now.next }
    {
        self.next
    }

    /// The least number noted, or the greatest u64 where none is.
    pub fn least(&self) -> u64
        ensures { result ≡ self.now.least }
    {
        self.least
    }

    /// The live seat of a number. It takes no memory.
    pub fn seat(&self, seat: usize) -> Option<&SeatState>
        ensures none { IsNone result ↔ (seat_at self.now.seats seat ≡ None) }
        ensures some { IfSome result (λ s. seat_at self.now.seats seat ≡ Some s.now) }
    {
        let seats = &self.seats;
        if seat < seats.len() {
            match &seats[seat] {
                Some(s) => Some(s),
                None => None,
            }
        } else {
            None
        }
    }

    /// Whether the event's needs are met.
    fn can(&self, event: Event) -> bool
        ensures { IsTrue result ↔ IsMet self.now event }
    {
        match event {
            Event::Draw { seat } => self.can_draw(seat),
            Event::Note { seat, task } => self.can_note(seat, task),
            Event::Look { seat } => self.can_look(seat),
            Event::Split { seat, give } => self.can_split(seat, give),
            Event::Join { seat, other } => self.can_join(seat, other),
        }
    }

    fn can_draw(&self, k: usize) -> bool
        ensures { IsTrue result ↔ IsMet self.now (Draw k) }
    {
        match self.seat(k) {
            Some(s) => s.has_unspent(),
            None => false,
        }
    }

    fn can_note(&self, k: usize, task: u64) -> bool
        ensures { IsTrue result ↔ IsMet self.now (Note k task) }
    {
        match self.seat(k) {
            Some(s) => s.has_drawn(task),
            None => false,
        }
    }

    fn can_look(&self, k: usize) -> bool
        ensures { IsTrue result ↔ IsMet self.now (Look k) }
    {
        match self.seat(k) {
            Some(_) => true,
            None => false,
        }
    }

    fn can_split(&self, k: usize, give: u64) -> bool
        ensures { IsTrue result ↔ IsMet self.now (Split k give) }
    {
        match self.seat(k) {
            Some(s) => s.can_give(give),
            None => false,
        }
    }

    fn can_join(&self, k: usize, l: usize) -> bool
        ensures { IsTrue result ↔ IsMet self.now (Join k l) }
    {
        if k == l {
            return false;
        }
        match self.seat(k) {
            Some(_) => match self.seat(l) {
                Some(_) => true,
                None => false,
            },
            None => false,
        }
    }

    fn draw(&mut self, k: usize) -> Result<Reply, AllocError>
        requires { IsMet self.old (Draw k) }
        ensures ok { IfOk result (λ r. IsTransition self.old (Draw k) r self.new) }
        ensures err { IfErr result (λ _. self.new ≡ self.old) }
    {
        self.known();
        let next = self.next;
        let task = next < self.n;
        let mut s = take_seat(&mut self.seats, k);
        let drawn = s.draw(next, task);
        put_seat(&mut self.seats, k, s);
        match drawn {
            Ok(()) => {}
            Err(e) => return Err(e),
        }
        self.next = next + 1;
        Ok(drawn_reply(next, task))
    }

    fn note(&mut self, k: usize, task: u64) -> Result<Reply, AllocError>
        requires { IsMet self.old (Note k task) }
        ensures ok { IfOk result (λ r. IsTransition self.old (Note k task) r self.new) }
        ensures err { IfErr result (λ _. self.new ≡ self.old) }
    {
        let least = lesser(self.least, task);
        let mut s = take_seat(&mut self.seats, k);
        let noted = s.note(task, least);
        put_seat(&mut self.seats, k, s);
        match noted {
            Ok(()) => {}
            Err(e) => return Err(e),
        }
        self.least = least;
        Ok(Reply::Least(least))
    }

    fn look(&mut self, k: usize) -> Reply
        requires { IsMet self.old (Look k) }
        ensures { IsTransition self.old (Look k) result self.new }
    {
        let least = self.least;
        let mut s = take_seat(&mut self.seats, k);
        s.see(least);
        put_seat(&mut self.seats, k, s);
        Reply::Least(least)
    }

    fn split(&mut self, k: usize, give: u64) -> Result<Reply, AllocError>
        requires { IsMet self.old (Split k give) }
        ensures ok { IfOk result (λ r. IsTransition self.old (Split k give) r self.new) }
        ensures err { IfErr result (λ _. self.new ≡ self.old) }
    {
        let count = self.seats.len();
        let mut s = take_seat(&mut self.seats, k);
        let given = s.given(self.alloc, give);
        let pushed = add_seat(&mut self.seats, given);
        match pushed {
            Ok(()) => {}
            Err(e) => {
                put_seat(&mut self.seats, k, s);
                return Err(e);
            }
        }
        s.give(give);
        put_seat(&mut self.seats, k, s);
        Ok(Reply::Seat(count))
    }

    fn join(&mut self, k: usize, l: usize) -> Result<Reply, AllocError>
        requires { IsMet self.old (Join k l) }
        ensures ok { IfOk result (λ r. IsTransition self.old (Join k l) r self.new) }
        ensures err { IfErr result (λ _. self.new ≡ self.old) }
    {
        self.known();
        let mut s = take_seat(&mut self.seats, k);
        let o = take_seat(&mut self.seats, l);
        let joined = s.join(self.alloc, &o);
        put_seat(&mut self.seats, k, s);
        match joined {
            Ok(()) => {}
            Err(e) => {
                put_seat(&mut self.seats, l, o);
                return Err(e);
            }
        }
        Ok(Reply::Joined)
    }

    fn act(&mut self, event: Event) -> Result<Reply, AllocError>
        requires { IsMet self.old event }
        ensures ok { IfOk result (λ r. IsTransition self.old event r self.new) }
        ensures err { IfErr result (λ _. self.new ≡ self.old) }
    {
        match event {
            Event::Draw { seat } => self.draw(seat),
            Event::Note { seat, task } => self.note(seat, task),
            Event::Look { seat } => Ok(self.look(seat)),
            Event::Split { seat, give } => self.split(seat, give),
            Event::Join { seat, other } => self.join(seat, other),
        }
    }

    /// Does the event, where its needs are met. A refused event changes nothing.
    ///
    /// # Errors
    ///
    /// Needs exactly where the needs of the event are not met, and want of memory.
    pub fn step(&mut self, event: Event) -> Result<Reply, MachineFault>
        ensures ok { IfOk result (λ r. IsTransition self.old event r self.new) }
        ensures needs { (result ≡ Err Needs) ↔ ¬ IsMet self.old event }
        ensures err { OnErr result (self.new ≡ self.old) }
    {
        if !self.can(event) {
            return Err(MachineFault::Needs);
        }
        let reply = self.act(event)?;
        Ok(reply)
    }
}

/// The state after all events, from the first state of n tasks and this weight on.
///
/// # Errors
///
/// Needs with the first event whose needs are not met, and want of memory.
#[tactic(auto, using(crate::proofs::Keeps::sound_from_first))]
pub fn run_events(
    alloc: Global,
    n: u64,
    weight: u64,
    events: &[Event],
) -> Result<TaskMachine, RunFault>
    requires tasks { n ≤ 2 ^ 32 }
    requires some { 1 ≤ weight }
    requires few { weight ≤ 2 ^ 32 }
    ensures ran { IfOk result (λ m. Runs (first n weight) events.now m) }
    ensures err { IfErr result (IsRunFault (first n weight) events.now) }

    // Each state on the way is sound.
    ensures sound { (i : ℕ) (m : Machine) → Runs (first n weight) (take i events.now) m → IsSound m }

    // The law of a finished list.
    ensures finished { IfOk result (λ m.
        (k : ℕ) (s : SeatValue) (done passing : List ℕ) → seat_at m.seats k ≡ Some s →
        IsFinished m done passing s → IsDecided m done passing s) }
{
    let mut machine = TaskMachine::new(alloc, n, weight)?;
    for (i, event) in events.iter().enumerate() {
        match machine.step(*event) {
            Ok(_) => {}
            Err(MachineFault::Needs) => return Err(RunFault::Needs { event: i }),
            Err(MachineFault::Memory) => return Err(RunFault::Memory),
        }
    }
    machine.known();
    Ok(machine)
}

fn drawn_reply(next: u64, is_task: bool) -> Reply
    ensures { result ≡ cond is_task (Task next) Empty }
{
    if is_task {
        Reply::Task(next)
    } else {
        Reply::Empty
    }
}
