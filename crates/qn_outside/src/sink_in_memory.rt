//! A sink into memory.

ghost use Rattle.std.specs.Prelude.{◌≡◌, ◌<◌, ◌≤◌, [], length, MatchResult, false, true, IfOk, OnErr, Some};
ghost use Rattle.std.specs.Io.{WritesAtMost};
ghost use Rattle.std.specs.Io.KnownBytes.{WriteAppends};
ghost use Rattle.qn_outside.specs.Faults.{Rose};

use crate::count::count_after;
use crate::in_memory::{copy_front, is_listed};
use crate::{Failed, Sink};
use std::alloc::{AllocError, Global};
use std::marker::Model;

/// A sink into memory, which fails at the listed writes and where no room is left.
#[derive(Debug, Drop)]
pub struct MemSink {
    bytes: Vec<u8>,
    len: usize,
    piece: usize,
    failing: Vec<u64>,
    calls: u64,
    faults: u64,
}

impl Model for MemSink {
    ghost use Rattle.std.specs.Prelude.{◌≤◌, ◌<◌, ◌-◌, take, length};
    ghost use Rattle.qn_outside.specs.InMemory.{SinkState};

    ghost Value = { SinkState };

    ghost view = { λ s. record {
      held = take s.len s.bytes.items;
      room = length s.bytes.items - s.len;
      piece = s.piece;
      failing = s.failing.items;
      calls = s.calls;
      faults = s.faults;
    } };

    ghost invariant = { λ s. (s.len ≤ length s.bytes.items) × (0 < s.piece) };
}

impl MemSink {
    ghost use Rattle.qn_outside.specs.InMemory.{SinkState};

    /// A sink with room for `room` bytes, which is taken here, so that a write takes no memory.
    /// Each write takes at most `piece` bytes, and the writes whose numbers, from 1, are in
    /// `failing` fail.
    pub fn new(
        alloc: Global,
        room: usize,
        piece: usize,
        failing: Vec<u64>,
    ) -> Result<MemSink, AllocError>
        requires { 0 < piece }
        ensures { IfOk result (λ s. s ≡ record {
          held = [];
          room = room;
          piece = piece;
          failing = failing.items;
          calls = 0;
          faults = 0;
        }) }
    {
        let bytes = vec![in alloc; 0u8; room]?;
        Ok(MemSink {
            bytes,
            len: 0,
            piece,
            failing,
            calls: 0,
            faults: 0,
        })
    }

    /// How many writes failed.
    pub fn faults(&self) -> u64
        ensures { result ≡ self.now.faults }
    {
        self.faults
    }

    /// The bytes held.
    pub fn held(&self) -> &[u8]
        ensures { result.now ≡ self.now.held }
    {
        &self.bytes[..self.len]
    }
}

impl Sink for MemSink {
    ghost use Rattle.qn_outside.specs.InMemory.{SinkState, write_fails, taken, after_write};

    ghost held = { λ s. Some s.held };

    ghost faults = { λ s. s.faults };

    fn write(&mut self, piece: &[u8]) -> Result<usize, Failed>
        ensures bound { WritesAtMost result piece.now }
        ensures some { IfOk result (λ n. 0 < length piece.now → 0 < n) }
        ensures bytes { WriteAppends (Some self.old.held) (Some self.new.held) result piece.now }
        ensures count { self.old.faults ≤ self.new.faults }
        ensures cause { OnErr result (Rose self.old.faults self.new.faults) }
        ensures state { self.new ≡ after_write self.old piece.now }
        ensures answer { MatchResult result
            (λ n. (write_fails self.old piece.now ≡ false) × (n ≡ taken self.old piece.now))
            (λ _. write_fails self.old piece.now ≡ true) }
    {
        let full = self.len == self.bytes.len() && !piece.is_empty();
        let fails = is_listed(&self.failing, self.calls) || full;
        self.calls = count_after(self.calls);
        if fails {
            self.faults = count_after(self.faults);
            return Err(Failed);
        }
        let n = copy_front(piece, &mut self.bytes[self.len..], self.piece);
        self.len += n;
        Ok(n)
    }
}
