//! A source over bytes in memory.

ghost use Rattle.std.specs.Prelude.{◌≡◌, ◌<◌, ◌≤◌, length, MatchResult, false, true, OnErr, Some};
ghost use Rattle.std.specs.Io.{ReadsAtMost};
ghost use Rattle.std.specs.Io.KnownBytes.{ReadConsumes};
ghost use Rattle.qn_outside.specs.Faults.{Rose};

use crate::count::count_after;
use crate::in_memory::{copy_front, is_listed};
use crate::{Failed, Source};
use std::marker::Model;

/// A source over bytes in memory, which fails at the listed reads.
#[derive(Debug, Drop)]
pub struct MemSource {
    bytes: Vec<u8>,
    at: usize,
    piece: usize,
    failing: Vec<u64>,
    calls: u64,
    faults: u64,
}

impl Model for MemSource {
    ghost use Rattle.std.specs.Prelude.{◌≤◌, ◌<◌, drop, length};
    ghost use Rattle.qn_outside.specs.InMemory.{SourceState};

    ghost Value = { SourceState };

    ghost view = { λ s. record {
      left = drop s.at s.bytes.items;
      piece = s.piece;
      failing = s.failing.items;
      calls = s.calls;
      faults = s.faults;
    } };

    ghost invariant = { λ s. (s.at ≤ length s.bytes.items) × (0 < s.piece) };
}

impl MemSource {
    ghost use Rattle.qn_outside.specs.InMemory.{SourceState};

    /// A source of these bytes. Each read gives at most `piece` bytes, and the reads whose
    /// numbers, from 1, are in `failing` fail.
    pub fn new(bytes: Vec<u8>, piece: usize, failing: Vec<u64>) -> MemSource
        requires { 0 < piece }
        ensures { result ≡ record {
          left = bytes.items;
          piece = piece;
          failing = failing.items;
          calls = 0;
          faults = 0;
        } }
    {
        MemSource {
            bytes,
            at: 0,
            piece,
            failing,
            calls: 0,
            faults: 0,
        }
    }

    /// How many reads failed.
    pub fn faults(&self) -> u64
        ensures { result ≡ self.now.faults }
    {
        self.faults
    }
}

impl Source for MemSource {
    ghost use Rattle.qn_outside.specs.InMemory.{SourceState, read_fails, given, after_read};

    ghost left = { λ s. Some s.left };

    ghost faults = { λ s. s.faults };

    fn read(&mut self, buf: &mut [u8]) -> Result<usize, Failed>
        ensures bound { ReadsAtMost result buf.new }
        ensures bytes { ReadConsumes (Some self.old.left) (Some self.new.left) result buf.new }
        ensures count { self.old.faults ≤ self.new.faults }
        ensures cause { OnErr result (Rose self.old.faults self.new.faults) }
        ensures state { self.new ≡ after_read self.old (length buf.old) }
        ensures answer { MatchResult result
            (λ n. (read_fails self.old ≡ false) × (n ≡ given self.old (length buf.old)))
            (λ _. read_fails self.old ≡ true) }
    {
        let fails = is_listed(&self.failing, self.calls);
        self.calls = count_after(self.calls);
        if fails {
            self.faults = count_after(self.faults);
            return Err(Failed);
        }
        let n = copy_front(&self.bytes[self.at..], buf, self.piece);
        self.at += n;
        Ok(n)
    }
}
