ghost use Rattle.std.specs.Prelude.{◌≡◌, ◌≤◌, ◌+◌, ◌↔◌, ◌++◌, ◌==◌, ◌<◌, [], ℕ, true, min, length, take, drop, IfOk, OnErr, OnOk, IsErr, IsTrue};
ghost use Rattle.std.specs.List.{list_any};
ghost use Rattle.txn_io.specs.Faults.{counted, HasCause};
ghost use Rattle.txn_io.specs.Memory.{SourceView, is_numbered};

use super::source::{Failed, Source};
use std::marker::Model;

/// Bytes in memory, of which the calls with certain numbers fail.
#[derive(Drop)]
pub struct MemorySource {
    bytes: Vec<u8>,
    at: usize,
    fails: Vec<u64>,
    calls: u64,
    faults: u64,
}

impl Model for MemorySource {
    ghost Value = { SourceView };

    ghost view = { λ s. record {
      rest = drop s.at s.bytes.items;
      fails = s.fails.items;
      calls = s.calls;
      faults = s.faults;
    } };

    ghost invariant = { λ s. s.at ≤ length s.bytes.items };
}

impl MemorySource {
    /// A source of these bytes. `fails` numbers, from 1, the calls that fail.
    pub fn new(bytes: Vec<u8>, fails: Vec<u64>) -> MemorySource
        ensures { result ≡
            record { rest = bytes.items; fails = fails.items; calls = 0; faults = 0 } }
    {
        MemorySource {
            bytes,
            at: 0,
            fails,
            calls: 0,
            faults: 0,
        }
    }
}

impl Source for MemorySource {
    ghost tells = { true };

    ghost rest = { λ s. s.rest };

    ghost faults = { λ s. s.faults };

    fn take(&mut self, into: &mut [u8]) -> Result<usize, Failed>
        ensures fits { IfOk result (λ n. n ≤ length into.old) }
        ensures bytes { IsTrue true → IfOk result
            (λ n. take n into.new ++ self.new.rest ≡ self.old.rest) }
        ensures end { IsTrue true → result ≡ Ok 0 → 0 < length into.old → self.old.rest ≡ [] }
        ensures err { IsTrue true → OnErr result (self.new.rest ≡ self.old.rest) }
        ensures cause { HasCause self.old.faults self.new.faults result }
        ensures fails { IsErr result ↔ IsTrue (is_numbered self.old.fails self.old.calls) }
        ensures counted { self.new.calls ≡ counted self.old.calls }
        ensures kept { self.new.fails ≡ self.old.fails }
    {
        self.calls = self.calls.saturating_add(1);
        if self.fails.contains(&self.calls) {
            self.faults = self.faults.saturating_add(1);
            return Err(Failed);
        }
        let count = into.len().min(self.bytes.len() - self.at);
        into[..count].copy_from_slice(&self.bytes[self.at..self.at + count]);
        self.at += count;
        Ok(count)
    }
}
