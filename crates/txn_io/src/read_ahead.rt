ghost use Rattle.std.specs.Prelude.{◌≡◌, ◌<◌, ◌≤◌, ◌+◌, ◌++◌, [], ℕ, List, length, take, drop, slice_range, IfOk, OnErr, IsTrue};
ghost use Rattle.txn_io.specs.Faults.{HasCause};

use super::source::{Failed, Source};
use std::marker::Model;

/// Bytes taken from a source at a time.
const BUFFER: usize = 8192;

/// The bytes that were taken from a source and are not used yet.
#[derive(Drop)]
pub struct ReadAhead {
    buffer: [u8; BUFFER],
    start: usize,
    end: usize,
}

impl Model for ReadAhead {
    ghost Value = { List ℕ };

    ghost view = { λ r. drop r.start (take r.end r.buffer) };

    ghost invariant = { λ r. (r.start ≤ r.end) × (r.end ≤ 8192) };
}

impl ReadAhead {
    pub fn new() -> ReadAhead
        ensures { result ≡ [] }
    {
        ReadAhead {
            buffer: [0; BUFFER],
            start: 0,
            end: 0,
        }
    }

    /// The bytes.
    pub fn bytes(&self) -> &[u8]
        ensures { result.now ≡ self.now }
    {
        &self.buffer[self.start..self.end]
    }

    /// Drops the first bytes.
    pub fn advance(&mut self, count: usize)
        requires { count ≤ length self.old }
        ensures { self.new ≡ drop count self.old }
    {
        self.start += count;
    }

    /// Takes the next bytes from a source, where all bytes before were used. None come only at its
    /// end.
    pub fn fill<S: Source>(&mut self, source: &mut S) -> Result<(), Failed>
        requires { self.old ≡ [] }
        ensures bytes { IsTrue S.tells → self.new ++ S.rest source.new ≡ S.rest source.old }
        ensures end { IsTrue S.tells → IfOk result (λ _. self.new ≡ [] → S.rest source.old ≡ []) }
        ensures err { OnErr result (self.new ≡ []) }
        ensures cause { HasCause (S.faults source.old) (S.faults source.new) result }
    {
        self.start = 0;
        self.end = 0;
        self.end = source.take(&mut self.buffer)?;
        Ok(())
    }
}
