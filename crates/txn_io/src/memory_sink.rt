ghost use Rattle.std.specs.Prelude.{◌≡◌, ◌≤◌, ◌<◌, ◌+◌, ◌-◌, ◌↔◌, ◌++◌, ◌==◌, ◌⊎◌, [], ℕ, true, min, length, take, vec_capacity, IfOk, OnErr, IsErr, IsTrue};
ghost use Rattle.std.specs.List.{list_any};
ghost use Rattle.txn_io.specs.Faults.{counted, HasCause};
ghost use Rattle.txn_io.specs.Memory.{SinkView, refuses};

use super::sink::Sink;
use super::source::Failed;
use std::alloc::{AllocError, Global};
use std::marker::Model;

/// Room for bytes in memory, in which the calls with certain numbers fail.
#[derive(Drop)]
pub struct MemorySink {
    bytes: Vec<u8>,
    room: usize,
    fails: Vec<u64>,
    calls: u64,
    faults: u64,
}

impl Model for MemorySink {
    ghost Value = { SinkView };

    ghost view = { λ s. record {
      written = s.bytes.items;
      room = s.room;
      fails = s.fails.items;
      calls = s.calls;
      faults = s.faults;
    } };

    ghost invariant = { λ s. (length s.bytes.items ≤ s.room) × (s.room ≤ vec_capacity s.bytes) };
}

impl MemorySink {
    /// An empty sink with room for so many bytes, whose memory is taken here. `fails` numbers, from
    /// 1, the calls that fail.
    pub fn new(alloc: Global, room: u64, fails: Vec<u64>) -> Result<MemorySink, AllocError>
        ensures { IfOk result (λ sink. sink ≡
            record { written = []; room = room; fails = fails.items; calls = 0; faults = 0 }) }
    {
        let room = room as usize;
        Ok(MemorySink {
            bytes: Vec::with_capacity(alloc, room)?,
            room,
            fails,
            calls: 0,
            faults: 0,
        })
    }

    /// Whether the next call, with this piece, fails.
    fn refuses(&self, bytes: &[u8]) -> bool
        ensures { result ≡ refuses self.now bytes.now }
    {
        let call = self.calls.saturating_add(1);
        self.fails.contains(&call) || (self.room <= self.bytes.len() && !bytes.is_empty())
    }

    /// The bytes that were written.
    pub fn written(&self) -> &[u8]
        ensures { result.now ≡ self.now.written }
    {
        &self.bytes
    }
}

impl Sink for MemorySink {
    ghost tells = { true };

    ghost written = { λ s. s.written };

    ghost faults = { λ s. s.faults };

    fn put(&mut self, bytes: &[u8]) -> Result<usize, Failed>
        ensures fits { IfOk result (λ n. n ≤ length bytes.now) }
        ensures some { result ≡ Ok 0 → bytes.now ≡ [] }
        ensures appended { IsTrue true → IfOk result
            (λ n. self.new.written ≡ self.old.written ++ take n bytes.now) }
        ensures err { IsTrue true → OnErr result (self.new.written ≡ self.old.written) }
        ensures cause { HasCause self.old.faults self.new.faults result }
        ensures most { IfOk result
            (λ n. n ≡ min (length bytes.now) (self.old.room - length self.old.written)) }
        ensures fails { IsErr result ↔ IsTrue (refuses self.old bytes.now) }
        ensures counted { self.new.calls ≡ counted self.old.calls }
        ensures kept { (self.new.fails ≡ self.old.fails) × (self.new.room ≡ self.old.room) }
    {
        if self.refuses(bytes) {
            self.calls = self.calls.saturating_add(1);
            self.faults = self.faults.saturating_add(1);
            return Err(Failed);
        }
        self.calls = self.calls.saturating_add(1);
        let count = bytes.len().min(self.room - self.bytes.len());
        match self.bytes.extend_from_slice(&bytes[..count]) {
            Ok(()) => Ok(count),
            Err(_) => unreachable!(),
        }
    }
}
