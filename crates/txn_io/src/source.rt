ghost use Rattle.std.specs.Prelude.{◌≡◌, ◌<◌, ◌≤◌, ◌++◌, [], ℕ, Bool, List, length, take, IfOk, OnErr, IsTrue};
ghost use Rattle.txn_io.specs.Faults.{HasCause};

/// A call on the outside failed: the one error of a source and of a sink.
#[derive(Clone, Copy, Debug, PartialEq, Eq)]
pub struct Failed;

/// Bytes that are taken in order, from the first to the last.
pub trait Source {
    /// Whether the source tells the bytes that it has left.
    ghost tells: { Bool };

    /// The bytes that are left.
    ghost rest: { Self → List ℕ };

    /// How often the source has failed.
    ghost faults: { Self → ℕ };

    /// Puts the next bytes at the front of `into` and answers their number.
    ///
    /// The number is 0 for a non-empty `into` only at the end. A failed call takes nothing.
    /// No other call counts as a fault.
    fn take(&mut self, into: &mut [u8]) -> Result<usize, Failed>
        ensures fits { IfOk result (λ n. n ≤ length into.old) }
        ensures bytes { IsTrue tells → IfOk result
            (λ n. take n into.new ++ rest self.new ≡ rest self.old) }
        ensures end { IsTrue tells → result ≡ Ok 0 → 0 < length into.old → rest self.old ≡ [] }
        ensures err { IsTrue tells → OnErr result (rest self.new ≡ rest self.old) }
        ensures cause { HasCause (faults self.old) (faults self.new) result };
}
