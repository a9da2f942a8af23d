ghost use Rattle.std.specs.Prelude.{◌≡◌, ◌≤◌, ◌++◌, [], ℕ, Bool, List, length, take, IfOk, OnErr, IsTrue};
ghost use Rattle.txn_io.specs.Faults.{HasCause};

use super::source::Failed;

/// Where bytes are written, one after the other.
pub trait Sink {
    /// Whether the sink tells the bytes that were written.
    ghost tells: { Bool };

    /// The bytes that were written.
    ghost written: { Self → List ℕ };

    /// How often the sink has failed.
    ghost faults: { Self → ℕ };

    /// Appends the first bytes of a piece and answers their number.
    ///
    /// The number is 0 only for an empty piece. A failed call appends nothing. No other
    /// call counts as a fault.
    fn put(&mut self, bytes: &[u8]) -> Result<usize, Failed>
        ensures fits { IfOk result (λ n. n ≤ length bytes.now) }
        ensures some { result ≡ Ok 0 → bytes.now ≡ [] }
        ensures appended { IsTrue tells → IfOk result
            (λ n. written self.new ≡ written self.old ++ take n bytes.now) }
        ensures err { IsTrue tells → OnErr result (written self.new ≡ written self.old) }
        ensures cause { HasCause (faults self.old) (faults self.new) result };
}
