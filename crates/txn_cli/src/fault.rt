//! Why a call ended before the end of its script.

ghost use Rattle.std.specs.Prelude.{◌≡◌, ◌↔◌, IsTrue};
ghost use Rattle.txn_cli.specs.Faults.{status_of};

use doc_value::Text;
use store_trait::Name;
use txn_key::TxnId;
use txn_runner::StepError;

/// Why a call ended before the end of its script.
#[derive(Drop)]
pub enum Fault {
    /// The words aren't in the grammar.
    Words,
    /// A line of the script was refused.
    Line { line: u64, text: Text },
    /// The store isn't sound: the first rule that fails, and the first name at which it does.
    Unsound { rule: u8, name: Name },
    /// The store has more than 200,000 cells.
    TooManyCells,
    Store,
    Input,
    Output,
    OutOfMemory,
    /// Nonces or revision numbers are used up.
    Spent(StepError),
    /// The store answered what no sound store does.
    Broken(StepError),
    /// A record of a submitted transaction's id was there.
    Repeated(TxnId),
}

impl Fault {
    /// The status that a call ends with.
    pub fn status(&self) -> u8
        ensures { result ≡ status_of self.now }
    {
        match self {
            Fault::Words => 2,
            Fault::Line { .. } => 3,
            Fault::Unsound { .. } => 4,
            Fault::TooManyCells => 4,
            Fault::Store => 5,
            Fault::Input => 6,
            Fault::Output => 7,
            Fault::OutOfMemory => 8,
            Fault::Spent(_) => 9,
            Fault::Broken(_) => 11,
            Fault::Repeated(_) => 11,
        }
    }

    /// Whether the output failed.
    pub fn is_output(&self) -> bool
        ensures { IsTrue result ↔ (self.now ≡ Fault.Output) }
    {
        matches!(self, Fault::Output)
    }

    /// Whether it is want of memory.
    pub fn is_memory(&self) -> bool
        ensures { IsTrue result ↔ (self.now ≡ Fault.OutOfMemory) }
    {
        matches!(self, Fault::OutOfMemory)
    }
}
