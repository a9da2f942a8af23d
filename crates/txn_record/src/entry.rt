ghost use Rattle.std.specs.Prelude.{◌≡◌, IfOk};

use crate::ops::Ops;
use doc_value::OutOfMemory;
use sqlite_items::Items;
use std::alloc::Global;
use txn_key::TxnId;

/// Which way a transaction was decided.
#[derive(Clone, Copy, Debug, PartialEq, Eq)]
pub enum Outcome {
    Applied,
    Aborted,
}

/// A place in the recorded order: a transaction that was decided, and how. `revnos` has the revision
/// number that each operation found, and is empty for an aborted one; `at` is the number of store
/// calls made when the decision was made, that call included.
#[derive(Drop)]
pub struct Entry {
    pub id: TxnId,
    pub ops: Ops,
    pub outcome: Outcome,
    pub revnos: Items<i64>,
    pub at: u64,
}

impl Entry {
    /// An equal entry.
    pub fn copy(&self, alloc: Global) -> Result<Entry, OutOfMemory>
        ensures { IfOk result (λ copy. copy ≡ self.now) }
    {
        let ops = self.ops.copy(alloc)?;
        let revnos = Items::from_slice(alloc, self.revnos.as_slice())?;
        Ok(Entry {
            id: self.id,
            ops,
            outcome: self.outcome,
            revnos,
            at: self.at,
        })
    }
}
