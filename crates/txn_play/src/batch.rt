//! The transactions that wait for the next `go`.

ghost use Rattle.std.specs.Prelude.{◌≡◌, true, ◌==◌, [], ◌∷◌, ◌++◌, ◌↔◌, length, nat_le, IsTrue, OnOk, OnErr};
ghost use Rattle.txn_play.specs.Batches.{waits, are_built};
ghost use Rattle.txn_runner.specs.Built.{is_built};
ghost use Rattle.txn_play.specs.Progress.{most_waiting};

use doc_value::OutOfMemory;
use std::alloc::Global;
use std::collections::BTreeSet;
use std::marker::Model;
use txn_key::TxnId;
use txn_runner::Waiting;

/// The most transactions that may wait.
const MOST_WAITING: usize = 10_000;

/// Transactions in the order in which they came. An index of their ids spares a look through all of
/// them for each one that comes.
#[derive(Drop)]
pub struct Batch {
    list: Vec<Waiting>,
    ids: BTreeSet<[u8; 12]>,
}

impl Model for Batch {
    ghost use Rattle.std.specs.Prelude.{◌≡◌, List, ℕ};
    ghost use Rattle.std.specs.Coded.{coded_list};
    ghost use Rattle.std.specs.BTreeSet.{keys};
    ghost use Rattle.txn_runner.specs.declared.waiting.Waiting.{Waiting};
    ghost use Rattle.txn_runner.specs.contracts.waiting.Waiting as waiting;
    ghost use Rattle.txn_play.specs.Index.{IsBatch};

    ghost Value = { List Waiting };

    ghost coded = { coded_list waiting.the_row.coded };

    ghost view = { λ b. b.list.items };

    ghost invariant = { λ b. IsBatch (keys b.ids) b.list.items };
}

impl Batch {
    /// Nothing waits.
    pub fn new(alloc: Global) -> Batch
        ensures { result ≡ [] }
    {
        Batch {
            list: Vec::new(alloc),
            ids: BTreeSet::new(alloc),
        }
    }

    pub fn is_empty(&self) -> bool
        ensures { result ≡ (length self.now == 0) }
    {
        self.list.is_empty()
    }

    /// Whether no further transaction may wait.
    pub fn is_full(&self) -> bool
        ensures { result ≡ nat_le most_waiting (length self.now) }
    {
        self.list.len() >= MOST_WAITING
    }

    /// Whether a transaction of that id waits.
    pub fn has(&self, id: TxnId) -> bool
        ensures { result ≡ waits self.now id }
    {
        self.ids.contains(&id.0)
    }

    /// The transactions, in the order in which they came.
    pub fn as_slice(&self) -> &[Waiting]
        ensures list { result.now ≡ self.now }
        ensures built { are_built result.now ≡ true }
    {
        self.list.as_slice()
    }

    /// Adds a transaction at the end.
    pub fn push(&mut self, txn: Waiting) -> Result<(), OutOfMemory>
        requires built { is_built txn.ops ≡ true }
        ensures ok { OnOk result (self.new ≡ self.old ++ txn ∷ []) }
        ensures err { OnErr result (self.new ≡ self.old) }
    {
        self.list.reserve(1)?;
        self.ids.insert(txn.id.0)?;
        match self.list.push(txn) {
            Ok(()) => Ok(()),
            Err(_) => unreachable!(),
        }
    }

    /// Takes all transactions out.
    pub fn clear(&mut self)
        ensures { self.new ≡ [] }
    {
        self.list.clear();
        self.ids.clear();
    }
}
