ghost use Rattle.std.specs.Prelude.{◌≡◌, [], ◌∷◌, IfOk, MatchOption};
ghost use Rattle.txn_record.specs.Chain.{keys_of};

use doc_value::OutOfMemory;
use sqlite_items::Items;
use std::alloc::Global;
use std::marker::Model;
use txn_key::Key;
use txn_record::Ops;

/// Keys that are still to come, in order.
#[derive(Drop)]
pub(crate) struct KeyQueue {
    /// The last one first, so that the next one is popped.
    stack: Items<Key>,
}

impl Model for KeyQueue {
    ghost use Rattle.std.specs.Prelude.{List, reverse};
    ghost use Rattle.std.specs.Coded.{coded_list};
    ghost use Rattle.txn_key.specs.declared.key.Key.{Key};
    ghost use Rattle.txn_key.specs.contracts.key.Key as key;

    ghost Value = { List Key };

    ghost coded = { coded_list key.the_row.coded };

    ghost view = { λ q. reverse q.stack };
}

impl KeyQueue {
    fn from_items(alloc: Global, keys: Items<Key>) -> Result<KeyQueue, OutOfMemory>
        ensures { IfOk result (λ queue. queue ≡ keys) }
    {
        let mut keys = keys;
        let mut stack = Items::new(alloc);
        while let Some(key) = keys.pop() {
            stack.push(key)?;
        }
        Ok(KeyQueue { stack })
    }

    /// The next key, which leaves the queue.
    pub(crate) fn pop(&mut self) -> Option<Key>
        ensures { MatchOption result ((self.old ≡ []) × (self.new ≡ []))
            (λ key. self.old ≡ key ∷ self.new) }
    {
        self.stack.pop()
    }
}

/// The first of the distinct keys of a transaction, and those after it.
pub(crate) fn first_and_later(alloc: Global, ops: &Ops) -> Result<(Key, KeyQueue), OutOfMemory>
    ensures { IfOk result (λ keys. keys_of ops.now ≡ keys.0 ∷ keys.1) }
{
    // A transaction has an operation, hence a key.
    let has_operation = !ops.as_slice().is_empty();
    prove!(has_operation);
    let keys = ops.keys(alloc)?;
    let mut later = KeyQueue::from_items(alloc, keys)?;
    match later.pop() {
        Some(key) => Ok((key, later)),
        None => unreachable!(),
    }
}
