ghost use Rattle.std.specs.Prelude.{◌≡◌, IfOk};

use doc_query::Query;
use doc_update::Update;
use doc_value::{OutOfMemory, Value};
use std::alloc::Global;
use txn_key::Key;

/// What an operation asks of its document as it is before the transaction.
#[derive(Drop)]
pub enum Assert {
    Nothing,
    /// The document exists: `d+`.
    Exists,
    /// The document is missing: `d-`.
    Missing,
    /// The document exists, and the query holds on its body.
    Query(Query),
}

impl Assert {
    /// An equal assertion.
    pub fn copy(&self, alloc: Global) -> Result<Assert, OutOfMemory>
        ensures { IfOk result (λ copy. copy ≡ self.now) }
    {
        match self {
            Assert::Nothing => Ok(Assert::Nothing),
            Assert::Exists => Ok(Assert::Exists),
            Assert::Missing => Ok(Assert::Missing),
            Assert::Query(query) => Ok(Assert::Query(query.copy(alloc)?)),
        }
    }
}

/// What an operation does to its document.
#[derive(Drop)]
pub enum Change {
    Nothing,
    /// Makes the document with this body, where there is none.
    Insert(Value),
    /// Changes the body of a document that is there.
    Update(Update),
    /// Takes a document away that is there.
    Remove,
}

impl Change {
    /// An equal change.
    pub fn copy(&self, alloc: Global) -> Result<Change, OutOfMemory>
        ensures { IfOk result (λ copy. copy ≡ self.now) }
    {
        match self {
            Change::Nothing => Ok(Change::Nothing),
            Change::Insert(body) => Ok(Change::Insert(body.copy(alloc)?)),
            Change::Update(update) => Ok(Change::Update(update.copy(alloc)?)),
            Change::Remove => Ok(Change::Remove),
        }
    }
}

/// One operation of a transaction, on the document of one key.
#[derive(Drop)]
pub struct Op {
    pub key: Key,
    pub assert: Assert,
    pub change: Change,
}

impl Op {
    /// An equal operation.
    pub fn copy(&self, alloc: Global) -> Result<Op, OutOfMemory>
        ensures { IfOk result (λ copy. copy ≡ self.now) }
    {
        let key = self.key.copy(alloc)?;
        let assert = self.assert.copy(alloc)?;
        let change = self.change.copy(alloc)?;
        Ok(Op {
            key,
            assert,
            change,
        })
    }
}
