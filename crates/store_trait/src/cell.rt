ghost use Rattle.std.specs.Prelude.{◌≡◌, IfOk, option_and_then};
ghost use Rattle.store_trait.specs.Cells.{as_record, as_doc, as_stash, as_counter};

use crate::name::Name;
use doc_value::{OutOfMemory, Value};
use sqlite_items::Items;
use std::alloc::Global;
use txn_key::Token;
use txn_record::Record;

/// The tokens that wait on a key, the oldest first.
pub type Tokens = Items<Token>;

/// A document as it lies: its body, its revision number, who waits on it, and who is about to
/// remove it.
#[derive(Drop)]
pub struct DocCell {
    pub body: Value,
    pub revno: i64,
    pub queue: Tokens,
    pub remove: Option<Token>,
}

impl DocCell {
    /// An equal document cell.
    pub fn copy(&self, alloc: Global) -> Result<DocCell, OutOfMemory>
        ensures { IfOk result (λ copy. copy ≡ self.now) }
    {
        let body = self.body.copy(alloc)?;
        let queue = Items::from_slice(alloc, self.queue.as_slice())?;
        Ok(DocCell {
            body,
            revno: self.revno,
            queue,
            remove: self.remove,
        })
    }
}

/// What is kept of a key whose document is missing: its (negative) revision number, who waits on
/// it, and who is about to insert it.
#[derive(Drop)]
pub struct StashCell {
    pub revno: i64,
    pub queue: Tokens,
    pub insert: Option<Token>,
}

impl StashCell {
    /// An equal stash entry.
    pub fn copy(&self, alloc: Global) -> Result<StashCell, OutOfMemory>
        ensures { IfOk result (λ copy. copy ≡ self.now) }
    {
        let queue = Items::from_slice(alloc, self.queue.as_slice())?;
        Ok(StashCell {
            revno: self.revno,
            queue,
            insert: self.insert,
        })
    }
}

/// The store's only atomic unit.
#[derive(Drop)]
pub enum Cell {
    Record(Record),
    Doc(DocCell),
    Stash(StashCell),
    Nonce(u32),
}

impl Cell {
    /// An equal cell.
    pub fn copy(&self, alloc: Global) -> Result<Cell, OutOfMemory>
        ensures { IfOk result (λ copy. copy ≡ self.now) }
    {
        match self {
            Cell::Record(rec) => Ok(Cell::Record(rec.copy(alloc)?)),
            Cell::Doc(doc) => Ok(Cell::Doc(doc.copy(alloc)?)),
            Cell::Stash(stash) => Ok(Cell::Stash(stash.copy(alloc)?)),
            Cell::Nonce(counter) => Ok(Cell::Nonce(*counter)),
        }
    }

    /// The record, where the cell is one.
    pub fn into_record(self) -> Option<Record>
        ensures { result ≡ as_record self }
    {
        match self {
            Cell::Record(rec) => Some(rec),
            _ => None,
        }
    }

    /// The document, where the cell is one.
    pub fn into_doc(self) -> Option<DocCell>
        ensures { result ≡ as_doc self }
    {
        match self {
            Cell::Doc(doc) => Some(doc),
            _ => None,
        }
    }

    /// The stash entry, where the cell is one.
    pub fn into_stash(self) -> Option<StashCell>
        ensures { result ≡ as_stash self }
    {
        match self {
            Cell::Stash(stash) => Some(stash),
            _ => None,
        }
    }

    /// The counter, where the cell is one.
    pub fn into_counter(self) -> Option<u32>
        ensures { result ≡ as_counter self }
    {
        match self {
            Cell::Nonce(counter) => Some(counter),
            _ => None,
        }
    }
}

/// A cell with its name.
#[derive(Drop)]
pub struct Named {
    pub name: Name,
    pub cell: Cell,
}

impl Named {
    /// An equal cell under an equal name.
    pub fn copy(&self, alloc: Global) -> Result<Named, OutOfMemory>
        ensures { IfOk result (λ copy. copy ≡ self.now) }
    {
        let name = self.name.copy(alloc)?;
        let cell = self.cell.copy(alloc)?;
        Ok(Named { name, cell })
    }
}

/// The record in what a name answered.
pub fn record_in(found: Option<Cell>) -> Option<Record>
    ensures { result ≡ option_and_then as_record found }
{
    match found {
        Some(cell) => cell.into_record(),
        None => None,
    }
}

/// The document in what a name answered.
pub fn doc_in(found: Option<Cell>) -> Option<DocCell>
    ensures { result ≡ option_and_then as_doc found }
{
    match found {
        Some(cell) => cell.into_doc(),
        None => None,
    }
}

/// The stash entry in what a name answered.
pub fn stash_in(found: Option<Cell>) -> Option<StashCell>
    ensures { result ≡ option_and_then as_stash found }
{
    match found {
        Some(cell) => cell.into_stash(),
        None => None,
    }
}

/// The counter in what a name answered.
pub fn counter_in(found: Option<Cell>) -> Option<u32>
    ensures { result ≡ option_and_then as_counter found }
{
    match found {
        Some(cell) => cell.into_counter(),
        None => None,
    }
}
