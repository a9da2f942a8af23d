//! Whether two cells are the same. It takes no memory.
ghost use Rattle.std.specs.Prelude.{◌≡◌, ◌↔◌, IsTrue};
ghost use Rattle.txn_record.specs.Same.{agree, same_list, same_option};
ghost use Rattle.store_trait.specs.Names.{same_id};
ghost use Rattle.store_trait.specs.Same.{same_token, same_doc, same_stash, same_cell};
ghost use Rattle.store_trait.specs.declared.cell.Cell.{Cell as CellValue};

use crate::cell::{Cell, DocCell, StashCell};
use txn_key::{Token, TxnId};

impl DocCell {
    /// Whether the two are the same document cell.
    pub fn equals(&self, other: &DocCell) -> bool
        ensures { result ≡ same_doc self.now other.now }
    {
        self.body.equals(&other.body)
            && self.revno == other.revno
            && same_queue(self.queue.as_slice(), other.queue.as_slice())
            && same_mark(&self.remove, &other.remove)
    }
}

impl StashCell {
    /// Whether the two are the same stash entry.
    pub fn equals(&self, other: &StashCell) -> bool
        ensures { result ≡ same_stash self.now other.now }
    {
        self.revno == other.revno
            && same_queue(self.queue.as_slice(), other.queue.as_slice())
            && same_mark(&self.insert, &other.insert)
    }
}

impl Cell {
    /// Whether the two are the same cell.
    pub fn equals(&self, other: &Cell) -> bool
        ensures { result ≡ same_cell self.now other.now }
    {
        match (self, other) {
            (Cell::Record(rec), Cell::Record(other)) => rec.equals(other),
            (Cell::Doc(doc), Cell::Doc(other)) => doc.equals(other),
            (Cell::Stash(stash), Cell::Stash(other)) => stash.equals(other),
            (Cell::Nonce(counter), Cell::Nonce(other)) => *counter == *other,
            _ => false,
        }
    }
}

fn same_queue(queue: &[Token], other: &[Token]) -> bool
    ensures { result ≡ same_list same_token queue.now other.now }
{
    queue.len() == other.len() && queues_agree(queue, other)
}

fn queues_agree(queue: &[Token], other: &[Token]) -> bool
    ensures { result ≡ agree same_token queue.now other.now }
{
    queue.iter().zip(other).all(|(a, b)| same_token(a, b))
}

fn same_mark(mark: &Option<Token>, other: &Option<Token>) -> bool
    ensures { result ≡ same_option same_token mark.now other.now }
{
    match (mark, other) {
        (None, None) => true,
        (Some(token), Some(other)) => same_token(token, other),
        _ => false,
    }
}

pub(crate) fn same_token(a: &Token, b: &Token) -> bool
    ensures { result ≡ same_token a.now b.now }
{
    same_id(&a.id, &b.id) && a.nonce == b.nonce
}

pub(crate) fn same_id(a: &TxnId, b: &TxnId) -> bool
    ensures { result ≡ same_id a.now b.now }
{
    *a == *b
}

/// A law: the test of two cells is equality.
pub fn same_cell_is_equality()
    ensures { (cell other : CellValue) → IsTrue (same_cell cell other) ↔ (cell ≡ other) }
{}
