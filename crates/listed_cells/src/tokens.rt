//! The rule `Tokens`: the tokens of a cell are of records that have its key, and none waits twice.
ghost use Rattle.std.specs.Prelude.{◌≡◌, ◌++◌, ◌↔◌, IfOk, IsTrue, option_to_list};
ghost use Rattle.store_laws.specs.Soundness.{HasSoundTokens, HasTokens};
ghost use Rattle.store_laws.specs.View.{look, HasKey, IsOn};
ghost use Rattle.listed_cells.specs.Listing.{IsListing, content_of};
ghost use Rattle.listed_cells.specs.Tokens.{AllNamed, IsOnce};

use crate::cells::record_at;
use doc_value::OutOfMemory;
use std::alloc::Global;
use std::collections::BTreeSet;
use store_trait::{Cell, Name, Named};
use txn_key::{Key, Token, TxnId};
use txn_record::Op;

/// Whether the tokens of a cell are as its name asks.
pub fn has_tokens(alloc: Global, cells: &[Named], named: &Named) -> Result<bool, OutOfMemory>
    requires { IsListing cells.now }
    ensures { IfOk result (λ holds. IsTrue holds ↔
        HasTokens (look (content_of cells.now)) named.now.name named.now.cell) }
{
    match (&named.name, &named.cell) {
        (Name::Doc(key), Cell::Doc(doc)) => {
            are_sound(alloc, cells, key, doc.queue.as_slice(), doc.remove)
        }
        (Name::Stash(key), Cell::Stash(stash)) => {
            are_sound(alloc, cells, key, stash.queue.as_slice(), stash.insert)
        }
        _ => Ok(true),
    }
}

/// Whether the tokens of a queue and of a mark are of records that have the key, and none of the
/// queue stands in it twice.
fn are_sound(
    alloc: Global,
    cells: &[Named],
    key: &Key,
    queue: &[Token],
    mark: Option<Token>,
) -> Result<bool, OutOfMemory>
    requires { IsListing cells.now }
    ensures { IfOk result (λ holds. IsTrue holds ↔
        HasSoundTokens (look (content_of cells.now)) key.now queue.now
        (queue.now ++ option_to_list mark)) }
{
    if !are_named(cells, key, queue) {
        return Ok(false);
    }
    if !is_mark_named(cells, key, mark) {
        return Ok(false);
    }
    stand_once(alloc, queue)
}

/// Whether each token of a queue is of a record that has the key.
fn are_named(cells: &[Named], key: &Key, queue: &[Token]) -> bool
    requires { IsListing cells.now }
    ensures { IsTrue result ↔ AllNamed (look (content_of cells.now)) key.now queue.now }
{
    for token in queue {
        if !has_key(cells, &token.id, key) {
            return false;
        }
    }
    true
}

/// Whether a mark is of a record that has the key, where there is a mark.
fn is_mark_named(cells: &[Named], key: &Key, mark: Option<Token>) -> bool
    requires { IsListing cells.now }
    ensures { IsTrue result ↔
        AllNamed (look (content_of cells.now)) key.now (option_to_list mark) }
{
    match mark {
        Some(token) => has_key(cells, &token.id, key),
        None => true,
    }
}

/// Whether a record is there and has an operation on a key.
fn has_key(cells: &[Named], id: &TxnId, key: &Key) -> bool
    requires { IsListing cells.now }
    ensures { IsTrue result ↔ HasKey (look (content_of cells.now)) id.now key.now }
{
    match record_at(cells, id) {
        Some(rec) => is_on(key, rec.ops.as_slice()),
        None => false,
    }
}

/// Whether some operation is on a key.
fn is_on(key: &Key, ops: &[Op]) -> bool
    ensures { IsTrue result ↔ IsOn key.now ops.now }
{
    for op in ops {
        if op.key.equals(key) {
            return true;
        }
    }
    false
}

/// Whether no token stands twice in a queue.
///
/// A queue may be long, so the tokens seen are kept in order.
fn stand_once(alloc: Global, queue: &[Token]) -> Result<bool, OutOfMemory>
    ensures { IfOk result (λ once. IsTrue once ↔ IsOnce queue.now) }
{
    let mut seen = BTreeSet::new(alloc);
    for token in queue {
        let is_new = seen.insert((token.id.0, token.nonce))?;
        if !is_new {
            return Ok(false);
        }
    }
    Ok(true)
}
