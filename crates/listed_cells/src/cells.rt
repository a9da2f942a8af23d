//! Look-ups among the cells of a store, which are listed in the order of names. Each is made by halving.

ghost use Rattle.std.specs.Prelude.{◌≡◌, unwrap_or};
ghost use Rattle.std.specs.Option.{option_copied};
ghost use Rattle.store_laws.specs.Held.{body_in};
ghost use Rattle.store_laws.specs.View.{look, record_at, doc_at, stash_at, counter, held_number, owner_held, owner_queue};
ghost use Rattle.store_trait.specs.Cells.{as_record, as_doc, as_stash, as_counter};
ghost use Rattle.store_trait.specs.Names.{name_cmp};
ghost use Rattle.store_trait.specs.Owners.{owner_of};
ghost use Rattle.store_trait.specs.declared.name.Name.TheVariants as name;
ghost use Rattle.listed_cells.specs.Listing.{IsListing, StandsAt, content_of};

use doc_value::Value;
use std::cmp::Ordering;
use store_trait::{Cell, DocCell, Name, Named, Side, StashCell, owner};
use txn_key::{Key, Token, TxnId};
use txn_record::Record;

/// The record under an id.
pub fn record_at<'a>(cells: &'a [Named], id: &TxnId) -> Option<&'a Record>
    requires { IsListing cells.now }
    ensures { option_copied result ≡ record_at (content_of cells.now) id.now }
{
    match cells.binary_search_by(|named| compare_record(&named.name, id)) {
        Ok(place) => as_record(&cells[place].cell),
        Err(_) => None,
    }
}

/// The document under a key.
pub fn doc_at<'a>(cells: &'a [Named], key: &Key) -> Option<&'a DocCell>
    requires { IsListing cells.now }
    ensures { option_copied result ≡ doc_at (content_of cells.now) key.now }
{
    match cells.binary_search_by(|named| compare_doc(&named.name, key)) {
        Ok(place) => as_doc(&cells[place].cell),
        Err(_) => None,
    }
}

/// The stash entry under a key.
pub fn stash_at<'a>(cells: &'a [Named], key: &Key) -> Option<&'a StashCell>
    requires { IsListing cells.now }
    ensures { option_copied result ≡ stash_at (content_of cells.now) key.now }
{
    match cells.binary_search_by(|named| compare_stash(&named.name, key)) {
        Ok(place) => as_stash(&cells[place].cell),
        Err(_) => None,
    }
}

/// Where the document of a key stands among the cells.
pub(crate) fn doc_place(cells: &[Named], key: &Key) -> Option<usize>
    requires { IsListing cells.now }
    ensures { StandsAt cells.now (name.Doc key.now) result }
{
    cells
        .binary_search_by(|named| compare_doc(&named.name, key))
        .ok()
}

/// Where the stash entry of a key stands among the cells.
pub(crate) fn stash_place(cells: &[Named], key: &Key) -> Option<usize>
    requires { IsListing cells.now }
    ensures { StandsAt cells.now (name.Stash key.now) result }
{
    cells
        .binary_search_by(|named| compare_stash(&named.name, key))
        .ok()
}

/// The nonce that is drawn next.
pub fn counter(cells: &[Named]) -> u32
    requires { IsListing cells.now }
    ensures { result ≡ counter (content_of cells.now) }
{
    match cells.binary_search_by(|named| compare_nonce(&named.name)) {
        Ok(place) => as_counter(&cells[place].cell),
        Err(_) => 0,
    }
}

/// Which of a key's two cells owns it.
pub fn owner_at(cells: &[Named], key: &Key) -> Side
    requires { IsListing cells.now }
    ensures { result ≡ owner_of (doc_at (content_of cells.now) key.now)
        (stash_at (content_of cells.now) key.now) }
{
    owner(doc_at(cells, key), stash_at(cells, key))
}

/// The tokens that wait on a key, in the queue of its owner.
pub(crate) fn queue_at<'a>(cells: &'a [Named], key: &Key) -> &'a [Token]
    requires { IsListing cells.now }
    ensures { result.now ≡ (look (content_of cells.now)).queue_at key.now }
{
    owner_queue(doc_at(cells, key), stash_at(cells, key))
}

/// The revision number of a key's owner, -1 where the key has no cell.
pub fn number_at(cells: &[Named], key: &Key) -> i64
    requires { IsListing cells.now }
    ensures { result ≡ held_number ((look (content_of cells.now)).held_at key.now) }
{
    owner_number(doc_at(cells, key), stash_at(cells, key))
}

/// The body of the document that owns a key, if one does.
pub fn body_at<'a>(cells: &'a [Named], key: &Key) -> Option<&'a Value>
    requires { IsListing cells.now }
    ensures { option_copied result ≡ body_in ((look (content_of cells.now)).held_at key.now) }
{
    owner_body(doc_at(cells, key), stash_at(cells, key))
}

fn owner_queue<'a>(doc: Option<&'a DocCell>, stash: Option<&'a StashCell>) -> &'a [Token]
    ensures { result.now ≡ owner_queue (option_copied doc.entry) (option_copied stash.entry) }
{
    match (owner(doc, stash), doc, stash) {
        (Side::Document, Some(doc), _) => doc.queue.as_slice(),
        (Side::Stash, _, Some(stash)) => stash.queue.as_slice(),
        _ => &[],
    }
}

fn owner_number(doc: Option<&DocCell>, stash: Option<&StashCell>) -> i64
    ensures { result ≡
        held_number (owner_held (option_copied doc.entry) (option_copied stash.entry)) }
{
    match (owner(doc, stash), doc, stash) {
        (Side::Document, Some(doc), _) => doc.revno,
        (Side::Stash, _, Some(stash)) => stash.revno,
        _ => -1,
    }
}

fn owner_body<'a>(doc: Option<&'a DocCell>, stash: Option<&'a StashCell>) -> Option<&'a Value>
    ensures { option_copied result ≡
        body_in (owner_held (option_copied doc.entry) (option_copied stash.entry)) }
{
    match (owner(doc, stash), doc) {
        (Side::Document, Some(doc)) => Some(&doc.body),
        _ => None,
    }
}

fn as_record(cell: &Cell) -> Option<&Record>
    ensures { option_copied result ≡ as_record cell.now }
{
    match cell {
        Cell::Record(rec) => Some(rec),
        _ => None,
    }
}

fn as_doc(cell: &Cell) -> Option<&DocCell>
    ensures { option_copied result ≡ as_doc cell.now }
{
    match cell {
        Cell::Doc(doc) => Some(doc),
        _ => None,
    }
}

fn as_stash(cell: &Cell) -> Option<&StashCell>
    ensures { option_copied result ≡ as_stash cell.now }
{
    match cell {
        Cell::Stash(stash) => Some(stash),
        _ => None,
    }
}

/// The counter, where the cell is one, and else 0.
fn as_counter(cell: &Cell) -> u32
    ensures { result ≡ unwrap_or (as_counter cell.now) 0 }
{
    match cell {
        Cell::Nonce(counter) => *counter,
        _ => 0,
    }
}

/// How a name stands to that of a record.
fn compare_record(found: &Name, id: &TxnId) -> Ordering
    ensures { result ≡ name_cmp found.now (name.Record id.now) }
{
    match found {
        Name::Record(other) => other.compare(id),
        _ => Ordering::Greater,
    }
}

/// How a name stands to that of a document.
fn compare_doc(found: &Name, key: &Key) -> Ordering
    ensures { result ≡ name_cmp found.now (name.Doc key.now) }
{
    match found {
        Name::Record(_) => Ordering::Less,
        Name::Doc(other) => other.compare(key),
        _ => Ordering::Greater,
    }
}

/// How a name stands to that of a stash entry.
fn compare_stash(found: &Name, key: &Key) -> Ordering
    ensures { result ≡ name_cmp found.now (name.Stash key.now) }
{
    match found {
        Name::Stash(other) => other.compare(key),
        Name::Nonce => Ordering::Greater,
        _ => Ordering::Less,
    }
}

/// How a name stands to that of the counter.
fn compare_nonce(found: &Name) -> Ordering
    ensures { result ≡ name_cmp found.now name.Nonce }
{
    match found {
        Name::Nonce => Ordering::Equal,
        _ => Ordering::Less,
    }
}
