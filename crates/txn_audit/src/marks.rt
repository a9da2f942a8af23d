//! Whether the mark of a cell that owns its key is of an operation that is being applied.

ghost use Rattle.std.specs.Prelude.{◌≡◌, ◌↔◌, IsTrue};
ghost use Rattle.std.specs.Option.{option_copied};
ghost use Rattle.store_laws.specs.Soundness.{IsMarkedSoundly, IsMarkOf};
ghost use Rattle.store_laws.specs.View.{look, doc_at, stash_at};
ghost use Rattle.listed_cells.specs.Listing.{IsListing, content_of};
ghost use Rattle.txn_audit.specs.Marks.{doc_mark, stash_mark, is_marking, IsMarkIfOwner, MarksIn, IsMarkAt, IsAppliedAs, HasMarking, is_marked_by, some_mark};
ghost use Rattle.txn_record.specs.declared.state.State.TheVariants as state;

use listed_cells::{doc_at, number_at, owner_at, record_at, stash_at};
use std::cmp::Ordering;
use store_trait::{DocCell, Name, Named, Side, StashCell};
use txn_key::{Key, Token};
use txn_record::{Change, Op, Record, State};

/// Whether the cell under a name, if it is marked and owns its key, is marked for an operation
/// that is being applied.
pub(crate) fn is_marked_soundly(cells: &[Named], at: &Name) -> bool
    requires { IsListing cells.now }
    ensures { IsTrue result ↔ IsMarkedSoundly (content_of cells.now) at.now }
{
    match at {
        Name::Doc(key) => is_mark_if_owner(
            cells,
            key,
            Side::Document,
            doc_mark(doc_at(cells, key)),
        ),
        Name::Stash(key) => is_mark_if_owner(
            cells,
            key,
            Side::Stash,
            stash_mark(stash_at(cells, key)),
        ),
        _ => true,
    }
}

/// The mark of a document, if it is there and has one.
fn doc_mark(doc: Option<&DocCell>) -> Option<Token>
    ensures { result ≡ doc_mark (option_copied doc.entry) }
{
    match doc {
        Some(doc) => doc.remove,
        None => None,
    }
}

/// The mark of a stash entry, if it is there and has one.
fn stash_mark(stash: Option<&StashCell>) -> Option<Token>
    ensures { result ≡ stash_mark (option_copied stash.entry) }
{
    match stash {
        Some(stash) => stash.insert,
        None => None,
    }
}

/// Whether what may be the mark of a key's cell on a side is sound, where that side owns the key.
fn is_mark_if_owner(cells: &[Named], key: &Key, side: Side, mark: Option<Token>) -> bool
    requires { IsListing cells.now }
    ensures { IsTrue result ↔ IsMarkIfOwner (content_of cells.now) key.now side mark }
{
    match mark {
        Some(mark) if owner_at(cells, key) == side => is_mark_of(cells, key, side, &mark),
        _ => true,
    }
}

/// Whether a mark is the token of an applying record with an operation of its kind.
fn is_mark_of(cells: &[Named], key: &Key, side: Side, mark: &Token) -> bool
    requires { IsListing cells.now }
    ensures { IsTrue result ↔
        IsMarkOf (look (content_of cells.now)) key.now mark.now (is_marking side) }
{
    marks_in(
        record_at(cells, &mark.id),
        mark.nonce,
        key,
        number_at(cells, key),
        side,
    )
}

/// The same of the record that was found under the mark's id.
fn marks_in(rec: Option<&Record>, nonce: u32, key: &Key, number: i64, side: Side) -> bool
    ensures { IsTrue result ↔
        MarksIn (option_copied rec.entry) nonce key.now number (is_marking side) }
{
    match rec {
        Some(rec) => is_mark_at(rec, nonce, key, number, side),
        None => false,
    }
}

/// The same of a record with the mark's nonce.
fn is_mark_at(rec: &Record, nonce: u32, key: &Key, number: i64, side: Side) -> bool
    ensures { IsTrue result ↔ IsMarkAt rec.now nonce key.now number (is_marking side) }
{
    match &rec.revnos {
        Some(numbers) => {
            is_applied_as(rec, nonce)
                && has_marking(rec.ops.as_slice(), numbers.as_slice(), key, number, side)
        }
        None => false,
    }
}

/// Whether a record is being applied under a nonce.
fn is_applied_as(rec: &Record, nonce: u32) -> bool
    ensures { IsTrue result ↔ IsAppliedAs rec.now nonce }
{
    rec.state == State::Applying && rec.nonce == Some(nonce)
}

/// Whether an operation on the key stands at the number that is of a side's kind.
fn has_marking(ops: &[Op], numbers: &[i64], key: &Key, number: i64, side: Side) -> bool
    ensures { IsTrue result ↔ HasMarking ops.now numbers.now key.now number (is_marking side) }
{
    some_mark(ops, numbers, key, number, side)
}

/// The same, as a test of each operation beside its number.
fn some_mark(ops: &[Op], numbers: &[i64], key: &Key, number: i64, side: Side) -> bool
    ensures { result ≡ some_mark ops.now numbers.now key.now number side }
{
    ops.iter()
        .zip(numbers)
        .any(|(op, found)| is_marked_by(op, *found, key, number, side))
}

/// Whether an operation stands at the number, is on the key and is of a side's kind.
fn is_marked_by(op: &Op, found: i64, key: &Key, number: i64, side: Side) -> bool
    ensures { result ≡ is_marked_by op.now found key.now number side }
{
    found == number && op.key.compare(key) == Ordering::Equal && is_marking(side, &op.change)
}

/// Whether cells of a side are marked for a change.
fn is_marking(side: Side, change: &Change) -> bool
    ensures { result ≡ is_marking side change.now }
{
    match (side, change) {
        (Side::Document, Change::Remove) => true,
        (Side::Stash, Change::Insert(_)) => true,
        _ => false,
    }
}
