//! Whether the owners of a record's keys stand on its chains of revision numbers.

ghost use Rattle.std.specs.Prelude.{◌≡◌, ◌↔◌, IsTrue};
ghost use Rattle.std.specs.Ordering.{int_eq};
ghost use Rattle.store_laws.specs.Soundness.{StandsOnChain};
ghost use Rattle.store_laws.specs.View.{look};
ghost use Rattle.txn_audit.specs.Chains.{numbers_of, is_end, stands_by, some_stand_by, all_on_chain};
ghost use Rattle.listed_cells.specs.Listing.{IsListing, content_of};
ghost use Rattle.txn_key.specs.Keys.{same_key};
ghost use Rattle.txn_record.specs.Revnos.{number_after};

use listed_cells::number_at;
use std::cmp::Ordering;
use store_trait::Named;
use txn_key::Key;
use txn_record::{Change, Op, Record};

/// Whether the owner of each of a record's keys stands at a number of its chain on the key.
pub(crate) fn stands_on_chain(cells: &[Named], rec: &Record) -> bool
    requires { IsListing cells.now }
    ensures { IsTrue result ↔ StandsOnChain (look (content_of cells.now)) rec.now }
{
    all_on_chain(cells, rec.ops.as_slice(), numbers_of(rec))
}

/// The revision numbers of a record, none where it has no chain.
fn numbers_of(rec: &Record) -> &[i64]
    ensures { result.now ≡ numbers_of rec.now }
{
    match &rec.revnos {
        Some(numbers) => numbers.as_slice(),
        None => &[],
    }
}

/// The same of operations and their numbers.
fn all_on_chain(cells: &[Named], ops: &[Op], numbers: &[i64]) -> bool
    requires { IsListing cells.now }
    ensures { result ≡ all_on_chain (look (content_of cells.now)) ops.now numbers.now }
{
    ops.iter().all(|op| some_stand_by(&op.key, number_at(cells, &op.key), ops, numbers))
}

/// Whether some operation on the key finds or leaves the number.
fn some_stand_by(key: &Key, number: i64, ops: &[Op], numbers: &[i64]) -> bool
    ensures { result ≡ some_stand_by key.now number ops.now numbers.now }
{
    ops.iter()
        .zip(numbers)
        .any(|(op, found)| stands_by(key, number, op, *found))
}

/// Whether an operation on the key finds or leaves the number.
fn stands_by(key: &Key, number: i64, op: &Op, found: i64) -> bool
    ensures { result ≡ stands_by key.now number op.now found }
{
    same_key(key, &op.key) && is_end(&op.change, found, number)
}

/// Whether two keys are the same.
fn same_key(key: &Key, other: &Key) -> bool
    ensures { result ≡ same_key key.now other.now }
{
    key.compare(other) == Ordering::Equal
}

/// Whether a change finds a number or leaves it.
fn is_end(change: &Change, found: i64, number: i64) -> bool
    ensures { result ≡ is_end change.now found number }
{
    if number == found {
        return true;
    }
    is_left(change, found, number)
}

/// Whether a change leaves a number where it finds another one. Nothing is computed that may
/// pass a number's limits.
fn is_left(change: &Change, found: i64, number: i64) -> bool
    ensures { result ≡ int_eq number (number_after change.now found) }
{
    match change {
        Change::Insert(_) if found < 0 => number > 0 && number + found == 1,
        Change::Update(_) if found >= 0 => number > 0 && number - 1 == found,
        Change::Remove if found >= 0 => number == -found - 1,
        _ => number == found,
    }
}
