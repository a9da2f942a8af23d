//! The rule `Numbers`: each cell has the revision numbers and the nonce that befit it.
ghost use Rattle.std.specs.Prelude.{◌≡◌, ◌&&◌, true, not, is_some, option_map, unwrap_or, length};
ghost use Rattle.std.specs.Ordering.{int_eq};
ghost use Rattle.store_laws.specs.Soundness.{agree, has_revnos, is_numbered, is_numbered_record};
ghost use Rattle.store_trait.specs.Names.{same_state};
ghost use Rattle.txn_key.specs.Keys.{same_key};
ghost use Rattle.txn_record.specs.Revnos.{number_after, first_on, follows, stays_within, is_within};
ghost use Rattle.txn_record.specs.declared.state.State.TheVariants as state;

use std::cmp::Ordering;
use store_trait::Cell;
use txn_key::Key;
use txn_record::{Change, Op, Record, State};

/// The greatest absolute value of a revision number.
const MOST: u64 = 4_611_686_018_427_387_904;

/// Whether a cell's numbers are as its kind and its state ask.
pub(crate) fn is_numbered(cell: &Cell) -> bool
    ensures { result ≡ is_numbered cell.now }
{
    match cell {
        Cell::Record(rec) => is_numbered_record(rec),
        Cell::Doc(doc) => doc.revno >= 0 && is_within(doc.revno),
        Cell::Stash(stash) => stash.revno < 0 && is_within(stash.revno),
        Cell::Nonce(_) => true,
    }
}

/// Whether a record's nonce and numbers are as its state asks.
fn is_numbered_record(rec: &Record) -> bool
    ensures { result ≡ is_numbered_record rec.now }
{
    has_its_nonce(rec) && has_its_numbers(rec) && is_chained(rec)
}

/// Whether a record has a nonce exactly where it isn't preparing.
fn has_its_nonce(rec: &Record) -> bool
    ensures { result ≡ agree (is_some rec.now.nonce)
        (not (same_state rec.now.state state.Preparing)) }
{
    match rec.state {
        State::Preparing => rec.nonce.is_none(),
        _ => rec.nonce.is_some(),
    }
}

/// Whether a record has numbers exactly where it is applying or applied.
fn has_its_numbers(rec: &Record) -> bool
    ensures { result ≡ agree (is_some rec.now.revnos) (has_revnos rec.now.state) }
{
    match rec.state {
        State::Applying | State::Applied => rec.revnos.is_some(),
        _ => rec.revnos.is_none(),
    }
}

/// Whether a record's numbers are a chain, where it has numbers.
fn is_chained(rec: &Record) -> bool
    ensures { result ≡ unwrap_or (option_map
        (λ revnos. follows rec.now.ops revnos && stays_within rec.now.ops revnos)
        rec.now.revnos) true }
{
    match &rec.revnos {
        Some(revnos) => is_chain(rec.ops.as_slice(), revnos.as_slice()),
        None => true,
    }
}

/// Whether each operation finds what the one before it on its key left, within the limit.
fn is_chain(ops: &[Op], revnos: &[i64]) -> bool
    ensures { result ≡ (follows ops.now revnos.now && stays_within ops.now revnos.now) }
{
    if ops.len() != revnos.len() {
        return false;
    }
    stays_within(ops, revnos) && follows(ops, revnos)
}

/// Whether no number of a chain passes the limit.
fn stays_within(ops: &[Op], revnos: &[i64]) -> bool
    requires { length revnos.now ≡ length ops.now }
    ensures { result ≡ stays_within ops.now revnos.now }
{
    for place in 0..ops.len() {
        if !leads_within(&ops[place].change, revnos[place]) {
            return false;
        }
    }
    true
}

/// Whether each operation finds what the one before it on its key left.
fn follows(ops: &[Op], revnos: &[i64]) -> bool
    requires count { length revnos.now ≡ length ops.now }
    requires within { stays_within ops.now revnos.now ≡ true }
    ensures { result ≡ follows ops.now revnos.now }
{
    for place in 0..ops.len() {
        let op = &ops[place];
        let left = number_after(&op.change, revnos[place]);
        if !is_found(&op.key, left, &ops[place + 1..], &revnos[place + 1..]) {
            return false;
        }
    }
    true
}

/// Whether the first of these operations on a key finds a number, where there is one.
fn is_found(key: &Key, number: i64, ops: &[Op], revnos: &[i64]) -> bool
    requires { length revnos.now ≡ length ops.now }
    ensures { result ≡ unwrap_or
        (option_map (int_eq number) (first_on key.now ops.now revnos.now)) true }
{
    match first_on(key, ops, revnos) {
        Some(found) => number == found,
        None => true,
    }
}

/// The number that the first of these operations on a key finds.
fn first_on(key: &Key, ops: &[Op], revnos: &[i64]) -> Option<i64>
    requires { length revnos.now ≡ length ops.now }
    ensures { result ≡ first_on key.now ops.now revnos.now }
{
    for place in 0..ops.len() {
        if is_same(key, &ops[place].key) {
            return Some(revnos[place]);
        }
    }
    None
}

/// Whether two keys are the same in the order of keys.
fn is_same(key: &Key, other: &Key) -> bool
    ensures { result ≡ same_key key.now other.now }
{
    key.compare(other) == Ordering::Equal
}

/// Whether a change leads from a number within the limit to one within it.
fn leads_within(change: &Change, revno: i64) -> bool
    ensures { result ≡ (is_within revno && is_within (number_after change.now revno)) }
{
    is_within(revno) && is_within(number_after(change, revno))
}

/// Whether a number is at most 2^62 in absolute value.
pub(crate) fn is_within(revno: i64) -> bool
    ensures { result ≡ is_within revno }
{
    revno.unsigned_abs() <= MOST
}

/// The number that a change leaves where it finds this one.
pub(crate) fn number_after(change: &Change, revno: i64) -> i64
    requires { is_within revno ≡ true }
    ensures { result ≡ number_after change.now revno }
{
    match change {
        Change::Insert(_) if revno < 0 => 1 - revno,
        Change::Update(_) if revno >= 0 => revno + 1,
        Change::Remove if revno >= 0 => -revno - 1,
        _ => revno,
    }
}
