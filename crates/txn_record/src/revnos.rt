//! The chain of revision numbers that operations find and leave.
ghost use Rattle.std.specs.Prelude.{◌≡◌, ◌<◌, ◌≤◌, true, length, unsigned_abs, IfOk};
ghost use Rattle.std.specs.List.{All, list_all, list_any};
ghost use Rattle.std.specs.FinMap.{values};
ghost use Rattle.txn_key.specs.Places.{keys_rise};
ghost use Rattle.txn_key.specs.Keys.{same_key};
ghost use Rattle.txn_record.specs.Chain.{keys_of, numbers_of, numbers_at, numbers_after, found_by, has_room};
ghost use Rattle.txn_record.specs.Revnos.{number_after};

use crate::keys::keys_of;
use crate::op::{Change, Op};
use crate::ops::Ops;
use doc_value::OutOfMemory;
use sqlite_items::Items;
use std::alloc::Global;
use txn_key::{Key, place_of};

/// The greatest absolute value of a number that a chain may begin at: its operations, at most 1,000, then
/// lead to no number past 2^62.
const MAX_FIRST: u64 = 4_611_686_018_427_386_903;

/// Whether a chain may begin at this number.
pub fn has_room(number: i64) -> bool
    ensures { result ≡ has_room number }
{
    number.unsigned_abs() <= MAX_FIRST
}

/// The revision numbers of a transaction's operations.
#[derive(Drop)]
pub struct Chained {
    /// What each operation finds, in the order of the operations.
    pub found: Items<i64>,
    /// Where each distinct key ends, in key order.
    pub last: Items<i64>,
}

impl Chained {
    /// An equal chain.
    pub fn copy(&self, alloc: Global) -> Result<Chained, OutOfMemory>
        ensures { IfOk result (λ copy. copy ≡ self.now) }
    {
        let found = Items::from_slice(alloc, self.found.as_slice())?;
        let last = Items::from_slice(alloc, self.last.as_slice())?;
        Ok(Chained { found, last })
    }
}

/// Follows the revision numbers along the operations, from the number that each distinct key begins at, in
/// key order. It compares keys O(n log n) times for n operations.
pub fn chain(alloc: Global, ops: &Ops, first: &[i64]) -> Result<Chained, OutOfMemory>
    requires count { length first.now ≡ length (keys_of ops.now) }
    requires room { list_all has_room first.now ≡ true }
    ensures found { IfOk result (λ chained. chained.found ≡
        found_by ops.now (numbers_of ops.now first.now)) }
    ensures last { IfOk result (λ chained. chained.last ≡
        values (numbers_after ops.now (numbers_of ops.now first.now))) }
{
    let keys = keys_of(alloc, ops.as_slice())?;
    follow(alloc, ops.as_slice(), keys.as_slice(), first)
}

/// The same, where the keys are given.
fn follow(alloc: Global, ops: &[Op], keys: &[Key], first: &[i64]) -> Result<Chained, OutOfMemory>
    requires few { length ops.now ≤ 1000 }
    requires rise { keys_rise keys.now ≡ true }
    requires there { All (λ op. list_any (same_key op.key) keys.now ≡ true) ops.now }
    requires count { length first.now ≡ length keys.now }
    requires room { list_all has_room first.now ≡ true }
    ensures found { IfOk result (λ chained. chained.found ≡
        found_by ops.now (numbers_at keys.now first.now)) }
    ensures last { IfOk result (λ chained. chained.last ≡
        values (numbers_after ops.now (numbers_at keys.now first.now))) }
{
    let mut last = Items::from_slice(alloc, first)?;
    let mut found = Items::new(alloc);
    for op in ops {
        let place = place_of(keys, &op.key);
        let number = last.as_slice()[place];
        found.push(number)?;
        last.set(place, number_after(&op.change, number));
    }
    Ok(Chained { found, last })
}

/// The number that a change leaves where it finds this one.
fn number_after(change: &Change, number: i64) -> i64
    requires { unsigned_abs number < 4611686018427387904 }
    ensures { result ≡ number_after change.now number }
{
    match change {
        Change::Insert(_) if number < 0 => 1 - number,
        Change::Update(_) if number >= 0 => number + 1,
        Change::Remove if number >= 0 => -number - 1,
        _ => number,
    }
}
