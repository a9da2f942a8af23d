//! Whether two records are the same. It takes no memory.
ghost use Rattle.std.specs.Prelude.{◌≡◌, ◌↔◌, ◌==◌, IsTrue};
ghost use Rattle.std.specs.Ordering.{int_eq};
ghost use Rattle.doc_value.specs.Same.{same};
ghost use Rattle.txn_key.specs.Keys.{same_key};
ghost use Rattle.txn_record.specs.Same.{agree, same_option, same_list, same_assert, same_change, same_op, same_revnos, same_record};
ghost use Rattle.txn_record.specs.declared.record.Record.{Record as RecordValue};

use crate::op::{Assert, Change, Op};
use crate::record::Record;
use doc_value::Value;
use sqlite_items::Items;
use std::cmp::Ordering;
use txn_key::Key;

impl Record {
    /// Whether the two are the same record.
    pub fn equals(&self, other: &Record) -> bool
        ensures { result ≡ same_record self.now other.now }
    {
        self.id == other.id
            && self.state.number() == other.state.number()
            && same_info(&self.info, &other.info)
            && same_ops(self.ops.as_slice(), other.ops.as_slice())
            && same_nonce(self.nonce, other.nonce)
            && same_revnos(&self.revnos, &other.revnos)
    }
}

fn same_info(info: &Option<Value>, other: &Option<Value>) -> bool
    ensures { result ≡ same_option same info.now other.now }
{
    match (info, other) {
        (None, None) => true,
        (Some(info), Some(other)) => info.equals(other),
        _ => false,
    }
}

fn same_ops(ops: &[Op], others: &[Op]) -> bool
    ensures { result ≡ same_list same_op ops.now others.now }
{
    ops.len() == others.len() && ops_agree(ops, others)
}

fn ops_agree(ops: &[Op], others: &[Op]) -> bool
    ensures { result ≡ agree same_op ops.now others.now }
{
    ops.iter().zip(others).all(|(op, other)| same_op(op, other))
}

fn same_op(op: &Op, other: &Op) -> bool
    ensures { result ≡ same_op op.now other.now }
{
    same_key(&op.key, &other.key)
        && same_assert(&op.assert, &other.assert)
        && same_change(&op.change, &other.change)
}

fn same_key(key: &Key, other: &Key) -> bool
    ensures { result ≡ same_key key.now other.now }
{
    key.compare(other) == Ordering::Equal
}

fn same_assert(assert: &Assert, other: &Assert) -> bool
    ensures { result ≡ same_assert assert.now other.now }
{
    match (assert, other) {
        (Assert::Nothing, Assert::Nothing) => true,
        (Assert::Exists, Assert::Exists) => true,
        (Assert::Missing, Assert::Missing) => true,
        (Assert::Query(query), Assert::Query(other)) => query.source().equals(other.source()),
        _ => false,
    }
}

fn same_change(change: &Change, other: &Change) -> bool
    ensures { result ≡ same_change change.now other.now }
{
    match (change, other) {
        (Change::Nothing, Change::Nothing) => true,
        (Change::Insert(body), Change::Insert(other)) => body.equals(other),
        (Change::Update(update), Change::Update(other)) => update.source().equals(other.source()),
        (Change::Remove, Change::Remove) => true,
        _ => false,
    }
}

fn same_nonce(nonce: Option<u32>, other: Option<u32>) -> bool
    ensures { result ≡ same_option (λ n m. n == m) nonce other }
{
    match (nonce, other) {
        (None, None) => true,
        (Some(nonce), Some(other)) => nonce == other,
        _ => false,
    }
}

fn same_revnos(revnos: &Option<Items<i64>>, other: &Option<Items<i64>>) -> bool
    ensures { result ≡ same_revnos revnos.now other.now }
{
    match (revnos, other) {
        (None, None) => true,
        (Some(revnos), Some(other)) => same_numbers(revnos.as_slice(), other.as_slice()),
        _ => false,
    }
}

fn same_numbers(numbers: &[i64], others: &[i64]) -> bool
    ensures { result ≡ same_list int_eq numbers.now others.now }
{
    numbers.len() == others.len() && numbers_agree(numbers, others)
}

fn numbers_agree(numbers: &[i64], others: &[i64]) -> bool
    ensures { result ≡ agree int_eq numbers.now others.now }
{
    numbers.iter().zip(others).all(|(a, b)| *a == *b)
}

/// A law: the test of two records is equality.
pub fn same_record_is_equality()
    ensures { (rec other : RecordValue) → IsTrue (same_record rec other) ↔ (rec ≡ other) }
{}
