//! The distinct keys of operations, in key order.
ghost use Rattle.std.specs.Prelude.{◌≡◌, true, map, IfOk};
ghost use Rattle.txn_key.specs.Places.{keys_rise};
ghost use Rattle.txn_record.specs.Chain.{keys_of};

use crate::op::Op;
use doc_value::OutOfMemory;
use sqlite_items::Items;
use std::alloc::Global;
use txn_key::{Key, distinct_keys};

/// The distinct keys of the operations, in key order.
pub(crate) fn keys_of(alloc: Global, ops: &[Op]) -> Result<Items<Key>, OutOfMemory>
    ensures all { IfOk result (λ keys. keys ≡ keys_of ops.now) }
    ensures rise { IfOk result (λ keys. keys_rise keys ≡ true) }
{
    distinct_keys(alloc, each_key(alloc, ops)?)
}

/// The key of each operation.
fn each_key<'a>(alloc: Global, ops: &'a [Op]) -> Result<Vec<&'a Key>, OutOfMemory>
    ensures { IfOk result (λ keys. map (λ key. key.now) keys.items ≡ map (λ op. op.key) ops.now) }
{
    let mut keys = Vec::new(alloc);
    for op in ops {
        keys.push(&op.key)?;
    }
    Ok(keys)
}
