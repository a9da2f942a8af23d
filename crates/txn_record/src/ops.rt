ghost use Rattle.std.specs.Prelude.{◌≡◌, ◌≢◌, ◌≤◌, length, map, IfOk, Err};
ghost use Rattle.std.specs.List.{All};
ghost use Rattle.txn_record.specs.Chain.{keys_of};
ghost use Rattle.txn_record.specs.Values.{op_value, ops_value};
ghost use Rattle.txn_record.specs.Syntax.{ops_in, ops_from, op_in, numbered};
ghost use Rattle.txn_record.specs.Transactions.{IsTransaction, IsSoundOp};

use crate::fault::{OpsFault, Refusal};
use crate::keys::keys_of;
use crate::op::Op;
use crate::read::read_op;
use doc_value::{OutOfMemory, Value};
use sqlite_items::Items;
use std::alloc::Global;
use std::marker::Model;
use txn_key::Key;

/// The most operations of a transaction.
const MAX_OPS: usize = 1000;

/// The operations of a transaction, in order. Contracts see their list.
#[derive(Drop)]
pub struct Ops {
    list: Items<Op>,
}

impl Model for Ops {
    ghost use Rattle.std.specs.Prelude.{List};
    ghost use Rattle.std.specs.Coded.{coded_list};
    ghost use Rattle.txn_record.specs.declared.op.Op.{Op};
    ghost use Rattle.txn_record.specs.contracts.op.Op as op;
    ghost use Rattle.txn_record.specs.Transactions.{IsTransaction};

    ghost Value = { List Op };

    ghost coded = { coded_list op.the_row.coded };

    ghost view = { λ o. o.list };

    ghost invariant = { λ o. IsTransaction o.list };
}

impl Ops {
    /// Reads the operations of a transaction: 1 to 1,000 in a list. Operations are tested in turn, and the
    /// first that is faulty is named.
    pub fn read(alloc: Global, value: &Value) -> Result<Ops, OpsFault>
        ensures exact { result ≢ Err OpsFault.OutOfMemory → result ≡ ops_in value.now }
    {
        let Value::List(values) = value else {
            return Err(OpsFault::NotList);
        };
        let values = values.as_slice();
        if values.is_empty() {
            return Err(OpsFault::Empty);
        }
        if values.len() > MAX_OPS {
            return Err(OpsFault::TooMany);
        }
        let list = read_all(alloc, values)?;
        Ok(Ops { list })
    }

    /// The operations, in order.
    pub fn as_slice(&self) -> &[Op]
        ensures list { result.now ≡ self.now }
        ensures sound { IsTransaction self.now }
    {
        self.list.as_slice()
    }

    /// The distinct keys, in key order.
    pub fn keys(&self, alloc: Global) -> Result<Items<Key>, OutOfMemory>
        ensures { IfOk result (λ keys. keys ≡ keys_of self.now) }
    {
        keys_of(alloc, self.list.as_slice())
    }

    /// The value that they print as: a list of objects.
    pub fn to_value(&self, alloc: Global) -> Result<Value, OutOfMemory>
        ensures { IfOk result (λ value. value ≡ ops_value self.now) }
    {
        Ok(Value::List(values_of(alloc, self.list.as_slice())?))
    }

    /// Equal operations.
    pub fn copy(&self, alloc: Global) -> Result<Ops, OutOfMemory>
        ensures { IfOk result (λ copy. copy ≡ self.now) }
    {
        let ops = self.list.as_slice();
        let mut list = Items::new(alloc);
        for op in ops {
            list.push(op.copy(alloc)?)?;
        }
        Ok(Ops { list })
    }
}

fn values_of(alloc: Global, ops: &[Op]) -> Result<Items<Value>, OutOfMemory>
    ensures { IfOk result (λ values. values ≡ map op_value ops.now) }
{
    let mut values = Items::new(alloc);
    for op in ops {
        values.push(op.to_value(alloc)?)?;
    }
    Ok(values)
}

/// The values as operations, counted from 0.
fn read_all(alloc: Global, values: &[Value]) -> Result<Items<Op>, OpsFault>
    requires { length values.now ≤ 1000 }
    ensures exact { result ≢ Err OpsFault.OutOfMemory → result ≡ ops_from 0 values.now }
    ensures sound { IfOk result (λ ops. All IsSoundOp ops) }
    ensures count { IfOk result (λ ops. length ops ≡ length values.now) }
{
    let mut list = Items::new(alloc);
    let mut op: u32 = 0;
    for value in values {
        list.push(read_numbered(alloc, op, value)?)?;
        op += 1;
    }
    Ok(list)
}

fn read_numbered(alloc: Global, op: u32, value: &Value) -> Result<Op, OpsFault>
    ensures exact { result ≢ Err OpsFault.OutOfMemory → result ≡ numbered op (op_in value.now) }
    ensures sound { IfOk result IsSoundOp }
{
    match read_op(alloc, value) {
        Ok(read) => Ok(read),
        Err(Refusal::Fault(why)) => Err(OpsFault::At { op, why }),
        Err(Refusal::OutOfMemory) => Err(OpsFault::OutOfMemory),
    }
}
