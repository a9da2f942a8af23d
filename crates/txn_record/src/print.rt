//! The value that an operation prints as.
ghost use Rattle.std.specs.Prelude.{◌≡◌, ◌++◌, IfOk, OnOk};
ghost use Rattle.txn_record.specs.Values.{op_value, id_value, assert_value, insert_value, remove_value, update_value, field_of};

use crate::op::{Assert, Change, Op};
use doc_value::{DocId, Fields, Named, OutOfMemory, Text, Value};
use sqlite_items::Items;
use std::alloc::Global;

impl Op {
    /// The value that it prints as: an object of the fields of operations that are there, in byte order. An
    /// insertion's body stands without `_id`, and a removal alone has `r`.
    pub fn to_value(&self, alloc: Global) -> Result<Value, OutOfMemory>
        ensures { IfOk result (λ value. value ≡ op_value self.now) }
    {
        let mut fields = Items::new(alloc);
        push_field(alloc, &mut fields, "a", assert_value(alloc, &self.assert)?)?;
        let c = Value::Text(self.key.c.copy(alloc)?);
        push_field(alloc, &mut fields, "c", Some(c))?;
        let d = id_value(alloc, &self.key.d)?;
        push_field(alloc, &mut fields, "d", Some(d))?;
        push_field(alloc, &mut fields, "i", insert_value(alloc, &self.change)?)?;
        push_field(alloc, &mut fields, "r", remove_value(&self.change))?;
        push_field(alloc, &mut fields, "u", update_value(alloc, &self.change)?)?;
        Ok(Value::Object(fields))
    }
}

/// Adds a field of that name, unless there is none.
pub fn push_field(
    alloc: Global,
    fields: &mut Fields,
    name: &str,
    value: Option<Value>,
) -> Result<(), OutOfMemory>
    ensures { OnOk result (fields.new ≡ fields.old ++ field_of name.now value) }
{
    let Some(value) = value else {
        return Ok(());
    };
    let name = Text::from_str(alloc, name)?;
    fields.push(Named { name, value })
}

/// The value that the id of a document prints as.
pub fn id_value(alloc: Global, id: &DocId) -> Result<Value, OutOfMemory>
    ensures { IfOk result (λ value. value ≡ id_value id.now) }
{
    match id {
        DocId::Text(text) => Ok(Value::Text(text.copy(alloc)?)),
        DocId::Int(number) => Ok(Value::Int(*number)),
    }
}

fn assert_value(alloc: Global, assert: &Assert) -> Result<Option<Value>, OutOfMemory>
    ensures { IfOk result (λ value. value ≡ assert_value assert.now) }
{
    match assert {
        Assert::Nothing => Ok(None),
        Assert::Exists => Ok(Some(Value::Text(Text::from_str(alloc, "d+")?))),
        Assert::Missing => Ok(Some(Value::Text(Text::from_str(alloc, "d-")?))),
        Assert::Query(query) => Ok(Some(query.source().copy(alloc)?)),
    }
}

fn insert_value(alloc: Global, change: &Change) -> Result<Option<Value>, OutOfMemory>
    ensures { IfOk result (λ value. value ≡ insert_value change.now) }
{
    match change {
        Change::Insert(body) => Ok(Some(body.copy(alloc)?)),
        _ => Ok(None),
    }
}

fn remove_value(change: &Change) -> Option<Value>
    ensures { result ≡ remove_value change.now }
{
    match change {
        Change::Remove => Some(Value::Bool(true)),
        _ => None,
    }
}

fn update_value(alloc: Global, change: &Change) -> Result<Option<Value>, OutOfMemory>
    ensures { IfOk result (λ value. value ≡ update_value change.now) }
{
    match change {
        Change::Update(update) => Ok(Some(update.source().copy(alloc)?)),
        _ => Ok(None),
    }
}
