ghost use Rattle.std.specs.Prelude.{◌≡◌, IfOk};

use crate::text::{OutOfMemory, Text};
use sqlite_items::Items;
use std::alloc::Global;

/// A value as a document holds it: null, a truth value, a whole number of 64 bits, a text, a list or
/// an object.
#[derive(Drop)]
pub enum Value {
    Null,
    Bool(bool),
    Int(i64),
    Text(Text),
    List(Items<Value>),
    Object(Items<Named<Value>>),
}

/// A part of an object under its name. It is generic so that a value leads back to itself in one way
/// alone, which keeps definitions over values to one recursion.
#[derive(Drop)]
pub struct Named<V> {
    pub name: Text,
    pub value: V,
}

/// A field of an object.
pub type Field = Named<Value>;

/// The fields of an object, in byte order of their distinct names wherever they were read.
pub type Fields = Items<Field>;

impl Named<Value> {
    /// An equal field.
    pub fn copy(&self, alloc: Global) -> Result<Field, OutOfMemory>
        ensures { IfOk result (λ copy. copy ≡ self.now) }
    {
        let name = self.name.copy(alloc)?;
        let value = self.value.copy(alloc)?;
        Ok(Named { name, value })
    }
}

impl Value {
    /// An equal value.
    #[cycle(copy)]
    pub fn copy(&self, alloc: Global) -> Result<Value, OutOfMemory>
        ensures { IfOk result (λ copy. copy ≡ self.now) }
    {
        match self {
            Value::Null => Ok(Value::Null),
            Value::Bool(truth) => Ok(Value::Bool(*truth)),
            Value::Int(number) => Ok(Value::Int(*number)),
            Value::Text(text) => Ok(Value::Text(text.copy(alloc)?)),
            Value::List(items) => Ok(Value::List(copy_items(alloc, items.as_slice())?)),
            Value::Object(fields) => Ok(Value::Object(copy_fields(alloc, fields.as_slice())?)),
        }
    }
}

/// Copies of the items, in their order.
#[cycle(copy)]
pub fn copy_items(alloc: Global, items: &[Value]) -> Result<Items<Value>, OutOfMemory>
    ensures { IfOk result (λ copies. copies ≡ items.now) }
{
    let mut copies = Items::new(alloc);
    for item in items {
        copies.push(item.copy(alloc)?)?;
    }
    Ok(copies)
}

#[cycle(copy)]
fn copy_fields(alloc: Global, fields: &[Field]) -> Result<Fields, OutOfMemory>
    ensures { IfOk result (λ copies. copies ≡ fields.now) }
{
    let mut copies = Items::new(alloc);
    for field in fields {
        let name = field.name.copy(alloc)?;
        let value = field.value.copy(alloc)?;
        copies.push(Named { name, value })?;
    }
    Ok(copies)
}
