ghost use Rattle.std.specs.Prelude.{◌≡◌, ◌≢◌, IfOk, map, Ok, Err};
ghost use Rattle.std.specs.Option.{option_copied};
ghost use Rattle.doc_value.specs.Fields.{judged};
ghost use Rattle.doc_value.specs.Bodies.{body_in, refused_inside, first_found, first_in_fields, refused_at_top, first_refused, without_id};
ghost use Rattle.doc_value.specs.Readable.{IsReadable};
ghost use Rattle.doc_value.specs.declared.doc_id.DocId.{DocId};
ghost use Rattle.doc_value.specs.Ids.{is_value_of_id};

use crate::doc_id::DocId;
use crate::fault::BodyFault;
use crate::name;
use crate::text::{OutOfMemory, Text};
use crate::value::{Field, Fields, Named, Value};
use sqlite_items::Items;
use std::alloc::Global;

/// The deepest nesting of lists and objects that a body may have.
pub const MAX_BODY_NESTING: u32 = 90;

/// The value as the body of the document of that id: the value itself, without the field `_id` at the
/// top, which may stand there where it equals the id.
pub fn read_body(alloc: Global, value: &Value, id: &DocId) -> Result<Value, BodyFault>
    ensures exact { result ≢ Err BodyFault.OutOfMemory → result ≡ body_in id.now value.now }
    ensures again { IfOk result (λ body. (other : DocId) → body_in other body ≡ Ok body) }
    ensures readable { IfOk result (λ body. IsReadable value.now → IsReadable body) }
{
    let Value::Object(fields) = value else {
        return Err(BodyFault::NotObject);
    };
    if value.is_deeper_than(MAX_BODY_NESTING) {
        return Err(BodyFault::TooDeep);
    }
    if let Some(name) = first_refused_field(fields.as_slice(), id) {
        return Err(BodyFault::BadField(name.copy(alloc)?));
    }
    Ok(Value::Object(copy_without_id(alloc, fields.as_slice())?))
}

/// The first name at the top or inside that a body may not have.
fn first_refused_field<'a>(fields: &'a [Field], id: &DocId) -> Option<&'a Text>
    ensures { option_copied result ≡ first_refused id.now fields.now }
{
    for field in fields {
        if let Some(name) = refused_in_top_field(field, id) {
            return Some(name);
        }
    }
    None
}

fn refused_in_top_field<'a>(field: &'a Field, id: &DocId) -> Option<&'a Text>
    ensures { option_copied result ≡ refused_at_top id.now field.now }
{
    let name = field.name.as_bytes();
    if name::is_id(name) {
        return if id.is_value(&field.value) {
            None
        } else {
            Some(&field.name)
        };
    }
    if name::is_refused(name) || name::is_of_transactions(name) {
        return Some(&field.name);
    }
    field.value.refused_name()
}

impl Value {
    /// The first name, in the order of a walk, that no field of a body may have at any depth: one that
    /// holds a dot or begins with `$`.
    pub fn refused_name(&self) -> Option<&Text>
        ensures { option_copied result ≡ refused_inside self.now }
    {
        first_refused_inside(self)
    }
}

#[cycle(refused)]
fn first_refused_inside(value: &Value) -> Option<&Text>
    ensures { option_copied result ≡ refused_inside value.now }
{
    match value {
        Value::Null => None,
        Value::Bool(_) => None,
        Value::Int(_) => None,
        Value::Text(_) => None,
        Value::List(items) => first_refused_in_items(items.as_slice()),
        Value::Object(fields) => first_refused_in_fields(fields.as_slice()),
    }
}

#[cycle(refused)]
fn first_refused_in_items(items: &[Value]) -> Option<&Text>
    ensures { option_copied result ≡ first_found (map refused_inside items.now) }
{
    for item in items {
        if let Some(name) = first_refused_inside(item) {
            return Some(name);
        }
    }
    None
}

#[cycle(refused)]
fn first_refused_in_fields(fields: &[Field]) -> Option<&Text>
    ensures { option_copied result ≡ first_in_fields (map (judged refused_inside) fields.now) }
{
    for field in fields {
        if name::is_refused(field.name.as_bytes()) {
            return Some(&field.name);
        }
        if let Some(name) = first_refused_inside(&field.value) {
            return Some(name);
        }
    }
    None
}

fn copy_without_id(alloc: Global, fields: &[Field]) -> Result<Fields, OutOfMemory>
    ensures { IfOk result (λ kept. kept ≡ without_id fields.now) }
{
    let mut kept = Items::new(alloc);
    for field in fields {
        if !name::is_id(field.name.as_bytes()) {
            let name = field.name.copy(alloc)?;
            let value = field.value.copy(alloc)?;
            kept.push(Named { name, value })?;
        }
    }
    Ok(kept)
}
