ghost use Rattle.std.specs.Prelude.{◌≡◌, map};
ghost use Rattle.doc_value.specs.Fields.{judged};
ghost use Rattle.doc_value.specs.Order.{is_ordered, all_ordered, fields_ordered, precedes};

use crate::text::Text;
use crate::value::{Field, Value};
use std::cmp::Ordering;

/// Whether the names are in byte order, each once, at every depth: one pass over the value.
#[cycle(ordered)]
pub fn is_ordered(value: &Value) -> bool
    ensures { result ≡ is_ordered value.now }
{
    match value {
        Value::Null => true,
        Value::Bool(_) => true,
        Value::Int(_) => true,
        Value::Text(_) => true,
        Value::List(items) => items_ordered(items.as_slice()),
        Value::Object(fields) => fields_ordered(fields.as_slice()),
    }
}

#[cycle(ordered)]
fn items_ordered(items: &[Value]) -> bool
    ensures { result ≡ all_ordered (map is_ordered items.now) }
{
    for item in items {
        if !is_ordered(item) {
            return false;
        }
    }
    true
}

#[cycle(ordered)]
fn fields_ordered(fields: &[Field]) -> bool
    ensures { result ≡ fields_ordered (map (judged is_ordered) fields.now) }
{
    for i in 0..fields.len() {
        if !precedes(&fields[i].name, &fields[i + 1..]) || !is_ordered(&fields[i].value) {
            return false;
        }
    }
    true
}

fn precedes(name: &Text, rest: &[Field]) -> bool
    ensures { result ≡ precedes name.now (map (judged is_ordered) rest.now) }
{
    match rest.first() {
        Some(field) => name.compare(&field.name) == Ordering::Less,
        None => true,
    }
}
