ghost use Rattle.std.specs.Prelude.{◌≡◌, map, nat_lt};
ghost use Rattle.doc_value.specs.Fields.{judged};
ghost use Rattle.doc_value.specs.Depth.{nesting, deepest, deepest_field};

use crate::value::{Field, Value};

impl Value {
    /// Whether lists and objects nest deeper than `limit` in the value. The nesting of a scalar is 0, of
    /// any other value one more than that of its deepest part. No level below the limit is looked at.
    pub fn is_deeper_than(&self, limit: u32) -> bool
        ensures { result ≡ nat_lt limit (nesting self.now) }
    {
        is_deeper(self, limit)
    }
}

#[cycle(nesting)]
fn is_deeper(value: &Value, limit: u32) -> bool
    ensures { result ≡ nat_lt limit (nesting value.now) }
{
    match value {
        Value::Null => false,
        Value::Bool(_) => false,
        Value::Int(_) => false,
        Value::Text(_) => false,
        Value::List(items) => limit == 0 || some_item_is_deeper(items.as_slice(), limit - 1),
        Value::Object(fields) => limit == 0 || some_field_is_deeper(fields.as_slice(), limit - 1),
    }
}

#[cycle(nesting)]
fn some_item_is_deeper(items: &[Value], limit: u32) -> bool
    ensures { result ≡ nat_lt limit (deepest (map nesting items.now)) }
{
    for item in items {
        if is_deeper(item, limit) {
            return true;
        }
    }
    false
}

#[cycle(nesting)]
fn some_field_is_deeper(fields: &[Field], limit: u32) -> bool
    ensures { result ≡ nat_lt limit (deepest_field (map (judged nesting) fields.now)) }
{
    for field in fields {
        if is_deeper(&field.value, limit) {
            return true;
        }
    }
    false
}
