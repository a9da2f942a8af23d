ghost use Rattle.std.specs.Prelude.{◌≡◌, ◌↔◌, IsTrue};
ghost use Rattle.doc_value.specs.Same.{same};

use crate::value::{Field, Value};

impl Value {
    /// Whether the two are the same tree. It takes no memory.
    pub fn equals(&self, other: &Value) -> bool
        ensures equality { IsTrue result ↔ (self.now ≡ other.now) }
        ensures test { result ≡ same self.now other.now }
    {
        are_equal(self, other)
    }
}

#[cycle(equality)]
fn are_equal(value: &Value, other: &Value) -> bool
    ensures { IsTrue result ↔ (value.now ≡ other.now) }
{
    match (value, other) {
        (Value::Null, Value::Null) => true,
        (Value::Bool(truth), Value::Bool(other)) => *truth == *other,
        (Value::Int(number), Value::Int(other)) => *number == *other,
        (Value::Text(text), Value::Text(other)) => text.equals(other),
        (Value::List(items), Value::List(others)) => {
            are_equal_lists(items.as_slice(), others.as_slice())
        }
        (Value::Object(fields), Value::Object(others)) => {
            are_equal_fields(fields.as_slice(), others.as_slice())
        }
        _ => false,
    }
}

#[cycle(equality)]
fn are_equal_lists(items: &[Value], others: &[Value]) -> bool
    ensures { IsTrue result ↔ (items.now ≡ others.now) }
{
    if items.len() != others.len() {
        return false;
    }
    for i in 0..items.len() {
        if !are_equal(&items[i], &others[i]) {
            return false;
        }
    }
    true
}

#[cycle(equality)]
fn are_equal_fields(fields: &[Field], others: &[Field]) -> bool
    ensures { IsTrue result ↔ (fields.now ≡ others.now) }
{
    if fields.len() != others.len() {
        return false;
    }
    for i in 0..fields.len() {
        let field = &fields[i];
        let other = &others[i];
        if !field.name.equals(&other.name) || !are_equal(&field.value, &other.value) {
            return false;
        }
    }
    true
}
