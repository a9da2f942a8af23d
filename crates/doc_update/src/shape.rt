//! The shape of an update: an object of operators, each an object of paths and operands.
ghost use Rattle.std.specs.Prelude.{◌≡◌, is_none, is_some};
ghost use Rattle.std.specs.Option.{option_copied};
ghost use Rattle.doc_value.specs.declared.value.Value.{out-Value};
ghost use Rattle.doc_value.specs.Names.{is_operator_name};
ghost use Rattle.doc_update.specs.Changes.{fields_of};
ghost use Rattle.doc_update.specs.Syntax.{is_object, are_operators, some_empty};

use doc_value::{Field, Value};

/// The fields of an object, none of what has no fields.
pub fn fields_of(value: &Value) -> &[Field]
    ensures { result.now ≡ fields_of value.now }
{
    match value {
        Value::Null => &[],
        Value::Bool(_) => &[],
        Value::Int(_) => &[],
        Value::Text(_) => &[],
        Value::List(_) => &[],
        Value::Object(fields) => fields.as_slice(),
    }
}

pub fn is_object(value: &Value) -> bool
    ensures { result ≡ is_object value.now }
{
    matches!(value, Value::Object(_))
}

/// Whether each field is an object under a name that begins with `$`.
pub(crate) fn are_operators(fields: &[Field]) -> bool
    ensures { result ≡ are_operators fields.now }
{
    for field in fields {
        if !(field.name.as_bytes().starts_with(b"$") && is_object(&field.value)) {
            return false;
        }
    }
    true
}

/// Whether some operator has no path.
pub(crate) fn has_empty(operators: &[Field]) -> bool
    ensures { result ≡ some_empty operators.now }
{
    for operator in operators {
        if fields_of(&operator.value).is_empty() {
            return true;
        }
    }
    false
}
