//! What paths and names lead to.
ghost use Rattle.std.specs.Prelude.{◌≡◌, map, true};
ghost use Rattle.std.specs.Option.{option_copied};
ghost use Rattle.doc_value.specs.Fields.{judged};
ghost use Rattle.doc_value.specs.Order.{is_ordered, fields_ordered};
ghost use Rattle.doc_value.specs.Paths.{field_named, field_in, get_at, parts_of};
ghost use Rattle.doc_value.specs.declared.value.Value.{out-Value};

use crate::ordered::is_ordered;
use crate::path::Path;
use crate::value::{Field, Value};
use std::cmp::Ordering;
use std::marker::Model;

/// The value that the path leads to, from object to object: none where a part isn't there or its
/// parent is no object.
pub fn get<'a>(value: &'a Value, path: &Path) -> Option<&'a Value>
    ensures { option_copied result ≡ get_at path.now value.now }
{
    let mut found = value;
    for part in path.parts() {
        found = found.field(part.as_bytes())?;
    }
    Some(found)
}

/// A value to look fields up in. Where the names of the value are known to be in order, here and in what
/// is found in it, a field is found by halving, else by going through the fields. Contracts see the value.
#[derive(Drop)]
pub struct Lookup<'a> {
    value: &'a Value,
    in_order: bool,
}

impl<'a> Model for Lookup<'a> {
    ghost use Rattle.std.specs.Prelude.{◌≡◌, true};
    ghost use Rattle.doc_value.specs.declared.value.Value.{Value as Tree};
    ghost use Rattle.doc_value.specs.contracts.value.Value as tree;
    ghost use Rattle.doc_value.specs.Order.{is_ordered};

    ghost Value = { Tree };

    ghost coded = { tree.the_row.coded };

    ghost view = { λ l. l.value.now };

    ghost invariant = { λ l. l.in_order ≡ true → is_ordered l.value.now ≡ true };
}

impl<'a> Lookup<'a> {
    /// By going through the fields, which asks for no pass over the value first.
    pub fn in_turn(value: &'a Value) -> Lookup<'a>
        ensures { result ≡ value.now }
    {
        Lookup {
            value,
            in_order: false,
        }
    }

    /// By halving, where one pass over the value tells that its names are in order.
    pub fn halving(value: &'a Value) -> Lookup<'a>
        ensures { result ≡ value.now }
    {
        Lookup {
            value,
            in_order: is_ordered(value),
        }
    }

    /// The same again.
    pub fn copy(&self) -> Lookup<'a>
        ensures { result ≡ self.now }
    {
        Lookup {
            value: self.value,
            in_order: self.in_order,
        }
    }

    pub fn value(&self) -> &'a Value
        ensures { result.now ≡ self.now }
    {
        self.value
    }

    /// The field of that name, of an object, as `Value::field` tells it.
    pub fn field(&self, name: &[u8]) -> Option<Lookup<'a>>
        ensures { result ≡ field_in name.now (out-Value self.now) }
    {
        let value = self.find(name)?;
        Some(Lookup {
            value,
            in_order: self.in_order,
        })
    }

    fn find(&self, name: &[u8]) -> Option<&'a Value>
        ensures { option_copied result ≡ field_in name.now (out-Value self.now) }
    {
        match self.value {
            Value::Object(fields) if self.in_order => find(fields.as_slice(), name),
            value => value.field(name),
        }
    }

    /// What the path of that text leads to, by the parts between its dots. It takes no memory.
    pub fn get(&self, path: &str) -> Option<&'a Value>
        ensures { option_copied result ≡ get_at (parts_of path.now) self.now }
    {
        let mut found = self.copy();
        for part in path.split('.') {
            found = found.field(part.as_bytes())?;
        }
        Some(found.value())
    }
}

fn find<'a>(fields: &'a [Field], name: &[u8]) -> Option<&'a Value>
    requires { fields_ordered (map (judged is_ordered) fields.now) ≡ true }
    ensures { option_copied result ≡ field_named name.now fields.now }
{
    let mut low = 0;
    let mut high = fields.len();
    while low < high {
        let middle = low + (high - low) / 2;
        match fields[middle].name.as_bytes().cmp(name) {
            Ordering::Less => low = middle + 1,
            Ordering::Equal => return Some(&fields[middle].value),
            Ordering::Greater => high = middle,
        }
    }
    None
}

impl Value {
    /// The value of an object's field of that name.
    pub fn field(&self, name: &[u8]) -> Option<&Value>
        ensures { option_copied result ≡ field_in name.now (out-Value self.now) }
    {
        match self {
            Value::Null => None,
            Value::Bool(_) => None,
            Value::Int(_) => None,
            Value::Text(_) => None,
            Value::List(_) => None,
            Value::Object(fields) => find_field(fields.as_slice(), name),
        }
    }
}

fn find_field<'a>(fields: &'a [Field], name: &[u8]) -> Option<&'a Value>
    ensures { option_copied result ≡ field_named name.now fields.now }
{
    for field in fields {
        if field.name.as_bytes() == name {
            return Some(&field.value);
        }
    }
    None
}
