//! A change at the end of a path, made in copies of all that the path leads through.
ghost use Rattle.std.specs.Prelude.{◌≡◌, [], ◌∷◌, ◌++◌, IfOk, OnOk, filter, List, Some};
ghost use Rattle.std.specs.Option.{option_copied};
ghost use Rattle.doc_value.specs.declared.value.Value.{out-Value, Object};
ghost use Rattle.doc_update.specs.Effects.{effect};
ghost use Rattle.doc_update.specs.Places.{changed, is_above, is_below, part_of, placed, placed_in, with_field, field_or_none};

use crate::effect::effect;
use doc_update::Change;
use doc_value::{Field, Fields, Named, OutOfMemory, Text, Value};
use sqlite_items::Items;
use std::alloc::Global;
use std::cmp::Ordering;

/// What was found after the change, of whose path these parts are left: None where it doesn't fit, and
/// Some(None) where nothing is found afterwards.
pub(crate) fn changed(
    alloc: Global,
    change: &Change,
    parts: &[Text],
    found: Option<&Value>,
) -> Result<Option<Option<Value>>, OutOfMemory>
    ensures { IfOk result (λ after. after ≡
        changed (effect change.now.operator change.now.field.now.value) parts.now
        (option_copied found.entry)) }
{
    let Some((part, rest)) = parts.split_first() else {
        return effect(alloc, change.operator, &change.field.value, found);
    };
    match changed(alloc, change, rest, part_of(part, found))? {
        Some(after) => placed(alloc, part, found, after),
        None => Ok(None),
    }
}

/// The field of that name, of an object that was found.
fn part_of<'a>(part: &Text, found: Option<&'a Value>) -> Option<&'a Value>
    ensures { option_copied result ≡ part_of part.now (option_copied found.entry) }
{
    match found {
        Some(value) => value.field(part.as_bytes()),
        None => None,
    }
}

fn placed(
    alloc: Global,
    part: &Text,
    found: Option<&Value>,
    after: Option<Value>,
) -> Result<Option<Option<Value>>, OutOfMemory>
    ensures { IfOk result (λ made. made ≡ placed part.now (option_copied found.entry) after) }
{
    match (found, after) {
        (Some(value), after) => placed_in(alloc, part, after, value),
        (None, None) => Ok(Some(None)),
        (None, Some(after)) => {
            let fields = with_field(alloc, part, Some(after), &[])?;
            Ok(Some(Some(Value::Object(fields))))
        }
    }
}

fn placed_in(
    alloc: Global,
    part: &Text,
    after: Option<Value>,
    value: &Value,
) -> Result<Option<Option<Value>>, OutOfMemory>
    ensures { IfOk result (λ made. made ≡
        placed_in part.now after value.now (out-Value value.now)) }
{
    match (value, after) {
        (Value::Object(fields), after) => {
            let fields = with_field(alloc, part, after, fields.as_slice())?;
            Ok(Some(Some(Value::Object(fields))))
        }
        (_, None) => Ok(Some(Some(value.copy(alloc)?))),
        (_, Some(_)) => Ok(None),
    }
}

/// Copies of the fields, with this one as it is afterwards in its place.
pub(crate) fn with_field(
    alloc: Global,
    name: &Text,
    after: Option<Value>,
    fields: &[Field],
) -> Result<Fields, OutOfMemory>
    ensures { IfOk result (λ made. made ≡ with_field name.now after fields.now) }
{
    let mut made = Items::new(alloc);
    push_below(alloc, &mut made, fields, name)?;
    if let Some(value) = after {
        let name = name.copy(alloc)?;
        made.push(Named { name, value })?;
    }
    push_above(alloc, &mut made, fields, name)?;
    Ok(made)
}

fn push_below(
    alloc: Global,
    made: &mut Fields,
    fields: &[Field],
    name: &Text,
) -> Result<(), OutOfMemory>
    ensures { OnOk result (made.new ≡ made.old ++ filter (is_below name.now) fields.now) }
{
    for field in fields {
        if field.name.compare(name) == Ordering::Less {
            push_copy(alloc, made, field)?;
        }
    }
    Ok(())
}

fn push_above(
    alloc: Global,
    made: &mut Fields,
    fields: &[Field],
    name: &Text,
) -> Result<(), OutOfMemory>
    ensures { OnOk result (made.new ≡ made.old ++ filter (is_above name.now) fields.now) }
{
    for field in fields {
        if field.name.compare(name) == Ordering::Greater {
            push_copy(alloc, made, field)?;
        }
    }
    Ok(())
}

pub(crate) fn push_copy(alloc: Global, made: &mut Fields, field: &Field) -> Result<(), OutOfMemory>
    ensures { OnOk result (made.new ≡ made.old ++ field.now ∷ []) }
{
    let name = field.name.copy(alloc)?;
    let value = field.value.copy(alloc)?;
    made.push(Named { name, value })
}
