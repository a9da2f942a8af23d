//! Fields in byte order of their names.
ghost use Rattle.std.specs.Prelude.{◌≡◌, ◌<◌, OnOk};
ghost use Rattle.cell_text.specs.Fields.{field, inserted, is_named, with_field};

use doc_value::{Field, OutOfMemory, Text, Value};
use std::alloc::Global;
use std::cmp::Ordering;

/// Adds a field of that name behind those of lower names, unless there is none.
pub(crate) fn insert_field(
    alloc: Global,
    fields: &mut Vec<Field>,
    name: &str,
    value: Option<Value>,
) -> Result<(), OutOfMemory>
    ensures { OnOk result (fields.new.items ≡ with_field name.now value fields.old.items) }
{
    let Some(value) = value else {
        return Ok(());
    };
    let name = Text::from_str(alloc, name)?;
    insert(fields, Field { name, value })
}

fn insert(fields: &mut Vec<Field>, field: Field) -> Result<(), OutOfMemory>
    ensures { OnOk result (fields.new.items ≡ inserted field fields.old.items) }
{
    let mut place = 0;
    while place < fields.len() && fields[place].name.compare(&field.name) == Ordering::Less {
        place += 1;
    }
    fields.insert(place, field)?;
    Ok(())
}

pub(crate) fn is_named(field: &Field, name: &[u8]) -> bool
    ensures { result ≡ is_named field.now name.now }
{
    field.name.as_bytes() == name
}
