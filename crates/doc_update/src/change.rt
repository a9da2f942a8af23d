//! The changes that an update is made of, as a list.
ghost use Rattle.std.specs.Prelude.{◌≡◌, ◌++◌, map, IfOk, OnOk};
ghost use Rattle.doc_update.specs.Changes.{changes_in, changes_under, change_of, fields_of};
ghost use Rattle.doc_update.specs.Listed.{change_listed};
ghost use Rattle.doc_update.specs.Operators.{operator_named};

use crate::operator::Operator;
use crate::shape::fields_of;
use doc_value::{Field, OutOfMemory, Text, split_parts};
use sqlite_items::Items;
use std::alloc::Global;

/// One operator at one path: the path's parts, and the field that has its text and the operand.
#[derive(Drop)]
pub struct Change<'a> {
    pub operator: Operator,
    pub parts: Items<Text>,
    pub field: &'a Field,
}

/// The changes under all operators, in their order.
pub fn changes_in<'a>(alloc: Global, operators: &'a [Field]) -> Result<Vec<Change<'a>>, OutOfMemory>
    ensures { IfOk result (λ made. map change_listed made.items ≡ changes_in operators.now) }
{
    let mut made = Vec::new(alloc);
    for field in operators {
        if let Some(operator) = Operator::named(field.name.as_bytes()) {
            push_changes(alloc, &mut made, operator, fields_of(&field.value))?;
        }
    }
    Ok(made)
}

fn push_changes<'a>(
    alloc: Global,
    made: &mut Vec<Change<'a>>,
    operator: Operator,
    fields: &'a [Field],
) -> Result<(), OutOfMemory>
    ensures { OnOk result (map change_listed made.new.items ≡
        map change_listed made.old.items ++ map (change_of operator) fields.now) }
{
    for field in fields {
        let parts = split_parts(alloc, field.name.as_str())?;
        made.push(Change {
            operator,
            parts,
            field,
        })?;
    }
    Ok(())
}
