//! The value and the text that a cell prints as.
ghost use Rattle.std.specs.Prelude.{◌≡◌, ◌++◌, IfOk, OnOk};
ghost use Rattle.doc_value.specs.declared.value.Value.{Object};
ghost use Rattle.cell_text.specs.Values.{cell_text, cell_value, doc_fields, nonce_fields, of_kind, record_fields, stash_fields};

use crate::fields::insert_field;
use crate::values::{
    body_fields, key_value, mark_value, nonce_value, queue_value, revno_value, revnos_value,
    transaction_value,
};
use doc_value::{DocId, Fields, OutOfMemory, Text, Value, print_value, push_value};
use sqlite_items::Items;
use std::alloc::Global;
use store_trait::{Cell, DocCell, Name, Named, StashCell};
use txn_key::Key;
use txn_record::{Record, copy_info, id_value, push_field};

/// The line of a cell, without its newline.
pub fn cell_text(alloc: Global, named: &Named) -> Result<Vec<u8>, OutOfMemory>
    ensures { IfOk result (λ text. text.items ≡ cell_text named.now) }
{
    let value = cell_value(alloc, named)?;
    print_value(alloc, &value)
}

/// Writes the line of a cell at the end, without its newline.
pub fn push_cell_text(alloc: Global, out: &mut Vec<u8>, named: &Named) -> Result<(), OutOfMemory>
    ensures { OnOk result (out.new.items ≡ out.old.items ++ cell_text named.now) }
{
    let value = cell_value(alloc, named)?;
    push_value(out, &value)
}

/// The value that a cell prints as.
fn cell_value(alloc: Global, named: &Named) -> Result<Value, OutOfMemory>
    ensures { IfOk result (λ value. value ≡ cell_value named.now) }
{
    match (&named.name, &named.cell) {
        (Name::Record(_), Cell::Record(rec)) => {
            let fields = record_fields(alloc, rec)?;
            of_kind(alloc, Items::new(alloc), "record", fields)
        }
        (Name::Doc(key), Cell::Doc(doc)) => {
            let mut first = Items::new(alloc);
            let c = Value::Text(key.c.copy(alloc)?);
            push_field(alloc, &mut first, "c", Some(c))?;
            let fields = doc_fields(alloc, &key.d, doc)?;
            of_kind(alloc, first, "doc", fields)
        }
        (Name::Stash(key), Cell::Stash(stash)) => {
            let fields = stash_fields(alloc, key, stash)?;
            of_kind(alloc, Items::new(alloc), "stash", fields)
        }
        (Name::Nonce, Cell::Nonce(next)) => {
            let fields = nonce_fields(alloc, *next)?;
            of_kind(alloc, Items::new(alloc), "nonce", fields)
        }
        _ => Ok(Value::Null),
    }
}

/// A cell of that kind with these fields, behind what stands first.
fn of_kind(alloc: Global, first: Fields, kind: &str, fields: Fields) -> Result<Value, OutOfMemory>
    ensures { IfOk result (λ cell. cell ≡ Object (first ++ of_kind kind.now fields)) }
{
    let mut cell = first;
    let kind = Value::Text(Text::from_str(alloc, kind)?);
    push_field(alloc, &mut cell, "cell", Some(kind))?;
    push_field(alloc, &mut cell, "is", Some(Value::Object(fields)))?;
    Ok(Value::Object(cell))
}

fn record_fields(alloc: Global, rec: &Record) -> Result<Fields, OutOfMemory>
    ensures { IfOk result (λ fields. fields ≡ record_fields rec.now) }
{
    let mut fields = Items::new(alloc);
    let id = transaction_value(alloc, rec.id)?;
    push_field(alloc, &mut fields, "_id", Some(id))?;
    push_field(alloc, &mut fields, "i", copy_info(alloc, &rec.info)?)?;
    push_field(alloc, &mut fields, "n", nonce_value(alloc, rec.nonce)?)?;
    push_field(alloc, &mut fields, "o", Some(rec.ops.to_value(alloc)?))?;
    push_field(alloc, &mut fields, "r", revnos_value(alloc, &rec.revnos)?)?;
    let state = Value::Int(i64::from(rec.state.number()));
    push_field(alloc, &mut fields, "s", Some(state))?;
    Ok(fields)
}

fn doc_fields(alloc: Global, id: &DocId, doc: &DocCell) -> Result<Fields, OutOfMemory>
    ensures { IfOk result (λ fields. fields ≡ doc_fields id.now doc.now) }
{
    let mut fields = body_fields(alloc, &doc.body)?;
    insert_field(alloc, &mut fields, "txn-revno", revno_value(doc.revno))?;
    insert_field(
        alloc,
        &mut fields,
        "txn-remove",
        mark_value(alloc, &doc.remove)?,
    )?;
    let queue = queue_value(alloc, doc.queue.as_slice())?;
    insert_field(alloc, &mut fields, "txn-queue", queue)?;
    insert_field(alloc, &mut fields, "_id", Some(id_value(alloc, id)?))?;
    Ok(Items::from_vec(fields))
}

fn stash_fields(alloc: Global, key: &Key, stash: &StashCell) -> Result<Fields, OutOfMemory>
    ensures { IfOk result (λ fields. fields ≡ stash_fields key.now stash.now) }
{
    let mut fields = Items::new(alloc);
    push_field(alloc, &mut fields, "_id", Some(key_value(alloc, key)?))?;
    push_field(
        alloc,
        &mut fields,
        "txn-insert",
        mark_value(alloc, &stash.insert)?,
    )?;
    let queue = queue_value(alloc, stash.queue.as_slice())?;
    push_field(alloc, &mut fields, "txn-queue", queue)?;
    push_field(
        alloc,
        &mut fields,
        "txn-revno",
        Some(Value::Int(stash.revno)),
    )?;
    Ok(fields)
}

fn nonce_fields(alloc: Global, next: u32) -> Result<Fields, OutOfMemory>
    ensures { IfOk result (λ fields. fields ≡ nonce_fields next) }
{
    let mut fields = Items::new(alloc);
    push_field(
        alloc,
        &mut fields,
        "next",
        Some(Value::Int(i64::from(next))),
    )?;
    Ok(fields)
}
