//! All changed parts of an object put at once, so that its fields are copied once.
ghost use Rattle.std.specs.Prelude.{◌≡◌, ◌<◌, ◌≤◌, [], ◌∷◌, ◌++◌, IfOk, OnOk, filter, length, take, drop, true, None, Some};
ghost use Rattle.std.specs.Option.{option_copied};
ghost use Rattle.doc_update.specs.Places.{with_field, field_or_none};
ghost use Rattle.doc_apply.specs.Puts.{placed_all, with_fields, nothing_put, puts_rise, names_rise, precedes_put, precedes_field, count_below, without_own};

use crate::place::{push_copy, with_field};
use doc_update::{fields_of, is_object};
use doc_value::{Field, Fields, Named, OutOfMemory, Text, Value};
use sqlite_items::Items;
use std::alloc::Global;
use std::cmp::Ordering;

/// A part of an object as it is after all changes below it.
#[derive(Drop)]
pub(crate) struct Put {
    pub(crate) part: Text,
    pub(crate) after: Option<Value>,
}

/// What was found with all these parts put: None where it can't take them.
pub(crate) fn place_all(
    alloc: Global,
    puts: Vec<Put>,
    found: Option<&Value>,
) -> Result<Option<Option<Value>>, OutOfMemory>
    ensures { IfOk result (λ made. made ≡ placed_all puts.items (option_copied found.entry)) }
{
    match found {
        None => place_in_nothing(alloc, puts),
        Some(value) => place_in(alloc, puts, value),
    }
}

fn place_in_nothing(alloc: Global, puts: Vec<Put>) -> Result<Option<Option<Value>>, OutOfMemory>
    ensures { IfOk result (λ made. made ≡ placed_all puts.items None) }
{
    if nothing_put(puts.as_slice()) {
        return Ok(Some(None));
    }
    let fields = with_fields(alloc, puts, &[])?;
    Ok(Some(Some(Value::Object(fields))))
}

fn place_in(
    alloc: Global,
    puts: Vec<Put>,
    value: &Value,
) -> Result<Option<Option<Value>>, OutOfMemory>
    ensures { IfOk result (λ made. made ≡ placed_all puts.items (Some value.now)) }
{
    if is_object(value) {
        let fields = with_fields(alloc, puts, fields_of(value))?;
        return Ok(Some(Some(Value::Object(fields))));
    }
    if nothing_put(puts.as_slice()) {
        return Ok(Some(Some(value.copy(alloc)?)));
    }
    Ok(None)
}

fn nothing_put(puts: &[Put]) -> bool
    ensures { result ≡ nothing_put puts.now }
{
    for put in puts {
        if put.after.is_some() {
            return false;
        }
    }
    true
}

/// Copies of the fields with these in their places. What is read has its names in order, and is gone
/// over once; a value made by hand may have them in any, and then takes one field after another.
fn with_fields(alloc: Global, puts: Vec<Put>, fields: &[Field]) -> Result<Fields, OutOfMemory>
    ensures { IfOk result (λ made. made ≡ with_fields puts.items fields.now) }
{
    if puts_rise(puts.as_slice()) && names_rise(fields) {
        merged(alloc, puts, fields)
    } else {
        put_in_turn(alloc, puts, fields)
    }
}

fn puts_rise(puts: &[Put]) -> bool
    ensures { result ≡ puts_rise puts.now }
{
    for i in 0..puts.len() {
        if !precedes_put(&puts[i].part, &puts[i + 1..]) {
            return false;
        }
    }
    true
}

fn precedes_put(part: &Text, rest: &[Put]) -> bool
    ensures { result ≡ precedes_put part.now rest.now }
{
    match rest.first() {
        Some(put) => part.compare(&put.part) == Ordering::Less,
        None => true,
    }
}

fn names_rise(fields: &[Field]) -> bool
    ensures { result ≡ names_rise fields.now }
{
    for i in 0..fields.len() {
        if !precedes_field(&fields[i].name, &fields[i + 1..]) {
            return false;
        }
    }
    true
}

fn precedes_field(name: &Text, rest: &[Field]) -> bool
    ensures { result ≡ precedes_field name.now rest.now }
{
    match rest.first() {
        Some(field) => name.compare(&field.name) == Ordering::Less,
        None => true,
    }
}

fn put_in_turn(alloc: Global, puts: Vec<Put>, fields: &[Field]) -> Result<Fields, OutOfMemory>
    ensures { IfOk result (λ made. made ≡ with_fields puts.items fields.now) }
{
    let mut made = Items::new(alloc);
    push_all(alloc, &mut made, fields)?;
    for put in puts {
        let Put { part, after } = put;
        made = with_field(alloc, &part, after, made.as_slice())?;
    }
    Ok(made)
}

/// The same where parts and names are in order: the fields below each part, then the part.
fn merged(alloc: Global, puts: Vec<Put>, fields: &[Field]) -> Result<Fields, OutOfMemory>
    requires puts { puts_rise puts.items ≡ true }
    requires names { names_rise fields.now ≡ true }
    ensures { IfOk result (λ made. made ≡ with_fields puts.items fields.now) }
{
    let mut made = Items::new(alloc);
    let mut rest = fields;
    for put in puts {
        let Put { part, after } = put;
        let (below, others) = rest.split_at(count_below(rest, &part));
        push_all(alloc, &mut made, below)?;
        rest = without_own(others, &part);
        push_put(&mut made, part, after)?;
    }
    push_all(alloc, &mut made, rest)?;
    Ok(made)
}

/// How many fields stand before the first whose name isn't below.
fn count_below(fields: &[Field], name: &Text) -> usize
    ensures count { result ≡ count_below name.now fields.now }
    ensures within { result ≤ length fields.now }
{
    let mut count = 0;
    for field in fields {
        if field.name.compare(name) != Ordering::Less {
            return count;
        }
        count += 1;
    }
    count
}

/// The fields without the first, where it has that name.
fn without_own<'a>(fields: &'a [Field], name: &Text) -> &'a [Field]
    ensures { result.now ≡ without_own name.now fields.now }
{
    match fields.split_first() {
        Some((field, rest)) if field.name.equals(name) => rest,
        _ => fields,
    }
}

fn push_put(made: &mut Fields, name: Text, after: Option<Value>) -> Result<(), OutOfMemory>
    ensures { OnOk result (made.new ≡ made.old ++ field_or_none name after) }
{
    match after {
        Some(value) => made.push(Named { name, value }),
        None => Ok(()),
    }
}

fn push_all(alloc: Global, made: &mut Fields, fields: &[Field]) -> Result<(), OutOfMemory>
    ensures { OnOk result (made.new ≡ made.old ++ fields.now) }
{
    for field in fields {
        push_copy(alloc, made, field)?;
    }
    Ok(())
}
