ghost use Rattle.std.specs.Prelude.{◌≡◌, ◌≢◌, IfOk, IfErr, OnOk, Some, None, Err, true, map, nat_lt};
ghost use Rattle.std.specs.Str.{is_utf8};
ghost use Rattle.serde_json.specs.Data.{depth, items_depth, members_depth};
ghost use Rattle.serde_json.specs.View.{view, items_view, members_view};
ghost use Rattle.doc_value.specs.Fields.{judged};
ghost use Rattle.doc_value.specs.JsonFaults.{has_bad_name, some_item_has_bad_name, some_member_has_bad_name, is_whole, items_are_whole, members_are_whole};
ghost use Rattle.doc_value.specs.JsonValue.{value_of, values_of, fields_of};
ghost use Rattle.doc_value.specs.Sound.{is_sound, all_sound, fields_sound};
ghost use Rattle.doc_value.specs.Readable.{IsReadable};
ghost use Rattle.doc_value.specs.Syntax.{json_in, value_in};

use crate::fault::ValueFault;
use crate::text::{OutOfMemory, Text};
use crate::value::{Field, Fields, Named, Value};
use serde_json::{Map, Value as Json};
use sqlite_items::Items;
use std::alloc::Global;

/// The deepest nesting of lists and objects that a value may have.
const MAX_NESTING: u32 = 100;

/// The value of a JSON text. Of several faults the first in the order of `ValueFault` is answered.
/// A repeated name keeps its last value, and faults inside the value that it had before don't count.
pub fn read_value(alloc: Global, bytes: &[u8]) -> Result<Value, ValueFault>
    ensures exact { result ≢ Err ValueFault.OutOfMemory → result ≡ value_in bytes.now }
    ensures readable { IfOk result IsReadable }
{
    let json = parse(alloc, bytes)?;
    if is_deeper(&json, MAX_NESTING) {
        return Err(ValueFault::TooDeep);
    }
    if has_refused_name(&json) {
        return Err(ValueFault::BadName);
    }
    if !has_whole_numbers(&json) {
        return Err(ValueFault::NotWhole);
    }
    Ok(convert(alloc, &json)?)
}

/// The JSON that the bytes are.
fn parse(alloc: Global, bytes: &[u8]) -> Result<Json, ValueFault>
    ensures ok { IfOk result (λ json. json_in bytes.now ≡ Some (view json)) }
    ensures err { IfErr result (λ fault. fault ≢ ValueFault.OutOfMemory
        → (fault ≡ ValueFault.NotJson) × (json_in bytes.now ≡ None)) }
{
    let Ok(text) = std::str::from_utf8(bytes) else {
        return Err(ValueFault::NotJson);
    };
    match Json::from_str(alloc, text) {
        Ok(json) => Ok(json),
        Err(error) if error.is_memory() => Err(ValueFault::OutOfMemory),
        Err(_) => Err(ValueFault::NotJson),
    }
}

#[cycle(json_depth)]
fn is_deeper(json: &Json, limit: u32) -> bool
    ensures { result ≡ nat_lt limit (depth (view json.now)) }
{
    match json {
        Json::Null => false,
        Json::Bool(_) => false,
        Json::Number(_) => false,
        Json::String(_) => false,
        Json::Array(items) => limit == 0 || some_item_is_deeper(items, limit - 1),
        Json::Object(members) => limit == 0 || some_member_is_deeper(members, limit - 1),
    }
}

#[cycle(json_depth)]
fn some_item_is_deeper(items: &Vec<Json>, limit: u32) -> bool
    ensures { result ≡ nat_lt limit (items_depth (items_view items.now.items)) }
{
    for item in items {
        if is_deeper(item, limit) {
            return true;
        }
    }
    false
}

#[cycle(json_depth)]
fn some_member_is_deeper(members: &Map<String, Json>, limit: u32) -> bool
    ensures { result ≡ nat_lt limit (members_depth (members_view members.now.entries)) }
{
    for (_, value) in members {
        if is_deeper(value, limit) {
            return true;
        }
    }
    false
}

#[cycle(json_name)]
fn has_refused_name(json: &Json) -> bool
    ensures { result ≡ has_bad_name (view json.now) }
{
    match json {
        Json::Null => false,
        Json::Bool(_) => false,
        Json::Number(_) => false,
        Json::String(_) => false,
        Json::Array(items) => some_item_has_refused_name(items),
        Json::Object(members) => some_member_has_refused_name(members),
    }
}

#[cycle(json_name)]
fn some_item_has_refused_name(items: &Vec<Json>) -> bool
    ensures { result ≡ some_item_has_bad_name (items_view items.now.items) }
{
    for item in items {
        if has_refused_name(item) {
            return true;
        }
    }
    false
}

#[cycle(json_name)]
fn some_member_has_refused_name(members: &Map<String, Json>) -> bool
    ensures { result ≡ some_member_has_bad_name (members_view members.now.entries) }
{
    for (name, value) in members {
        let bytes = name.as_bytes();
        if bytes.is_empty() || bytes.contains(&0) || has_refused_name(value) {
            return true;
        }
    }
    false
}

#[cycle(json_numbers)]
fn has_whole_numbers(json: &Json) -> bool
    ensures { result ≡ is_whole (view json.now) }
{
    match json {
        Json::Null => true,
        Json::Bool(_) => true,
        Json::Number(number) => number.as_i64().is_some(),
        Json::String(_) => true,
        Json::Array(items) => items_have_whole_numbers(items),
        Json::Object(members) => members_have_whole_numbers(members),
    }
}

#[cycle(json_numbers)]
fn items_have_whole_numbers(items: &Vec<Json>) -> bool
    ensures { result ≡ items_are_whole (items_view items.now.items) }
{
    for item in items {
        if !has_whole_numbers(item) {
            return false;
        }
    }
    true
}

#[cycle(json_numbers)]
fn members_have_whole_numbers(members: &Map<String, Json>) -> bool
    ensures { result ≡ members_are_whole (members_view members.now.entries) }
{
    for (_, value) in members {
        if !has_whole_numbers(value) {
            return false;
        }
    }
    true
}

#[cycle(convert)]
fn convert(alloc: Global, json: &Json) -> Result<Value, OutOfMemory>
    ensures value { IfOk result (λ value. value ≡ value_of (view json.now)) }
    ensures sound { OnOk result (is_sound (value_of (view json.now)) ≡ true) }
{
    match json {
        Json::Null => Ok(Value::Null),
        Json::Bool(truth) => Ok(Value::Bool(*truth)),
        Json::Number(number) => Ok(Value::Int(number.as_i64().unwrap_or(0))),
        Json::String(text) => Ok(Value::Text(copy_text(alloc, text.as_str())?)),
        Json::Array(items) => Ok(Value::List(convert_items(alloc, items)?)),
        Json::Object(members) => Ok(Value::Object(convert_members(alloc, members)?)),
    }
}

#[cycle(convert)]
fn convert_items(alloc: Global, items: &Vec<Json>) -> Result<Items<Value>, OutOfMemory>
    ensures value { IfOk result (λ values. values ≡ values_of (items_view items.now.items)) }
    ensures sound { OnOk result (all_sound (map is_sound (values_of (items_view items.now.items)))
        ≡ true) }
{
    let mut values = Items::new(alloc);
    for item in items {
        values.push(convert(alloc, item)?)?;
    }
    Ok(values)
}

#[cycle(convert)]
fn convert_members(alloc: Global, members: &Map<String, Json>) -> Result<Fields, OutOfMemory>
    ensures value { IfOk result (λ fields. fields ≡ fields_of (members_view members.now.entries)) }
    ensures sound { OnOk result (fields_sound (map (judged is_sound)
        (fields_of (members_view members.now.entries))) ≡ true) }
{
    let mut fields = Items::new(alloc);
    for (name, value) in members {
        let name = copy_text(alloc, name.as_str())?;
        let value = convert(alloc, value)?;
        fields.push(Named { name, value })?;
    }
    Ok(fields)
}

fn copy_text(alloc: Global, text: &str) -> Result<Text, OutOfMemory>
    ensures value { IfOk result (λ copy. copy ≡ text.now) }
    ensures sound { is_utf8 text.now ≡ true }
{
    Text::from_str(alloc, text)
}
