//! Reading of one operation.
ghost use Rattle.std.specs.Prelude.{◌≡◌, IfOk};
ghost use Rattle.std.specs.Option.{option_copied};
ghost use Rattle.doc_query.specs.Syntax.{query_in};
ghost use Rattle.doc_update.specs.Syntax.{update_in};
ghost use Rattle.doc_value.specs.Bodies.{body_in};
ghost use Rattle.doc_value.specs.declared.value.Value.{out-Value};
ghost use Rattle.txn_record.specs.Syntax.{Reads, op_in, has_form, has_only_fields, are_fields, is_field_name, collection_field, id_field, assert_field, insert_field, update_field, key_of, is_empty_text, is_removal, fault_of_parts, has_several_changes, is_missing_or_absent, is_some_too_deep, is_too_deep, is_the_text, change_of, assert_of, or_bad_insert, or_bad_update, or_bad_assert};
ghost use Rattle.txn_record.specs.Transactions.{IsSoundOp, InsertsBody};

use crate::fault::{OpFault, Refusal};
use crate::op::{Assert, Change, Op};
use doc_query::{Query, QueryFault};
use doc_update::{Update, UpdateFault};
use doc_value::{BodyFault, DocId, Field, Value, read_body};
use std::alloc::Global;
use txn_key::Key;

/// The deepest nesting of lists and objects in a part of an operation.
const MAX_PART_NESTING: u32 = 90;

/// The operation that the value is, or its first fault.
pub(crate) fn read_op(alloc: Global, value: &Value) -> Result<Op, Refusal>
    ensures exact { Reads result (op_in value.now) }
    ensures sound { IfOk result IsSoundOp }
{
    if !has_form(value) {
        return Err(Refusal::Fault(OpFault::BadOperation));
    }
    let key = read_key(alloc, value)?;
    if let Some(why) = fault_of_parts(value) {
        return Err(Refusal::Fault(why));
    }
    let change = read_change(alloc, &key.d, value)?;
    let assert = read_assert(alloc, value)?;
    Ok(Op {
        key,
        assert,
        change,
    })
}

/// Whether it is an object with fields of operations alone, `c` a text and `r` a truth value.
fn has_form(value: &Value) -> bool
    ensures { result ≡ has_form value.now }
{
    has_only_fields(value)
        && matches!(value.field(b"c"), None | Some(Value::Text(_)))
        && matches!(value.field(b"r"), None | Some(Value::Bool(_)))
}

fn has_only_fields(value: &Value) -> bool
    ensures { result ≡ has_only_fields (out-Value value.now) }
{
    match value {
        Value::Object(fields) => are_fields(fields.as_slice()),
        _ => false,
    }
}

fn are_fields(fields: &[Field]) -> bool
    ensures { result ≡ are_fields fields.now }
{
    for field in fields {
        if !is_field_name(field.name.as_bytes()) {
            return false;
        }
    }
    true
}

fn is_field_name(name: &[u8]) -> bool
    ensures { result ≡ is_field_name name.now }
{
    name == b"a".as_slice()
        || name == b"c".as_slice()
        || name == b"d".as_slice()
        || name == b"i".as_slice()
        || name == b"r".as_slice()
        || name == b"u".as_slice()
}

fn read_key(alloc: Global, value: &Value) -> Result<Key, Refusal>
    ensures { Reads result (key_of (collection_field value.now) (id_field value.now)) }
{
    let (Some(c), Some(d)) = (value.field(b"c"), value.field(b"d")) else {
        return Err(Refusal::Fault(OpFault::KeyMissing));
    };
    if is_empty_text(c) || matches!(d, Value::Null) {
        return Err(Refusal::Fault(OpFault::KeyMissing));
    }
    match Key::read(alloc, c, d)? {
        Some(key) => Ok(key),
        None => Err(Refusal::Fault(OpFault::BadKey)),
    }
}

fn is_empty_text(value: &Value) -> bool
    ensures { result ≡ is_empty_text (out-Value value.now) }
{
    match value {
        Value::Text(text) => text.as_bytes().is_empty(),
        _ => false,
    }
}

/// The first fault in which parts stand together, or in how deep they are.
fn fault_of_parts(value: &Value) -> Option<OpFault>
    ensures { result ≡
        fault_of_parts (assert_field value.now) (insert_field value.now) (update_field value.now)
        (is_removal value.now) }
{
    let assert = value.field(b"a");
    let insert = value.field(b"i");
    let update = value.field(b"u");
    let removes = is_removal(value);
    if has_several_changes(insert, update, removes) {
        return Some(OpFault::SeveralChanges);
    }
    if !(assert.is_some() || insert.is_some() || update.is_some() || removes) {
        return Some(OpFault::NothingSet);
    }
    if insert.is_some() && !is_missing_or_absent(assert) {
        return Some(OpFault::InsertAssert);
    }
    if is_some_too_deep(assert, insert, update) {
        return Some(OpFault::TooDeep);
    }
    None
}

fn has_several_changes(insert: Option<&Value>, update: Option<&Value>, removes: bool) -> bool
    ensures { result ≡
        has_several_changes (option_copied insert.entry) (option_copied update.entry) removes }
{
    (insert.is_some() && update.is_some()) || ((insert.is_some() || update.is_some()) && removes)
}

fn is_some_too_deep(assert: Option<&Value>, insert: Option<&Value>, update: Option<&Value>) -> bool
    ensures { result ≡
        is_some_too_deep (option_copied assert.entry) (option_copied insert.entry)
        (option_copied update.entry) }
{
    is_too_deep(assert) || is_too_deep(insert) || is_too_deep(update)
}

fn is_removal(value: &Value) -> bool
    ensures { result ≡ is_removal value.now }
{
    matches!(value.field(b"r"), Some(Value::Bool(true)))
}

fn is_missing_or_absent(assert: Option<&Value>) -> bool
    ensures { result ≡ is_missing_or_absent (option_copied assert.entry) }
{
    match assert {
        Some(value) => is_the_text(value, b"d-"),
        None => true,
    }
}

fn is_too_deep(part: Option<&Value>) -> bool
    ensures { result ≡ is_too_deep (option_copied part.entry) }
{
    match part {
        Some(value) => value.is_deeper_than(MAX_PART_NESTING),
        None => false,
    }
}

fn is_the_text(value: &Value, word: &[u8]) -> bool
    ensures { result ≡ is_the_text word.now (out-Value value.now) }
{
    match value {
        Value::Text(text) => text.as_bytes() == word,
        _ => false,
    }
}

/// The change that `i`, `u` and `r` ask for, where no two of them do.
fn read_change(alloc: Global, id: &DocId, value: &Value) -> Result<Change, Refusal>
    ensures exact { Reads result
        (change_of id.now (insert_field value.now) (update_field value.now)
        (is_removal value.now)) }
    ensures body { IfOk result InsertsBody }
{
    match (value.field(b"i"), value.field(b"u")) {
        (Some(insert), _) => read_insert(alloc, id, insert),
        (None, Some(update)) => read_update(alloc, update),
        (None, None) => {
            if is_removal(value) {
                Ok(Change::Remove)
            } else {
                Ok(Change::Nothing)
            }
        }
    }
}

fn read_insert(alloc: Global, id: &DocId, value: &Value) -> Result<Change, Refusal>
    ensures exact { Reads result (or_bad_insert (body_in id.now value.now)) }
    ensures body { IfOk result InsertsBody }
{
    match read_body(alloc, value, id) {
        Ok(body) => Ok(Change::Insert(body)),
        Err(BodyFault::OutOfMemory) => Err(Refusal::OutOfMemory),
        Err(_) => Err(Refusal::Fault(OpFault::BadInsert)),
    }
}

fn read_update(alloc: Global, value: &Value) -> Result<Change, Refusal>
    ensures exact { Reads result (or_bad_update (update_in value.now)) }
    ensures body { IfOk result InsertsBody }
{
    match Update::read(alloc, value) {
        Ok(update) => Ok(Change::Update(update)),
        Err(UpdateFault::OutOfMemory) => Err(Refusal::OutOfMemory),
        Err(_) => Err(Refusal::Fault(OpFault::BadUpdate)),
    }
}

fn read_assert(alloc: Global, value: &Value) -> Result<Assert, Refusal>
    ensures { Reads result (assert_of (assert_field value.now)) }
{
    let Some(assert) = value.field(b"a") else {
        return Ok(Assert::Nothing);
    };
    if is_the_text(assert, b"d+") {
        return Ok(Assert::Exists);
    }
    if is_the_text(assert, b"d-") {
        return Ok(Assert::Missing);
    }
    read_query(alloc, assert)
}

fn read_query(alloc: Global, value: &Value) -> Result<Assert, Refusal>
    ensures { Reads result (or_bad_assert (query_in value.now)) }
{
    match Query::read(alloc, value) {
        Ok(query) => Ok(Assert::Query(query)),
        Err(QueryFault::OutOfMemory) => Err(Refusal::OutOfMemory),
        Err(_) => Err(Refusal::Fault(OpFault::BadAssert)),
    }
}
