ghost use Rattle.std.specs.Prelude.{◌≡◌, ◌≢◌, IfOk, Err};
ghost use Rattle.std.specs.List.{list_all};
ghost use Rattle.std.specs.Option.{option_copied};
ghost use Rattle.doc_value.specs.declared.value.Value.{out-Value};
ghost use Rattle.txn_script.specs.Statements.{is_skipped, is_blank_byte, line_in, statement_of_value, statement_of_fields, statement_of_one, is_named, is_cell_line, placing, submission_in, id_in, is_too_deep, doc_in, key_of, go_in, has_no_fields, resume_in, asked, word_in};
ghost use Rattle.cell_text.specs.Syntax.{cell_in};

use crate::fault::ScriptFault;
use crate::plan::GoPlan;
use cell_text::read_cell_text;
use doc_value::{BodyFault, Field, OutOfMemory, Value, read_body, read_value};
use std::alloc::Global;
use store_trait::{Cell, Name, Named};
use txn_key::{Key, TxnId};
use txn_record::Ops;

/// The deepest nesting of lists and objects in what is noted with a transaction.
const MAX_INFO_NESTING: u32 = 90;

/// A statement of a script.
#[derive(Drop)]
pub enum Statement {
    /// Places a document with this body.
    Doc {
        key: Key,
        body: Value,
    },
    /// Places a cell under its name.
    Place {
        name: Name,
        cell: Cell,
    },
    /// Adds a transaction to the batch.
    Submit {
        id: TxnId,
        ops: Ops,
        info: Option<Value>,
    },
    /// Runs the batch.
    Go(GoPlan),
    /// Settles a transaction, or all of them.
    Resume(Option<TxnId>),
    /// Takes away what no transaction needs.
    Prune,
    /// Takes away what names transactions that are lost.
    Purge,
    /// Tells whether the content is sound.
    Audit,
    /// Prints the documents.
    Show,
    /// Prints the cells.
    Export,
    /// Prints the recorded order.
    Order,
}

impl Statement {
    /// An equal statement.
    pub fn copy(&self, alloc: Global) -> Result<Statement, OutOfMemory>
        ensures { IfOk result (λ copy. copy ≡ self.now) }
    {
        match self {
            Statement::Doc { key, body } => {
                let key = key.copy(alloc)?;
                let body = body.copy(alloc)?;
                Ok(Statement::Doc { key, body })
            }
            Statement::Place { name, cell } => {
                let name = name.copy(alloc)?;
                let cell = cell.copy(alloc)?;
                Ok(Statement::Place { name, cell })
            }
            Statement::Submit { id, ops, info } => {
                let ops = ops.copy(alloc)?;
                let info = copy_info(alloc, info.as_ref())?;
                Ok(Statement::Submit { id: *id, ops, info })
            }
            Statement::Go(plan) => Ok(Statement::Go(plan.copy(alloc)?)),
            Statement::Resume(id) => Ok(Statement::Resume(*id)),
            Statement::Prune => Ok(Statement::Prune),
            Statement::Purge => Ok(Statement::Purge),
            Statement::Audit => Ok(Statement::Audit),
            Statement::Show => Ok(Statement::Show),
            Statement::Export => Ok(Statement::Export),
            Statement::Order => Ok(Statement::Order),
        }
    }
}

/// The statement of a line, or None where the line is blank or a comment.
pub fn read_line(alloc: Global, bytes: &[u8]) -> Result<Option<Statement>, ScriptFault>
    ensures exact { result ≢ Err ScriptFault.OutOfMemory → result ≡ line_in bytes.now }
{
    if is_skipped(bytes) {
        return Ok(None);
    }
    let value = read_value(alloc, bytes)?;
    let statement = read_statement(alloc, &value)?;
    Ok(Some(statement))
}

/// Blanks, tabs and carriage returns alone, or a comment.
fn is_skipped(bytes: &[u8]) -> bool
    ensures { result ≡ is_skipped bytes.now }
{
    bytes.starts_with(b"#") || is_blank(bytes)
}

fn is_blank(bytes: &[u8]) -> bool
    ensures { result ≡ list_all is_blank_byte bytes.now }
{
    for byte in bytes {
        if !is_blank_byte(*byte) {
            return false;
        }
    }
    true
}

/// A blank, a tab or a carriage return.
fn is_blank_byte(byte: u8) -> bool
    ensures { result ≡ is_blank_byte byte }
{
    byte == b' ' || byte == b'\t' || byte == b'\r'
}

fn read_statement(alloc: Global, value: &Value) -> Result<Statement, ScriptFault>
    ensures { result ≢ Err ScriptFault.OutOfMemory
        → result ≡ statement_of_value value.now (out-Value value.now) }
{
    let Value::Object(fields) = value else {
        return Err(ScriptFault::BadStatement);
    };
    if is_cell_line(fields.as_slice()) {
        return read_cell(alloc, value);
    }
    read_fields(alloc, fields.as_slice())
}

fn is_cell_line(fields: &[Field]) -> bool
    ensures { result ≡ is_cell_line fields.now }
{
    for field in fields {
        if is_named(field, b"cell") {
            return true;
        }
    }
    false
}

fn read_cell(alloc: Global, value: &Value) -> Result<Statement, ScriptFault>
    ensures { result ≢ Err ScriptFault.OutOfMemory → result ≡ placing (cell_in value.now) }
{
    let Named { name, cell } = read_cell_text(alloc, value)?;
    Ok(Statement::Place { name, cell })
}

/// The fields stand in byte order of their names.
fn read_fields(alloc: Global, fields: &[Field]) -> Result<Statement, ScriptFault>
    ensures { result ≢ Err ScriptFault.OutOfMemory → result ≡ statement_of_fields fields.now }
{
    match fields {
        [field] => read_field(alloc, field),
        [body, doc] if is_named(body, b"body") && is_named(doc, b"doc") => {
            read_doc(alloc, &doc.value, &body.value)
        }
        [ops, txn] if is_named(ops, b"ops") && is_named(txn, b"txn") => {
            read_submission(alloc, &txn.value, None, &ops.value)
        }
        [info, ops, txn]
            if is_named(info, b"info") && is_named(ops, b"ops") && is_named(txn, b"txn") => {
            read_submission(alloc, &txn.value, Some(&info.value), &ops.value)
        }
        _ => Err(ScriptFault::BadStatement),
    }
}

fn read_field(alloc: Global, field: &Field) -> Result<Statement, ScriptFault>
    ensures { result ≢ Err ScriptFault.OutOfMemory → result ≡ statement_of_one field.now }
{
    if is_named(field, b"go") {
        read_go(alloc, &field.value)
    } else if is_named(field, b"resume") {
        read_resume(&field.value)
    } else {
        read_word(field.name.as_bytes(), &field.value)
    }
}

fn is_named(field: &Field, name: &[u8]) -> bool
    ensures { result ≡ is_named field.now name.now }
{
    field.name.as_bytes() == name
}

fn read_doc(alloc: Global, place: &Value, body: &Value) -> Result<Statement, ScriptFault>
    ensures { result ≢ Err ScriptFault.OutOfMemory → result ≡ doc_in place.now body.now }
{
    let Some(key) = read_key(alloc, place)? else {
        return Err(ScriptFault::BadBody);
    };
    match read_body(alloc, body, &key.d) {
        Ok(body) => Ok(Statement::Doc { key, body }),
        Err(BodyFault::OutOfMemory) => Err(ScriptFault::OutOfMemory),
        Err(_) => Err(ScriptFault::BadBody),
    }
}

/// The key that a list of a collection and an id names.
fn read_key(alloc: Global, place: &Value) -> Result<Option<Key>, OutOfMemory>
    ensures { IfOk result (λ key. key ≡ key_of (out-Value place.now)) }
{
    let Value::List(parts) = place else {
        return Ok(None);
    };
    match parts.as_slice() {
        [c, d] => Key::read(alloc, c, d),
        _ => Ok(None),
    }
}

fn read_submission(
    alloc: Global,
    id: &Value,
    info: Option<&Value>,
    ops: &Value,
) -> Result<Statement, ScriptFault>
    ensures { result ≢ Err ScriptFault.OutOfMemory
        → result ≡ submission_in id.now (option_copied info.entry) ops.now }
{
    let Some(id) = read_id(id) else {
        return Err(ScriptFault::BadId);
    };
    if is_too_deep(info) {
        return Err(ScriptFault::BadInfo);
    }
    let ops = Ops::read(alloc, ops)?;
    let info = copy_info(alloc, info)?;
    Ok(Statement::Submit { id, ops, info })
}

fn read_id(id: &Value) -> Option<TxnId>
    ensures { result ≡ id_in (out-Value id.now) }
{
    match id {
        Value::Text(text) => TxnId::read(text.as_bytes()),
        _ => None,
    }
}

fn is_too_deep(info: Option<&Value>) -> bool
    ensures { result ≡ is_too_deep (option_copied info.entry) }
{
    match info {
        Some(info) => info.is_deeper_than(MAX_INFO_NESTING),
        None => false,
    }
}

fn copy_info(alloc: Global, info: Option<&Value>) -> Result<Option<Value>, OutOfMemory>
    ensures { IfOk result (λ copy. copy ≡ option_copied info.entry) }
{
    match info {
        Some(info) => Ok(Some(info.copy(alloc)?)),
        None => Ok(None),
    }
}

/// A plan that says anything is not built yet.
fn read_go(alloc: Global, value: &Value) -> Result<Statement, ScriptFault>
    ensures { result ≢ Err ScriptFault.OutOfMemory → result ≡ go_in value.now }
{
    let plan = GoPlan::read(alloc, value)?;
    if !has_no_fields(value) {
        return Err(ScriptFault::NotBuilt);
    }
    Ok(Statement::Go(plan))
}

fn has_no_fields(value: &Value) -> bool
    ensures { result ≡ has_no_fields (out-Value value.now) }
{
    match value {
        Value::Object(fields) => fields.as_slice().is_empty(),
        _ => false,
    }
}

/// An id, or `all`.
fn read_resume(value: &Value) -> Result<Statement, ScriptFault>
    ensures { result ≡ resume_in value.now }
{
    let Value::Text(text) = value else {
        return Err(ScriptFault::BadId);
    };
    if text.as_bytes() == b"all".as_slice() {
        return Ok(Statement::Resume(None));
    }
    match TxnId::read(text.as_bytes()) {
        Some(id) => Ok(Statement::Resume(Some(id))),
        None => Err(ScriptFault::BadId),
    }
}

fn read_word(name: &[u8], value: &Value) -> Result<Statement, ScriptFault>
    ensures { result ≡ asked name.now (out-Value value.now) }
{
    match value {
        Value::Bool(true) => word(name).ok_or(ScriptFault::BadStatement),
        _ => Err(ScriptFault::BadStatement),
    }
}

/// The statement that is a word with `true`.
fn word(name: &[u8]) -> Option<Statement>
    ensures { result ≡ word_in name.now }
{
    if name == b"prune".as_slice() {
        Some(Statement::Prune)
    } else if name == b"purge".as_slice() {
        Some(Statement::Purge)
    } else if name == b"audit".as_slice() {
        Some(Statement::Audit)
    } else if name == b"show".as_slice() {
        Some(Statement::Show)
    } else if name == b"export".as_slice() {
        Some(Statement::Export)
    } else if name == b"order".as_slice() {
        Some(Statement::Order)
    } else {
        None
    }
}
