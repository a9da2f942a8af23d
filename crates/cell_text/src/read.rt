//! The cell that a value is.
ghost use Rattle.std.specs.Prelude.{◌≡◌, ◌≢◌, filter, not, Err, IfOk};
ghost use Rattle.std.specs.List.{list_all};
ghost use Rattle.std.specs.Option.{option_copied};
ghost use Rattle.doc_value.specs.declared.value.Value.{out-Value};
ghost use Rattle.cell_text.specs.Fields.{fields_in, has_only};
ghost use Rattle.cell_text.specs.Parts.{text_in};
ghost use Rattle.cell_text.specs.Storable.{IsStorable};
ghost use Rattle.cell_text.specs.Syntax.{cell_in, cell_of_fields, doc_in, doc_key_in, doc_under, is_doc_kind, is_own_name, is_record_name, is_stash_name, named_nonce, named_record, nonce_of_fields, of_kind_in, or_bad, record_in, record_of, stash_cell_in, stash_in, without_own};

use crate::fault::CellFault;
use crate::fields::is_named;
use crate::parts::{
    read_counter, read_id, read_info, read_key, read_mark, read_ops, read_queue, read_record_nonce,
    read_revno, read_revnos, read_stash_key, read_stash_revno, read_state,
};
use doc_value::{BodyFault, Field, Fields, OutOfMemory, Value, read_body};
use sqlite_items::Items;
use std::alloc::Global;
use store_trait::{Cell, DocCell, Name, Named, StashCell};
use txn_key::Key;
use txn_record::Record;

/// The cell that the value is, under its name: one that is read again from what it prints as.
#[tactic(auto, unfolding(crate::specs::Syntax::cell_in))]
pub fn read_cell_text(alloc: Global, value: &Value) -> Result<Named, CellFault>
    ensures exact { result ≢ Err CellFault.OutOfMemory → result ≡ or_bad (cell_in value.now) }
    ensures storable { IfOk result IsStorable }
{
    match value {
        Value::Object(fields) => read_fields(alloc, fields.as_slice()),
        _ => Err(CellFault::Bad),
    }
}

/// The fields stand in byte order of their names.
fn read_fields(alloc: Global, fields: &[Field]) -> Result<Named, CellFault>
    ensures { result ≢ Err CellFault.OutOfMemory → result ≡ or_bad (cell_of_fields fields.now) }
{
    match fields {
        [kind, is] if is_named(kind, b"cell") && is_named(is, b"is") => {
            read_kind(alloc, &kind.value, &is.value)
        }
        [c, kind, is]
            if is_named(c, b"c")
                && is_named(kind, b"cell")
                && is_named(is, b"is")
                && is_doc_kind(&kind.value) => { read_doc(alloc, &c.value, &is.value) }
        _ => Err(CellFault::Bad),
    }
}

fn is_doc_kind(kind: &Value) -> bool
    ensures { result ≡ is_doc_kind (out-Value kind.now) }
{
    match kind {
        Value::Text(kind) => kind.as_bytes() == b"doc".as_slice(),
        _ => false,
    }
}

/// A cell of a kind that is written without a collection.
fn read_kind(alloc: Global, kind: &Value, is: &Value) -> Result<Named, CellFault>
    ensures { result ≢ Err CellFault.OutOfMemory
        → result ≡ or_bad (text_in (of_kind_in is.now) (out-Value kind.now)) }
{
    let Value::Text(kind) = kind else {
        return Err(CellFault::Bad);
    };
    let kind = kind.as_bytes();
    if kind == b"record".as_slice() {
        return read_record(alloc, is);
    }
    if kind == b"stash".as_slice() {
        return read_stash(alloc, is);
    }
    if kind == b"nonce".as_slice() {
        return read_nonce(is);
    }
    Err(CellFault::Bad)
}

fn read_record(alloc: Global, is: &Value) -> Result<Named, CellFault>
    ensures { result ≢ Err CellFault.OutOfMemory
        → result ≡ or_bad (named_record (record_in is.now)) }
{
    if !has_record_fields(is) {
        return Err(CellFault::Bad);
    }
    let record = read_record_parts(alloc, is)?;
    Ok(Named {
        name: Name::Record(record.id),
        cell: Cell::Record(record),
    })
}

#[tactic(auto, unfolding(crate::specs::Syntax::record_of))]
fn read_record_parts(alloc: Global, is: &Value) -> Result<Record, CellFault>
    ensures { result ≢ Err CellFault.OutOfMemory → result ≡ or_bad (record_of is.now) }
{
    let id = read_id(is.field(b"_id"))?;
    let info = read_info(alloc, is.field(b"i"))?;
    let nonce = read_record_nonce(is.field(b"n"))?;
    let ops = read_ops(alloc, is.field(b"o"))?;
    let revnos = read_revnos(alloc, is.field(b"r"))?;
    let state = read_state(is.field(b"s"))?;
    Ok(Record {
        id,
        state,
        info,
        ops,
        nonce,
        revnos,
    })
}

fn has_record_fields(is: &Value) -> bool
    ensures { result ≡ has_only is_record_name (out-Value is.now) }
{
    match is {
        Value::Object(fields) => are_record_fields(fields.as_slice()),
        _ => false,
    }
}

fn are_record_fields(fields: &[Field]) -> bool
    ensures { result ≡ list_all (λ field. is_record_name field.name) fields.now }
{
    for field in fields {
        if !is_record_name(field.name.as_bytes()) {
            return false;
        }
    }
    true
}

fn is_record_name(name: &[u8]) -> bool
    ensures { result ≡ is_record_name name.now }
{
    name == b"_id".as_slice()
        || name == b"i".as_slice()
        || name == b"n".as_slice()
        || name == b"o".as_slice()
        || name == b"r".as_slice()
        || name == b"s".as_slice()
}

#[tactic(auto, unfolding(crate::specs::Syntax::doc_in))]
fn read_doc(alloc: Global, c: &Value, is: &Value) -> Result<Named, CellFault>
    ensures { result ≢ Err CellFault.OutOfMemory → result ≡ or_bad (doc_in c.now is.now) }
{
    let key = read_doc_key(alloc, c, is.field(b"_id"))?;
    let doc = read_doc_cell(alloc, &key, is)?;
    Ok(Named {
        name: Name::Doc(key),
        cell: Cell::Doc(doc),
    })
}

fn read_doc_key(alloc: Global, c: &Value, id: Option<&Value>) -> Result<Key, CellFault>
    ensures { result ≢ Err CellFault.OutOfMemory
        → result ≡ or_bad (doc_key_in c.now (option_copied id.entry)) }
{
    match id {
        Some(id) => read_key(alloc, c, id),
        None => Err(CellFault::Bad),
    }
}

#[tactic(auto, unfolding(crate::specs::Syntax::doc_under))]
fn read_doc_cell(alloc: Global, key: &Key, is: &Value) -> Result<DocCell, CellFault>
    ensures { result ≢ Err CellFault.OutOfMemory → result ≡ or_bad (doc_under key.now is.now) }
{
    let rest = without_own(alloc, is)?;
    let body = match read_body(alloc, &rest, &key.d) {
        Ok(body) => body,
        Err(BodyFault::OutOfMemory) => return Err(CellFault::OutOfMemory),
        Err(_) => return Err(CellFault::Bad),
    };
    let revno = read_revno(is.field(b"txn-revno"))?;
    let queue = read_queue(alloc, is.field(b"txn-queue"))?;
    let remove = read_mark(is.field(b"txn-remove"))?;
    Ok(DocCell {
        body,
        revno,
        queue,
        remove,
    })
}

/// What a document has beside its own fields.
fn without_own(alloc: Global, is: &Value) -> Result<Value, OutOfMemory>
    ensures { IfOk result (λ rest. rest ≡ without_own (out-Value is.now)) }
{
    let mut rest = Items::new(alloc);
    if let Value::Object(fields) = is {
        rest = other_fields(alloc, fields.as_slice())?;
    }
    Ok(Value::Object(rest))
}

fn other_fields(alloc: Global, fields: &[Field]) -> Result<Fields, OutOfMemory>
    ensures { IfOk result (λ rest.
        rest ≡ filter (λ field. not (is_own_name field.name)) fields.now) }
{
    let mut rest = Items::new(alloc);
    for field in fields {
        if !is_own_name(field.name.as_bytes()) {
            rest.push(field.copy(alloc)?)?;
        }
    }
    Ok(rest)
}

fn is_own_name(name: &[u8]) -> bool
    ensures { result ≡ is_own_name name.now }
{
    name == b"_id".as_slice()
        || name == b"txn-queue".as_slice()
        || name == b"txn-remove".as_slice()
        || name == b"txn-revno".as_slice()
}

#[tactic(auto, unfolding(crate::specs::Syntax::stash_in))]
fn read_stash(alloc: Global, is: &Value) -> Result<Named, CellFault>
    ensures { result ≢ Err CellFault.OutOfMemory → result ≡ or_bad (stash_in is.now) }
{
    if !has_stash_fields(is) {
        return Err(CellFault::Bad);
    }
    let key = read_stash_key(alloc, is.field(b"_id"))?;
    let stash = read_stash_cell(alloc, is)?;
    Ok(Named {
        name: Name::Stash(key),
        cell: Cell::Stash(stash),
    })
}

fn read_stash_cell(alloc: Global, is: &Value) -> Result<StashCell, CellFault>
    ensures { result ≢ Err CellFault.OutOfMemory → result ≡ or_bad (stash_cell_in is.now) }
{
    let revno = read_stash_revno(is.field(b"txn-revno"))?;
    let queue = read_queue(alloc, is.field(b"txn-queue"))?;
    let insert = read_mark(is.field(b"txn-insert"))?;
    Ok(StashCell {
        revno,
        queue,
        insert,
    })
}

fn has_stash_fields(is: &Value) -> bool
    ensures { result ≡ has_only is_stash_name (out-Value is.now) }
{
    match is {
        Value::Object(fields) => are_stash_fields(fields.as_slice()),
        _ => false,
    }
}

fn are_stash_fields(fields: &[Field]) -> bool
    ensures { result ≡ list_all (λ field. is_stash_name field.name) fields.now }
{
    for field in fields {
        if !is_stash_name(field.name.as_bytes()) {
            return false;
        }
    }
    true
}

fn is_stash_name(name: &[u8]) -> bool
    ensures { result ≡ is_stash_name name.now }
{
    name == b"_id".as_slice()
        || name == b"txn-insert".as_slice()
        || name == b"txn-queue".as_slice()
        || name == b"txn-revno".as_slice()
}

fn read_nonce(is: &Value) -> Result<Named, CellFault>
    ensures { result ≡ or_bad (named_nonce (nonce_of_fields (fields_in (out-Value is.now)))) }
{
    let next = read_next(is)?;
    Ok(Named {
        name: Name::Nonce,
        cell: Cell::Nonce(next),
    })
}

fn read_next(is: &Value) -> Result<u32, CellFault>
    ensures { result ≡ or_bad (nonce_of_fields (fields_in (out-Value is.now))) }
{
    let Value::Object(fields) = is else {
        return Err(CellFault::Bad);
    };
    match fields.as_slice() {
        [next] if is_named(next, b"next") => read_counter(&next.value),
        _ => Err(CellFault::Bad),
    }
}
