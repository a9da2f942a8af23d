//! The texts that name and show what a store holds. The calls that push write a line, with its end.
ghost use Rattle.std.specs.Prelude.{◌≡◌, ◌++◌, IfOk, OnOk};
ghost use Rattle.std.specs.Fmt.{decimal};
ghost use Rattle.cell_text.specs.Values.{cell_text};
ghost use Rattle.txn_key.specs.Ids.{id_text};
ghost use Rattle.txn_script.specs.Texts.{cell_line, document_line, document_text, entry_line, entry_text, id_json, key_text, name_text, outcome_word};

use cell_text::{cell_text, push_cell_text};
use doc_value::{DocId, OutOfMemory, Value, push_text, push_value};
use std::alloc::Global;
use store_trait::{Name, Named};
use txn_key::{Doc, Key, TxnId};
use txn_record::{Entry, Outcome};

/// The text of a cell.
pub fn print_cell(alloc: Global, named: &Named) -> Result<Vec<u8>, OutOfMemory>
    ensures { IfOk result (λ text. text.items ≡ cell_text named.now) }
{
    cell_text(alloc, named)
}

/// A cell's line.
pub fn push_cell(alloc: Global, out: &mut Vec<u8>, named: &Named) -> Result<(), OutOfMemory>
    ensures { OnOk result (out.new.items ≡ out.old.items ++ cell_line named.now) }
{
    push_cell_text(alloc, out, named)?;
    out.push(b'\n')?;
    Ok(())
}

/// A document: its collection and id as JSON, and its body, with blanks between.
pub fn print_doc(alloc: Global, doc: &Doc) -> Result<Vec<u8>, OutOfMemory>
    ensures { IfOk result (λ text. text.items ≡ document_text (doc.now.key, doc.now.body)) }
{
    let mut out = Vec::new(alloc);
    push_document_text(&mut out, doc)?;
    Ok(out)
}

/// A document's line.
pub fn push_document(out: &mut Vec<u8>, doc: &Doc) -> Result<(), OutOfMemory>
    ensures { OnOk result (out.new.items ≡
        out.old.items ++ document_line (doc.now.key, doc.now.body)) }
{
    push_document_text(out, doc)?;
    out.push(b'\n')?;
    Ok(())
}

fn push_document_text(out: &mut Vec<u8>, doc: &Doc) -> Result<(), OutOfMemory>
    ensures { OnOk result (out.new.items ≡
        out.old.items ++ document_text (doc.now.key, doc.now.body)) }
{
    push_key(out, &doc.key)?;
    out.push(b' ')?;
    push_value(out, &doc.body)
}

/// A place in the recorded order: its number, the id and how the transaction was decided, with blanks between.
pub fn print_entry(alloc: Global, number: u64, entry: &Entry) -> Result<Vec<u8>, OutOfMemory>
    ensures { IfOk result (λ text. text.items ≡ entry_text number entry.now) }
{
    let mut out = Vec::new(alloc);
    push_entry_text(alloc, &mut out, number, entry)?;
    Ok(out)
}

/// The line of a place in the recorded order.
pub fn push_entry(
    alloc: Global,
    out: &mut Vec<u8>,
    number: u64,
    entry: &Entry,
) -> Result<(), OutOfMemory>
    ensures { OnOk result (out.new.items ≡ out.old.items ++ entry_line number entry.now) }
{
    push_entry_text(alloc, out, number, entry)?;
    out.push(b'\n')?;
    Ok(())
}

fn push_entry_text(
    alloc: Global,
    out: &mut Vec<u8>,
    number: u64,
    entry: &Entry,
) -> Result<(), OutOfMemory>
    ensures { OnOk result (out.new.items ≡ out.old.items ++ entry_text number entry.now) }
{
    push_number(out, number)?;
    out.push(b' ')?;
    push_id(alloc, out, entry.id)?;
    out.push(b' ')?;
    out.extend_from_slice(outcome_word(entry.outcome).as_bytes())
}

fn push_number(out: &mut Vec<u8>, number: u64) -> Result<(), OutOfMemory>
    ensures { OnOk result (out.new.items ≡ out.old.items ++ decimal number) }
{
    let mut buffer = itoa::Buffer::new();
    out.extend_from_slice(buffer.format(number).as_bytes())
}

fn push_id(alloc: Global, out: &mut Vec<u8>, id: TxnId) -> Result<(), OutOfMemory>
    ensures { OnOk result (out.new.items ≡ out.old.items ++ id_text id) }
{
    let text = id.print(alloc)?;
    out.extend_from_slice(text.as_slice())
}

fn outcome_word(outcome: Outcome) -> &'static str
    ensures { result.now ≡ outcome_word outcome }
{
    match outcome {
        Outcome::Applied => "applied",
        Outcome::Aborted => "aborted",
    }
}

/// What a cell stands under.
pub fn print_name(alloc: Global, name: &Name) -> Result<Vec<u8>, OutOfMemory>
    ensures { IfOk result (λ text. text.items ≡ name_text name.now) }
{
    let mut out = Vec::new(alloc);
    push_name(alloc, &mut out, name)?;
    Ok(out)
}

/// The text of a name, within a line.
pub fn push_name(alloc: Global, out: &mut Vec<u8>, name: &Name) -> Result<(), OutOfMemory>
    ensures { OnOk result (out.new.items ≡ out.old.items ++ name_text name.now) }
{
    match name {
        Name::Record(id) => {
            out.extend_from_slice(b"record ")?;
            push_id(alloc, out, *id)
        }
        Name::Doc(key) => {
            out.extend_from_slice(b"doc ")?;
            push_key(out, key)
        }
        Name::Stash(key) => {
            out.extend_from_slice(b"stash ")?;
            push_key(out, key)
        }
        Name::Nonce => out.extend_from_slice(b"nonce"),
    }
}

/// A key, within a line: its collection and id as JSON, with a blank between.
pub fn push_key(out: &mut Vec<u8>, key: &Key) -> Result<(), OutOfMemory>
    ensures { OnOk result (out.new.items ≡ out.old.items ++ key_text key.now) }
{
    push_text(out, key.c.as_str())?;
    out.push(b' ')?;
    push_doc_id(out, &key.d)
}

/// The id of a document as JSON.
fn push_doc_id(out: &mut Vec<u8>, id: &DocId) -> Result<(), OutOfMemory>
    ensures { OnOk result (out.new.items ≡ out.old.items ++ id_json id.now) }
{
    match id {
        DocId::Text(text) => push_text(out, text.as_str()),
        DocId::Int(number) => push_value(out, &Value::Int(*number)),
    }
}
