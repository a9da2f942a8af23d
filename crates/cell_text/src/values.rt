//! The values that the parts of a cell print as.
ghost use Rattle.std.specs.Prelude.{◌≡◌, map, string_bytes, IfOk};
ghost use Rattle.doc_value.specs.declared.value.Value.{Int, Text as Text_of, Object as Object_of, out-Value};
ghost use Rattle.txn_key.specs.Ids.{id_text, nonce_text};
ghost use Rattle.cell_text.specs.Fields.{fields_in};
ghost use Rattle.cell_text.specs.Values.{key_value, mark_value, nonce_value, queue_value, revno_value, revnos_value, token_value};

use doc_value::{Field, OutOfMemory, Text, Value};
use sqlite_items::Items;
use std::alloc::Global;
use txn_key::{Key, Token, TxnId};
use txn_record::{id_value, push_field};

/// The id of a transaction.
pub(crate) fn transaction_value(alloc: Global, id: TxnId) -> Result<Value, OutOfMemory>
    ensures { IfOk result (λ value. value ≡ Text_of (id_text id)) }
{
    let text = id_digits(alloc, id)?;
    Ok(Value::Text(Text::from_str(alloc, text.as_str())?))
}

fn id_digits(alloc: Global, id: TxnId) -> Result<String, OutOfMemory>
    ensures { IfOk result (λ text. string_bytes text ≡ id_text id) }
{
    hex::encode(alloc, id.0.as_slice())
}

fn nonce_digits(alloc: Global, nonce: u32) -> Result<String, OutOfMemory>
    ensures { IfOk result (λ text. string_bytes text ≡ nonce_text nonce) }
{
    let bytes = nonce.to_be_bytes();
    hex::encode(alloc, bytes.as_slice())
}

fn token_value(alloc: Global, token: &Token) -> Result<Value, OutOfMemory>
    ensures { IfOk result (λ value. value ≡ token_value token.now) }
{
    let mut text = id_digits(alloc, token.id)?;
    text.push_str("_")?;
    let nonce = nonce_digits(alloc, token.nonce)?;
    text.push_str(nonce.as_str())?;
    Ok(Value::Text(Text::from_str(alloc, text.as_str())?))
}

/// An empty queue is not printed.
pub(crate) fn queue_value(alloc: Global, queue: &[Token]) -> Result<Option<Value>, OutOfMemory>
    ensures { IfOk result (λ value. value ≡ queue_value queue.now) }
{
    if queue.is_empty() {
        return Ok(None);
    }
    Ok(Some(Value::List(token_values(alloc, queue)?)))
}

fn token_values(alloc: Global, tokens: &[Token]) -> Result<Items<Value>, OutOfMemory>
    ensures { IfOk result (λ values. values ≡ map token_value tokens.now) }
{
    let mut values = Items::new(alloc);
    for token in tokens {
        values.push(token_value(alloc, token)?)?;
    }
    Ok(values)
}

pub(crate) fn mark_value(alloc: Global, mark: &Option<Token>) -> Result<Option<Value>, OutOfMemory>
    ensures { IfOk result (λ value. value ≡ mark_value mark.now) }
{
    match mark {
        Some(token) => Ok(Some(token_value(alloc, token)?)),
        None => Ok(None),
    }
}

/// The revision number of a document is printed where it is not 0.
pub(crate) fn revno_value(revno: i64) -> Option<Value>
    ensures { result ≡ revno_value revno }
{
    if revno == 0 {
        None
    } else {
        Some(Value::Int(revno))
    }
}

pub(crate) fn nonce_value(alloc: Global, nonce: Option<u32>) -> Result<Option<Value>, OutOfMemory>
    ensures { IfOk result (λ value. value ≡ nonce_value nonce) }
{
    match nonce {
        Some(nonce) => {
            let text = nonce_digits(alloc, nonce)?;
            let text = Text::from_str(alloc, text.as_str())?;
            Ok(Some(Value::Text(text)))
        }
        None => Ok(None),
    }
}

pub(crate) fn revnos_value(
    alloc: Global,
    revnos: &Option<Items<i64>>,
) -> Result<Option<Value>, OutOfMemory>
    ensures { IfOk result (λ value. value ≡ revnos_value revnos.now) }
{
    match revnos {
        Some(list) => Ok(Some(Value::List(numbers(alloc, list.as_slice())?))),
        None => Ok(None),
    }
}

fn numbers(alloc: Global, list: &[i64]) -> Result<Items<Value>, OutOfMemory>
    ensures { IfOk result (λ values. values ≡ map Int list.now) }
{
    let mut values = Items::new(alloc);
    for number in list {
        values.push(Value::Int(*number))?;
    }
    Ok(values)
}

pub(crate) fn key_value(alloc: Global, key: &Key) -> Result<Value, OutOfMemory>
    ensures { IfOk result (λ value. value ≡ key_value key.now) }
{
    let mut fields = Items::new(alloc);
    let c = Value::Text(key.c.copy(alloc)?);
    push_field(alloc, &mut fields, "c", Some(c))?;
    push_field(alloc, &mut fields, "d", Some(id_value(alloc, &key.d)?))?;
    Ok(Value::Object(fields))
}

/// Copies of the fields of an object.
pub(crate) fn body_fields(alloc: Global, body: &Value) -> Result<Vec<Field>, OutOfMemory>
    ensures { IfOk result (λ fields. fields.items ≡ fields_in (out-Value body.now)) }
{
    match body {
        Value::Object(fields) => copy_fields(alloc, fields.as_slice()),
        _ => Ok(Vec::new(alloc)),
    }
}

fn copy_fields(alloc: Global, fields: &[Field]) -> Result<Vec<Field>, OutOfMemory>
    ensures { IfOk result (λ copies. copies.items ≡ fields.now) }
{
    let mut copies = Vec::new(alloc);
    for field in fields {
        copies.push(field.copy(alloc)?)?;
    }
    Ok(copies)
}
