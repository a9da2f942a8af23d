//! What the parts of a cell are read as.
ghost use Rattle.std.specs.Prelude.{◌≡◌, ◌≢◌, map, Err};
ghost use Rattle.std.specs.Option.{option_copied};
ghost use Rattle.doc_value.specs.declared.value.Value.{out-Value};
ghost use Rattle.txn_key.specs.Ids.{id_of};
ghost use Rattle.txn_key.specs.Syntax.{key_in};
ghost use Rattle.cell_text.specs.Syntax.{or_bad};
ghost use Rattle.cell_text.specs.Parts.{all_read, counter_in, info_in, key_object_in, key_of_fields, mark_in, needed, nonce_in, number_in, ops_there, queue_in, revno_in, revnos_in, state_in, text_in, token_in};

use crate::fault::CellFault;
use crate::fields::is_named;
use doc_value::{Field, Value};
use sqlite_items::Items;
use std::alloc::Global;
use store_trait::Tokens;
use txn_key::{Key, Token, TxnId, read_nonce};
use txn_record::{Ops, OpsFault, State};

/// The deepest nesting of lists and objects in what is noted with a transaction.
const MAX_INFO_NESTING: u32 = 90;

pub(crate) fn read_id(value: Option<&Value>) -> Result<TxnId, CellFault>
    ensures { result ≡ or_bad (needed (text_in id_of) (option_copied value.entry)) }
{
    match value {
        Some(Value::Text(text)) => TxnId::read(text.as_bytes()).ok_or(CellFault::Bad),
        _ => Err(CellFault::Bad),
    }
}

pub(crate) fn read_info(alloc: Global, value: Option<&Value>) -> Result<Option<Value>, CellFault>
    ensures { result ≢ Err CellFault.OutOfMemory
        → result ≡ or_bad (info_in (option_copied value.entry)) }
{
    let Some(value) = value else {
        return Ok(None);
    };
    if value.is_deeper_than(MAX_INFO_NESTING) {
        return Err(CellFault::Bad);
    }
    Ok(Some(value.copy(alloc)?))
}

pub(crate) fn read_record_nonce(value: Option<&Value>) -> Result<Option<u32>, CellFault>
    ensures { result ≡ or_bad (nonce_in (option_copied value.entry)) }
{
    match value {
        Some(Value::Text(text)) => match read_nonce(text.as_bytes()) {
            Some(nonce) => Ok(Some(nonce)),
            None => Err(CellFault::Bad),
        },
        Some(_) => Err(CellFault::Bad),
        None => Ok(None),
    }
}

pub(crate) fn read_ops(alloc: Global, value: Option<&Value>) -> Result<Ops, CellFault>
    ensures { result ≢ Err CellFault.OutOfMemory
        → result ≡ or_bad (ops_there (option_copied value.entry)) }
{
    let Some(value) = value else {
        return Err(CellFault::Bad);
    };
    match Ops::read(alloc, value) {
        Ok(ops) => Ok(ops),
        Err(OpsFault::OutOfMemory) => Err(CellFault::OutOfMemory),
        Err(_) => Err(CellFault::Bad),
    }
}

pub(crate) fn read_revnos(
    alloc: Global,
    value: Option<&Value>,
) -> Result<Option<Items<i64>>, CellFault>
    ensures { result ≢ Err CellFault.OutOfMemory
        → result ≡ or_bad (revnos_in (option_copied value.entry)) }
{
    match value {
        Some(Value::List(values)) => Ok(Some(read_numbers(alloc, values.as_slice())?)),
        Some(_) => Err(CellFault::Bad),
        None => Ok(None),
    }
}

fn read_numbers(alloc: Global, values: &[Value]) -> Result<Items<i64>, CellFault>
    ensures { result ≢ Err CellFault.OutOfMemory
        → result ≡ or_bad (all_read (map (λ value. number_in (out-Value value)) values.now)) }
{
    let mut numbers = Items::new(alloc);
    for value in values {
        numbers.push(read_number(value)?)?;
    }
    Ok(numbers)
}

fn read_number(value: &Value) -> Result<i64, CellFault>
    ensures { result ≡ or_bad (number_in (out-Value value.now)) }
{
    match value {
        Value::Int(number) => Ok(*number),
        _ => Err(CellFault::Bad),
    }
}

pub(crate) fn read_state(value: Option<&Value>) -> Result<State, CellFault>
    ensures { result ≡ or_bad (needed state_in (option_copied value.entry)) }
{
    match value {
        Some(Value::Int(1)) => Ok(State::Preparing),
        Some(Value::Int(2)) => Ok(State::Prepared),
        Some(Value::Int(3)) => Ok(State::Aborting),
        Some(Value::Int(4)) => Ok(State::Applying),
        Some(Value::Int(5)) => Ok(State::Aborted),
        Some(Value::Int(6)) => Ok(State::Applied),
        _ => Err(CellFault::Bad),
    }
}

/// The revision number of a document: 0 where there is none.
pub(crate) fn read_revno(value: Option<&Value>) -> Result<i64, CellFault>
    ensures { result ≡ or_bad (revno_in (option_copied value.entry)) }
{
    match value {
        Some(value) => read_number(value),
        None => Ok(0),
    }
}

/// The revision number of a stash entry, which has to be there.
pub(crate) fn read_stash_revno(value: Option<&Value>) -> Result<i64, CellFault>
    ensures { result ≡ or_bad (needed number_in (option_copied value.entry)) }
{
    match value {
        Some(value) => read_number(value),
        None => Err(CellFault::Bad),
    }
}

/// The tokens of a queue: none where there is no queue.
pub(crate) fn read_queue(alloc: Global, value: Option<&Value>) -> Result<Tokens, CellFault>
    ensures { result ≢ Err CellFault.OutOfMemory
        → result ≡ or_bad (queue_in (option_copied value.entry)) }
{
    match value {
        Some(Value::List(values)) => read_tokens(alloc, values.as_slice()),
        Some(_) => Err(CellFault::Bad),
        None => Ok(Items::new(alloc)),
    }
}

fn read_tokens(alloc: Global, values: &[Value]) -> Result<Tokens, CellFault>
    ensures { result ≢ Err CellFault.OutOfMemory
        → result ≡ or_bad (all_read (map (λ value. token_in (out-Value value)) values.now)) }
{
    let mut tokens = Items::new(alloc);
    for value in values {
        tokens.push(read_token(value)?)?;
    }
    Ok(tokens)
}

#[tactic(auto, unfolding(crate::specs::Parts::token_in))]
fn read_token(value: &Value) -> Result<Token, CellFault>
    ensures { result ≡ or_bad (token_in (out-Value value.now)) }
{
    match value {
        Value::Text(text) => Token::read(text.as_bytes()).ok_or(CellFault::Bad),
        _ => Err(CellFault::Bad),
    }
}

pub(crate) fn read_mark(value: Option<&Value>) -> Result<Option<Token>, CellFault>
    ensures { result ≡ or_bad (mark_in (option_copied value.entry)) }
{
    match value {
        Some(value) => Ok(Some(read_token(value)?)),
        None => Ok(None),
    }
}

/// The key of a stash entry: an object of a collection and an id.
pub(crate) fn read_stash_key(alloc: Global, value: Option<&Value>) -> Result<Key, CellFault>
    ensures { result ≢ Err CellFault.OutOfMemory
        → result ≡ or_bad (needed key_object_in (option_copied value.entry)) }
{
    match value {
        Some(Value::Object(fields)) => read_key_fields(alloc, fields.as_slice()),
        _ => Err(CellFault::Bad),
    }
}

fn read_key_fields(alloc: Global, fields: &[Field]) -> Result<Key, CellFault>
    ensures { result ≢ Err CellFault.OutOfMemory → result ≡ or_bad (key_of_fields fields.now) }
{
    match fields {
        [c, d] if is_named(c, b"c") && is_named(d, b"d") => read_key(alloc, &c.value, &d.value),
        _ => Err(CellFault::Bad),
    }
}

/// The key that a collection and an id name.
pub(crate) fn read_key(alloc: Global, c: &Value, d: &Value) -> Result<Key, CellFault>
    ensures { result ≢ Err CellFault.OutOfMemory → result ≡ or_bad (key_in c.now d.now) }
{
    match Key::read(alloc, c, d)? {
        Some(key) => Ok(key),
        None => Err(CellFault::Bad),
    }
}

/// What the next nonce will be: a number of 32 bits.
pub(crate) fn read_counter(value: &Value) -> Result<u32, CellFault>
    ensures { result ≡ or_bad (counter_in (out-Value value.now)) }
{
    match value {
        Value::Int(number) => u32::try_from(*number).map_err(|_| CellFault::Bad),
        _ => Err(CellFault::Bad),
    }
}
