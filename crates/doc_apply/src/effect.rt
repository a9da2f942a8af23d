//! What each operator makes of the field at its path.
ghost use Rattle.std.specs.Prelude.{◌≡◌, ◌++◌, [], ◌∷◌, IfOk, OnOk, filter, not, Some};
ghost use Rattle.std.specs.Option.{option_copied};
ghost use Rattle.doc_value.specs.declared.value.Value.{out-Value, List as Items_of};
ghost use Rattle.doc_update.specs.Effects.{effect, effect_on, effect_on_missing, increased, is_among, is_one, without_item, popped, pushed_onto, added_to, pulled_from, popped_from};

use doc_update::Operator;
use doc_value::{OutOfMemory, Value, copy_items};
use sqlite_items::Items;
use std::alloc::Global;

/// What the operator makes of the field that was found: None where it doesn't fit, and Some(None) where
/// the field is missing afterwards.
pub(crate) fn effect(
    alloc: Global,
    operator: Operator,
    operand: &Value,
    found: Option<&Value>,
) -> Result<Option<Option<Value>>, OutOfMemory>
    ensures { IfOk result (λ after. after ≡
        effect operator operand.now (option_copied found.entry)) }
{
    match found {
        Some(found) => effect_on(alloc, operator, operand, found),
        None => Ok(Some(effect_on_missing(alloc, operator, operand)?)),
    }
}

fn effect_on_missing(
    alloc: Global,
    operator: Operator,
    operand: &Value,
) -> Result<Option<Value>, OutOfMemory>
    ensures { IfOk result (λ after. after ≡ effect_on_missing operator operand.now) }
{
    match operator {
        Operator::Set => Ok(Some(operand.copy(alloc)?)),
        Operator::Unset => Ok(None),
        Operator::Inc => Ok(Some(operand.copy(alloc)?)),
        Operator::Push => Ok(Some(list_with(alloc, &[], operand)?)),
        Operator::AddToSet => Ok(Some(list_with(alloc, &[], operand)?)),
        Operator::Pull => Ok(None),
        Operator::Pop => Ok(None),
    }
}

fn effect_on(
    alloc: Global,
    operator: Operator,
    operand: &Value,
    found: &Value,
) -> Result<Option<Option<Value>>, OutOfMemory>
    ensures { IfOk result (λ after. after ≡ effect_on operator operand.now found.now) }
{
    match operator {
        Operator::Set => Ok(Some(Some(operand.copy(alloc)?))),
        Operator::Unset => Ok(Some(None)),
        Operator::Inc => Ok(increased(found, operand)),
        Operator::Push => push_onto(alloc, operand, found),
        Operator::AddToSet => add_to(alloc, operand, found),
        Operator::Pull => pull_from(alloc, operand, found),
        Operator::Pop => pop_from(alloc, operand, found),
    }
}

fn increased(found: &Value, operand: &Value) -> Option<Option<Value>>
    ensures { result ≡ increased (out-Value found.now) (out-Value operand.now) }
{
    match (found, operand) {
        (Value::Int(number), Value::Int(more)) => match number.checked_add(*more) {
            Some(sum) => Some(Some(Value::Int(sum))),
            None => None,
        },
        _ => None,
    }
}

fn push_onto(
    alloc: Global,
    operand: &Value,
    found: &Value,
) -> Result<Option<Option<Value>>, OutOfMemory>
    ensures { IfOk result (λ after. after ≡ pushed_onto operand.now (out-Value found.now)) }
{
    match found {
        Value::List(items) => Ok(Some(Some(list_with(alloc, items.as_slice(), operand)?))),
        _ => Ok(None),
    }
}

fn add_to(
    alloc: Global,
    operand: &Value,
    found: &Value,
) -> Result<Option<Option<Value>>, OutOfMemory>
    ensures { IfOk result (λ after. after ≡ added_to operand.now (out-Value found.now)) }
{
    match found {
        Value::List(items) => {
            if is_among(operand, items.as_slice()) {
                return Ok(Some(Some(list_of(alloc, items.as_slice())?)));
            }
            Ok(Some(Some(list_with(alloc, items.as_slice(), operand)?)))
        }
        _ => Ok(None),
    }
}

fn pull_from(
    alloc: Global,
    operand: &Value,
    found: &Value,
) -> Result<Option<Option<Value>>, OutOfMemory>
    ensures { IfOk result (λ after. after ≡ pulled_from operand.now (out-Value found.now)) }
{
    match found {
        Value::List(items) => {
            let kept = copy_others(alloc, operand, items.as_slice())?;
            Ok(Some(Some(Value::List(kept))))
        }
        _ => Ok(None),
    }
}

fn pop_from(
    alloc: Global,
    operand: &Value,
    found: &Value,
) -> Result<Option<Option<Value>>, OutOfMemory>
    ensures { IfOk result (λ after. after ≡ popped_from operand.now (out-Value found.now)) }
{
    match found {
        Value::List(items) => {
            let left = popped(operand, items.as_slice());
            Ok(Some(Some(list_of(alloc, left)?)))
        }
        _ => Ok(None),
    }
}

/// The items that a `$pop` of that operand leaves.
pub(crate) fn popped<'a>(operand: &Value, items: &'a [Value]) -> &'a [Value]
    ensures { result.now ≡ popped operand.now items.now }
{
    if is_one(operand) {
        match items.split_last() {
            Some((_, rest)) => rest,
            None => items,
        }
    } else {
        match items.split_first() {
            Some((_, rest)) => rest,
            None => items,
        }
    }
}

fn is_one(operand: &Value) -> bool
    ensures { result ≡ is_one (out-Value operand.now) }
{
    match operand {
        Value::Int(number) => *number == 1,
        _ => false,
    }
}

pub(crate) fn is_among(item: &Value, items: &[Value]) -> bool
    ensures { result ≡ is_among item.now items.now }
{
    for other in items {
        if other.equals(item) {
            return true;
        }
    }
    false
}

/// A list of copies of the items, with the operand's copy at its end.
fn list_with(alloc: Global, items: &[Value], operand: &Value) -> Result<Value, OutOfMemory>
    ensures { IfOk result (λ list. list ≡ Items_of (items.now ++ operand.now ∷ [])) }
{
    let mut copies = copy_items(alloc, items)?;
    copies.push(operand.copy(alloc)?)?;
    Ok(Value::List(copies))
}

fn list_of(alloc: Global, items: &[Value]) -> Result<Value, OutOfMemory>
    ensures { IfOk result (λ list. list ≡ Items_of items.now) }
{
    Ok(Value::List(copy_items(alloc, items)?))
}

/// Copies of the items that don't equal the operand.
fn copy_others(alloc: Global, operand: &Value, items: &[Value]) -> Result<Items<Value>, OutOfMemory>
    ensures { IfOk result (λ copies. copies ≡ without_item operand.now items.now) }
{
    let mut copies = Items::new(alloc);
    for item in items {
        if !item.equals(operand) {
            copies.push(item.copy(alloc)?)?;
        }
    }
    Ok(copies)
}
