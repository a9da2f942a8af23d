//! Whether an update fits, told from the body as it is, without a copy of anything.
ghost use Rattle.std.specs.Prelude.{◌≡◌, ◌==◌, count_by, ◌+◌, ◌≤◌, ◌&&◌, [], ◌∷◌, ◌++◌, not, option_map, map, nat_lt, is_some, length, Some, true};
ghost use Rattle.std.specs.List.{list_all, list_any};
ghost use Rattle.std.specs.Option.{option_copied};
ghost use Rattle.doc_value.specs.declared.value.Value.{Value as Tree, out-Value, List as Items_of};
ghost use Rattle.doc_value.specs.Depth.{nesting, deepest};
ghost use Rattle.doc_value.specs.Paths.{parts_of};
ghost use Rattle.doc_update.specs.Changes.{change_of, changes_in, changes_under};
ghost use Rattle.doc_update.specs.Effects.{effect, effect_on, effect_on_missing, increased, without_item, pushed_onto, added_to, pulled_from, popped_from};
ghost use Rattle.doc_update.specs.Places.{is_open, part_of};
ghost use Rattle.doc_apply.specs.Fit.{located, is_nothing, change_is_good, nests_below, reaches_below};
ghost use Rattle.doc_update.specs.Operators.{operator_named};
ghost use Rattle.doc_update.specs.Updates.{updated};

use crate::effect::{is_among, popped};
use doc_update::{Operator, Update, fields_of, is_object};
use doc_value::{Field, Lookup, MAX_BODY_NESTING, Value};

/// Whether the update can be made to the body. It takes no memory.
pub fn fits(update: &Update, body: &Value) -> bool
    ensures { result ≡ is_some (updated update.now body.now) }
{
    !body.is_deeper_than(MAX_BODY_NESTING)
        && operators_fit(fields_of(update.source()), &Lookup::halving(body))
}

fn operators_fit(operators: &[Field], body: &Lookup) -> bool
    ensures { result ≡ list_all (change_is_good body.now) (changes_in operators.now) }
{
    for field in operators {
        if let Some(operator) = Operator::named(field.name.as_bytes()) {
            if !changes_fit(operator, fields_of(&field.value), body) {
                return false;
            }
        }
    }
    true
}

fn changes_fit(operator: Operator, fields: &[Field], body: &Lookup) -> bool
    ensures { result ≡ list_all (change_is_good body.now) (map (change_of operator) fields.now) }
{
    for field in fields {
        if !change_fits(operator, field, body) {
            return false;
        }
    }
    true
}

/// Whether the change alone fits, and puts nothing too deep.
fn change_fits(operator: Operator, field: &Field, body: &Lookup) -> bool
    ensures { result ≡ change_is_good body.now (change_of operator field.now) }
{
    let depth = count_parts(field.name.as_str());
    match locate(body, field.name.as_str()) {
        Some(found) => fits_found(operator, &field.value, found, depth),
        None => leaves_nothing(operator, None),
    }
}

/// How many parts the path has.
fn count_parts(path: &str) -> usize
    ensures { result ≡ length (parts_of path.now) }
{
    count_dots(path.as_bytes()) + 1
}

fn count_dots(text: &[u8]) -> usize
    ensures { result ≡ count_by (λ byte. byte == 46) text.now }
{
    text.iter().filter(|byte| **byte == b'.').count()
}

/// The field that the path leads to, be it there or missing; None where a parent on the way is no object.
fn locate<'a>(body: &Lookup<'a>, path: &str) -> Option<Option<&'a Value>>
    ensures { option_map option_copied result ≡ located (parts_of path.now) (Some body.now) }
{
    let mut found = Some(body.copy());
    for part in path.split('.') {
        if !is_open(found.as_ref()) {
            return None;
        }
        found = part_of(part.as_bytes(), found.as_ref());
    }
    Some(value_of(found.as_ref()))
}

fn is_open(found: Option<&Lookup>) -> bool
    ensures { result ≡ is_open (option_copied found.entry) }
{
    match found {
        Some(found) => is_object(found.value()),
        None => true,
    }
}

/// The field of that name, of an object that was found.
pub(crate) fn part_of<'a>(part: &[u8], found: Option<&Lookup<'a>>) -> Option<Lookup<'a>>
    ensures { result ≡ part_of part.now (option_copied found.entry) }
{
    match found {
        Some(found) => found.field(part),
        None => None,
    }
}

pub(crate) fn value_of<'a>(found: Option<&Lookup<'a>>) -> Option<&'a Value>
    ensures { option_copied result ≡ option_copied found.entry }
{
    match found {
        Some(found) => Some(found.value()),
        None => None,
    }
}

/// Whether the operator fits the field and what it puts, at the end of that many parts, isn't too deep.
fn fits_found(operator: Operator, operand: &Value, found: Option<&Value>, depth: usize) -> bool
    ensures { result ≡ (is_some (effect operator operand.now (option_copied found.entry))
        && not (reaches_below 90 depth (effect operator operand.now (option_copied found.entry)))) }
{
    if depth > MAX_BODY_NESTING as usize {
        return leaves_nothing(operator, found);
    }
    let room = MAX_BODY_NESTING - depth as u32;
    has_effect(operator, operand, found) && !is_effect_deeper(operator, operand, found, room)
}

/// Whether the field is missing after the operator.
fn leaves_nothing(operator: Operator, found: Option<&Value>) -> bool
    ensures { (operand : Tree) →
        result ≡ is_nothing (effect operator operand (option_copied found.entry)) }
{
    match operator {
        Operator::Set => false,
        Operator::Unset => true,
        Operator::Inc => false,
        Operator::Push => false,
        Operator::AddToSet => false,
        Operator::Pull => found.is_none(),
        Operator::Pop => found.is_none(),
    }
}

fn has_effect(operator: Operator, operand: &Value, found: Option<&Value>) -> bool
    ensures { result ≡ is_some (effect operator operand.now (option_copied found.entry)) }
{
    match found {
        Some(found) => has_effect_on(operator, operand, found),
        None => true,
    }
}

fn has_effect_on(operator: Operator, operand: &Value, found: &Value) -> bool
    ensures { result ≡ is_some (effect_on operator operand.now found.now) }
{
    match operator {
        Operator::Set => true,
        Operator::Unset => true,
        Operator::Inc => can_increase(found, operand),
        Operator::Push => matches!(found, Value::List(_)),
        Operator::AddToSet => matches!(found, Value::List(_)),
        Operator::Pull => matches!(found, Value::List(_)),
        Operator::Pop => matches!(found, Value::List(_)),
    }
}

fn can_increase(found: &Value, operand: &Value) -> bool
    ensures { result ≡ is_some (increased (out-Value found.now) (out-Value operand.now)) }
{
    match (found, operand) {
        (Value::Int(number), Value::Int(more)) => number.checked_add(*more).is_some(),
        _ => false,
    }
}

/// Whether what the operator puts nests deeper than the limit.
fn is_effect_deeper(operator: Operator, operand: &Value, found: Option<&Value>, limit: u32) -> bool
    ensures { result ≡ nests_below limit (effect operator operand.now (option_copied found.entry)) }
{
    match found {
        Some(found) => is_effect_on_deeper(operator, operand, found, limit),
        None => is_start_deeper(operator, operand, limit),
    }
}

fn is_start_deeper(operator: Operator, operand: &Value, limit: u32) -> bool
    ensures { result ≡ nests_below limit (Some (effect_on_missing operator operand.now)) }
{
    match operator {
        Operator::Set => operand.is_deeper_than(limit),
        Operator::Unset => false,
        Operator::Inc => operand.is_deeper_than(limit),
        Operator::Push => is_list_with_deeper(&[], operand, limit),
        Operator::AddToSet => is_list_with_deeper(&[], operand, limit),
        Operator::Pull => false,
        Operator::Pop => false,
    }
}

fn is_effect_on_deeper(operator: Operator, operand: &Value, found: &Value, limit: u32) -> bool
    ensures { result ≡ nests_below limit (effect_on operator operand.now found.now) }
{
    match operator {
        Operator::Set => operand.is_deeper_than(limit),
        Operator::Unset => false,
        Operator::Inc => false,
        Operator::Push => is_pushed_deeper(operand, found, limit),
        Operator::AddToSet => is_added_deeper(operand, found, limit),
        Operator::Pull => is_pulled_deeper(operand, found, limit),
        Operator::Pop => is_popped_deeper(operand, found, limit),
    }
}

fn is_pushed_deeper(operand: &Value, found: &Value, limit: u32) -> bool
    ensures { result ≡ nests_below limit (pushed_onto operand.now (out-Value found.now)) }
{
    match found {
        Value::List(items) => is_list_with_deeper(items.as_slice(), operand, limit),
        _ => false,
    }
}

fn is_added_deeper(operand: &Value, found: &Value, limit: u32) -> bool
    ensures { result ≡ nests_below limit (added_to operand.now (out-Value found.now)) }
{
    match found {
        Value::List(items) => {
            if is_among(operand, items.as_slice()) {
                return is_list_deeper(items.as_slice(), limit);
            }
            is_list_with_deeper(items.as_slice(), operand, limit)
        }
        _ => false,
    }
}

fn is_pulled_deeper(operand: &Value, found: &Value, limit: u32) -> bool
    ensures { result ≡ nests_below limit (pulled_from operand.now (out-Value found.now)) }
{
    match found {
        Value::List(items) => {
            limit == 0 || is_some_other_deeper(operand, items.as_slice(), limit - 1)
        }
        _ => false,
    }
}

fn is_popped_deeper(operand: &Value, found: &Value, limit: u32) -> bool
    ensures { result ≡ nests_below limit (popped_from operand.now (out-Value found.now)) }
{
    match found {
        Value::List(items) => is_list_deeper(popped(operand, items.as_slice()), limit),
        _ => false,
    }
}

/// Whether a list of the items nests deeper than the limit.
fn is_list_deeper(items: &[Value], limit: u32) -> bool
    ensures { result ≡ nat_lt limit (nesting (Items_of items.now)) }
{
    limit == 0 || is_some_deeper(items, limit - 1)
}

/// Whether a list of the items and of one more nests deeper than the limit.
#[tactic(auto, using(crate::proofs::ListDepths::deeper_more))]
fn is_list_with_deeper(items: &[Value], more: &Value, limit: u32) -> bool
    ensures { result ≡ nat_lt limit (nesting (Items_of (items.now ++ more.now ∷ []))) }
{
    if limit == 0 {
        return true;
    }
    is_some_deeper(items, limit - 1) || more.is_deeper_than(limit - 1)
}

fn is_some_deeper(items: &[Value], limit: u32) -> bool
    ensures { result ≡ nat_lt limit (deepest (map nesting items.now)) }
{
    for item in items {
        if item.is_deeper_than(limit) {
            return true;
        }
    }
    false
}

fn is_some_other_deeper(operand: &Value, items: &[Value], limit: u32) -> bool
    ensures { result ≡ nat_lt limit (deepest (map nesting (without_item operand.now items.now))) }
{
    for item in items {
        if !item.equals(operand) && item.is_deeper_than(limit) {
            return true;
        }
    }
    false
}
