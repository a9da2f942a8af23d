//! What conditions ask of a field, which may be missing. Nothing here takes memory.
ghost use Rattle.std.specs.Prelude.{◌≡◌, map};
ghost use Rattle.std.specs.List.{list_any};
ghost use Rattle.std.specs.Option.{option_copied};
ghost use Rattle.doc_value.specs.Fields.{judged};
ghost use Rattle.doc_value.specs.declared.value.Value.{out-Value};
ghost use Rattle.doc_query.specs.Operators.{operator_named};
ghost use Rattle.doc_value.specs.Same.{same};
ghost use Rattle.doc_query.specs.Conditions.{elements, equals, equals_some, exists, has_size, order_of, allows, compares, compares_some, passes, passes_all, passes_named, all_pass, beside_truth, is_operators, meets};

use crate::operator::{Comparison, Operator, are_all_operators};
use doc_value::{Field, Value};
use std::cmp::Ordering;

/// Whether the condition that stands under a path holds of the field there.
pub(crate) fn is_met(condition: &Value, field: Option<&Value>) -> bool
    ensures { result ≡ meets condition.now (option_copied field.entry) }
{
    if has_operators_alone(condition) {
        all_operators_pass(condition, field)
    } else {
        equals_field(condition, field)
    }
}

fn has_operators_alone(condition: &Value) -> bool
    ensures { result ≡ is_operators (out-Value condition.now) }
{
    match condition {
        Value::Object(fields) => are_all_operators(fields.as_slice()),
        _ => false,
    }
}

#[cycle(passing)]
#[tactic(auto, using(crate::proofs::Levels::passes_all_level))]
fn all_operators_pass(operators: &Value, field: Option<&Value>) -> bool
    ensures { result ≡ passes_all operators.now (option_copied field.entry) }
{
    match operators {
        Value::Object(operators) => each_passes(operators.as_slice(), field),
        _ => false,
    }
}

#[cycle(passing)]
fn each_passes(operators: &[Field], field: Option<&Value>) -> bool
    ensures { result ≡
        all_pass (map (judged beside_truth) operators.now) (option_copied field.entry) }
{
    for operator in operators {
        if !named_passes(operator.name.as_bytes(), &operator.value, field) {
            return false;
        }
    }
    true
}

#[cycle(passing)]
fn named_passes(name: &[u8], operand: &Value, field: Option<&Value>) -> bool
    ensures { result ≡ passes_named (operator_named name.now) operand.now (passes_all operand.now)
        (option_copied field.entry) }
{
    match Operator::read(name) {
        None => false,
        Some(Operator::Not) => !all_operators_pass(operand, field),
        Some(Operator::Equal) => equals_field(operand, field),
        Some(Operator::NotEqual) => !equals_field(operand, field),
        Some(Operator::In) => equals_field_in(operand, field),
        Some(Operator::NotIn) => !equals_field_in(operand, field),
        Some(Operator::Exists) => is_there(operand, field),
        Some(Operator::Size) => is_of_size(operand, field),
        Some(Operator::Compare(comparison)) => compares_field(comparison, operand, field),
    }
}

/// The elements of a list; any other value has none.
fn elements_of(value: &Value) -> &[Value]
    ensures { result.now ≡ elements value.now }
{
    match value {
        Value::List(values) => values.as_slice(),
        _ => &[],
    }
}

fn equals_field(operand: &Value, field: Option<&Value>) -> bool
    ensures { result ≡ equals operand.now (option_copied field.entry) }
{
    match field {
        None => matches!(operand, Value::Null),
        Some(field) => field.equals(operand) || contains(elements_of(field), operand),
    }
}

fn contains(values: &[Value], value: &Value) -> bool
    ensures { result ≡ list_any (λ element. same element value.now) values.now }
{
    values.iter().any(|element| element.equals(value))
}

/// Whether the field equals a member of the list that the operand is.
fn equals_field_in(operand: &Value, field: Option<&Value>) -> bool
    ensures { result ≡ equals_some operand.now (option_copied field.entry) }
{
    some_equals(elements_of(operand), field)
}

fn some_equals(members: &[Value], field: Option<&Value>) -> bool
    ensures { result ≡ list_any (λ member. equals member (option_copied field.entry)) members.now }
{
    members.iter().any(|member| equals_field(member, field))
}

fn is_there(operand: &Value, field: Option<&Value>) -> bool
    ensures { result ≡ exists operand.now (option_copied field.entry) }
{
    match operand {
        Value::Bool(truth) => field.is_some() == *truth,
        _ => false,
    }
}

fn is_of_size(operand: &Value, field: Option<&Value>) -> bool
    ensures { result ≡ has_size operand.now (option_copied field.entry) }
{
    match (operand, field) {
        (Value::Int(number), Some(Value::List(values))) => {
            *number >= 0 && *number as u64 == values.len() as u64
        }
        _ => false,
    }
}

fn compares_field(comparison: Comparison, operand: &Value, field: Option<&Value>) -> bool
    ensures { result ≡ compares_some comparison operand.now (option_copied field.entry) }
{
    match field {
        None => false,
        Some(field) => {
            is_so(comparison, operand, field) || some_is_so(comparison, operand, elements_of(field))
        }
    }
}

fn some_is_so(comparison: Comparison, operand: &Value, values: &[Value]) -> bool
    ensures { result ≡ list_any (compares comparison operand.now) values.now }
{
    values.iter().any(|value| is_so(comparison, operand, value))
}

/// Whether the value compares so to the operand.
fn is_so(comparison: Comparison, operand: &Value, value: &Value) -> bool
    ensures { result ≡ compares comparison operand.now value.now }
{
    match order(value, operand) {
        None => false,
        Some(ordering) => comparison.allows(ordering),
    }
}

impl Comparison {
    fn allows(self, ordering: Ordering) -> bool
        ensures { result ≡ allows self ordering }
    {
        match self {
            Comparison::Greater => ordering == Ordering::Greater,
            Comparison::GreaterOrEqual => ordering != Ordering::Less,
            Comparison::Less => ordering == Ordering::Less,
            Comparison::LessOrEqual => ordering != Ordering::Greater,
        }
    }
}

/// The order of two whole numbers, or of two texts by their bytes; other kinds don't compare.
fn order(value: &Value, other: &Value) -> Option<Ordering>
    ensures { result ≡ order_of (out-Value value.now) (out-Value other.now) }
{
    match (value, other) {
        (Value::Int(number), Value::Int(other)) => Some(number.cmp(other)),
        (Value::Text(text), Value::Text(other)) => Some(text.compare(other)),
        _ => None,
    }
}
