//! The first fault of a value that is to be read as a query.
ghost use Rattle.std.specs.Prelude.{◌≡◌, map};
ghost use Rattle.doc_value.specs.Fields.{judged};
ghost use Rattle.doc_value.specs.declared.value.Value.{out-Value};
ghost use Rattle.doc_query.specs.Operators.{operator_named, logic_named, is_operand};
ghost use Rattle.doc_query.specs.Syntax.{as_query, as_queries, as_member, as_condition, as_negated, operator_fault, operators_fault, condition_fault, logic_fault, path_fault, name_fault, names_fault, members_fault, queries_fault, negated_fault, fault_at, beside_fault, operand_fault, Reports};

use crate::fault::QueryFault;
use crate::operator::{Logic, Operator, are_all_operators, has_operator, is_operator};
use doc_value::{Field, Text, Value, is_path};
use std::alloc::Global;

/// Refuses a value that is no query.
#[tactic(auto, using(crate::proofs::Levels::fault_at_level))]
pub(crate) fn check_query(alloc: Global, value: &Value) -> Result<(), QueryFault>
    ensures { Reports result (fault_at value.now as_query) }
{
    match value {
        Value::Object(fields) => check_names(alloc, fields.as_slice()),
        _ => Err(QueryFault::NotObject),
    }
}

#[cycle(queries)]
fn check_names(alloc: Global, fields: &[Field]) -> Result<(), QueryFault>
    ensures { Reports result (names_fault (map (judged beside_fault) fields.now)) }
{
    for field in fields {
        check_name(alloc, &field.name, &field.value)?;
    }
    Ok(())
}

#[cycle(queries)]
fn check_name(alloc: Global, name: &Text, value: &Value) -> Result<(), QueryFault>
    ensures { Reports result (name_fault name.now (fault_at value.now)) }
{
    if is_operator(name.as_bytes()) {
        return match Logic::read(name.as_bytes()) {
            Some(_) => check_queries(alloc, name, value),
            None => Err(QueryFault::UnknownOperator(name.copy(alloc)?)),
        };
    }
    if !is_path(alloc, name.as_bytes())? {
        return Err(QueryFault::BadPath(name.copy(alloc)?));
    }
    check_condition(alloc, name, value)
}

/// Refuses what is no list of queries under the operator of that name.
#[cycle(queries)]
#[tactic(auto, using(crate::proofs::Levels::fault_at_level))]
fn check_queries(alloc: Global, name: &Text, value: &Value) -> Result<(), QueryFault>
    ensures { Reports result (fault_at value.now (as_queries name.now)) }
{
    match value {
        Value::List(values) => check_members(alloc, name, values.as_slice()),
        _ => Err(QueryFault::BadOperand(name.copy(alloc)?)),
    }
}

#[cycle(queries)]
fn check_members(alloc: Global, name: &Text, values: &[Value]) -> Result<(), QueryFault>
    ensures { Reports result (queries_fault name.now (map beside_fault values.now)) }
{
    if values.is_empty() {
        return Err(QueryFault::EmptyList(name.copy(alloc)?));
    }
    for value in values {
        check_member(alloc, name, value)?;
    }
    Ok(())
}

#[cycle(queries)]
#[tactic(auto, using(crate::proofs::Levels::fault_at_level))]
fn check_member(alloc: Global, name: &Text, value: &Value) -> Result<(), QueryFault>
    ensures { Reports result (fault_at value.now (as_member name.now)) }
{
    match value {
        Value::Object(fields) => check_names(alloc, fields.as_slice()),
        _ => Err(QueryFault::BadOperand(name.copy(alloc)?)),
    }
}

/// Refuses what can't stand under the path.
#[tactic(auto, using(crate::proofs::Levels::fault_at_level))]
fn check_condition(alloc: Global, path: &Text, value: &Value) -> Result<(), QueryFault>
    ensures { Reports result (fault_at value.now (as_condition path.now)) }
{
    match value {
        Value::Object(fields) => check_condition_fields(alloc, path, fields.as_slice()),
        _ => Ok(()),
    }
}

#[tactic(auto, using(crate::proofs::OperatorFields::names_alone))]
fn check_condition_fields(alloc: Global, path: &Text, fields: &[Field]) -> Result<(), QueryFault>
    ensures { Reports result (condition_fault path.now (map (judged beside_fault) fields.now)) }
{
    if are_all_operators(fields) {
        return check_operators(alloc, fields);
    }
    if has_operator(fields) {
        return Err(QueryFault::Mixed(path.copy(alloc)?));
    }
    Ok(())
}

#[cycle(conditions)]
fn check_operators(alloc: Global, fields: &[Field]) -> Result<(), QueryFault>
    ensures { Reports result (operators_fault (map (judged beside_fault) fields.now)) }
{
    for field in fields {
        check_operator(alloc, &field.name, &field.value)?;
    }
    Ok(())
}

#[cycle(conditions)]
fn check_operator(alloc: Global, name: &Text, operand: &Value) -> Result<(), QueryFault>
    ensures { Reports result (operator_fault name.now (operator_named name.now) operand.now
        (fault_at operand.now)) }
{
    match Operator::read(name.as_bytes()) {
        None => Err(QueryFault::UnknownOperator(name.copy(alloc)?)),
        Some(Operator::Not) => check_negated(alloc, name, operand),
        Some(operator) => check_operand(alloc, name, operator, operand),
    }
}

fn check_operand(
    alloc: Global,
    name: &Text,
    operator: Operator,
    operand: &Value,
) -> Result<(), QueryFault>
    ensures { Reports result (operand_fault name.now operator operand.now) }
{
    if operator.takes(operand) {
        return Ok(());
    }
    Err(QueryFault::BadOperand(name.copy(alloc)?))
}

/// Refuses what `$not` can't negate: it takes operators alone, and at least one.
#[cycle(conditions)]
#[tactic(auto, using(crate::proofs::Levels::fault_at_level))]
fn check_negated(alloc: Global, name: &Text, value: &Value) -> Result<(), QueryFault>
    ensures { Reports result (fault_at value.now (as_negated name.now)) }
{
    match value {
        Value::Object(fields) => check_negated_fields(alloc, name, fields.as_slice()),
        _ => Err(QueryFault::BadOperand(name.copy(alloc)?)),
    }
}

#[cycle(conditions)]
#[tactic(auto, using(crate::proofs::OperatorFields::names_alone))]
fn check_negated_fields(alloc: Global, name: &Text, fields: &[Field]) -> Result<(), QueryFault>
    ensures { Reports result (negated_fault name.now (map (judged beside_fault) fields.now)) }
{
    if !are_all_operators(fields) {
        return Err(QueryFault::BadOperand(name.copy(alloc)?));
    }
    check_operators(alloc, fields)
}
