ghost use Rattle.std.specs.Prelude.{◌≡◌, ◌≢◌, IfOk, Ok};
ghost use Rattle.doc_update.specs.Syntax.{fault_of_shape, conflict_fault, fault_of_change, fault_of_changes, fault_of_operators, fault_under};
ghost use Rattle.doc_update.specs.Changes.{fields_of, changes_in};
ghost use Rattle.doc_update.specs.Conflicts.{first_conflict};
ghost use Rattle.doc_update.specs.Operators.{operator_named};

use crate::conflict::first_conflict;
use crate::fault::UpdateFault;
use crate::operator::Operator;
use crate::shape::{are_operators, fields_of, has_empty};
use doc_value::{Field, OutOfMemory, is_path};
use std::alloc::Global;

/// The first fault of an update's operators.
pub(crate) fn fault_among(
    alloc: Global,
    operators: &[Field],
) -> Result<Option<UpdateFault>, OutOfMemory>
    ensures { IfOk result (λ fault. fault ≡ fault_of_shape operators.now) }
{
    if !are_operators(operators) {
        return Ok(Some(UpdateFault::NotOperators));
    }
    if operators.is_empty() || has_empty(operators) {
        return Ok(Some(UpdateFault::Empty));
    }
    if let Some(fault) = fault_of_operators(alloc, operators)? {
        return Ok(Some(fault));
    }
    conflict_among(alloc, operators)
}

fn conflict_among(alloc: Global, operators: &[Field]) -> Result<Option<UpdateFault>, OutOfMemory>
    ensures { IfOk result (λ fault. fault ≡
        conflict_fault (first_conflict (changes_in operators.now))) }
{
    match first_conflict(alloc, operators)? {
        Some(path) => Ok(Some(UpdateFault::Conflict(path.copy(alloc)?))),
        None => Ok(None),
    }
}

/// The first fault of an operator's name, a path or an operand.
fn fault_of_operators(
    alloc: Global,
    operators: &[Field],
) -> Result<Option<UpdateFault>, OutOfMemory>
    ensures { IfOk result (λ fault. fault ≡ fault_of_operators operators.now) }
{
    for operator in operators {
        if let Some(fault) = fault_of_operator(alloc, operator)? {
            return Ok(Some(fault));
        }
    }
    Ok(None)
}

fn fault_of_operator(alloc: Global, field: &Field) -> Result<Option<UpdateFault>, OutOfMemory>
    ensures { IfOk result (λ fault. fault ≡
        fault_under field.now.name (operator_named field.now.name) (fields_of field.now.value)) }
{
    match Operator::named(field.name.as_bytes()) {
        Some(operator) => fault_of_changes(alloc, operator, fields_of(&field.value)),
        None => Ok(Some(UpdateFault::UnknownOperator(field.name.copy(alloc)?))),
    }
}

fn fault_of_changes(
    alloc: Global,
    operator: Operator,
    changes: &[Field],
) -> Result<Option<UpdateFault>, OutOfMemory>
    ensures { IfOk result (λ fault. fault ≡ fault_of_changes operator changes.now) }
{
    for change in changes {
        if let Some(fault) = fault_of_change(alloc, operator, change)? {
            return Ok(Some(fault));
        }
    }
    Ok(None)
}

fn fault_of_change(
    alloc: Global,
    operator: Operator,
    change: &Field,
) -> Result<Option<UpdateFault>, OutOfMemory>
    ensures { IfOk result (λ fault. fault ≡ fault_of_change operator change.now) }
{
    if !is_path(alloc, change.name.as_bytes())? {
        return Ok(Some(UpdateFault::BadPath(change.name.copy(alloc)?)));
    }
    if !operator.takes(&change.value) {
        return Ok(Some(UpdateFault::BadOperand(change.name.copy(alloc)?)));
    }
    Ok(None)
}
