//! Conflicts between the paths of an update, found among neighbours in the order of the paths.
ghost use Rattle.std.specs.Prelude.{◌≡◌, IfOk, map, take};
ghost use Rattle.std.specs.Option.{option_copied};
ghost use Rattle.doc_update.specs.Changes.{changes_in};
ghost use Rattle.doc_update.specs.Conflicts.{paths_conflict, are_apart, first_conflict, neighbours_apart, apart_from_next};
ghost use Rattle.doc_update.specs.Listed.{change_listed};

use crate::change::{Change, changes_in};
use crate::path_order::sort_by_path;
use doc_value::{Field, OutOfMemory, Text};
use std::alloc::Global;

/// The path of the first change that conflicts with one before it. The changes up to it conflict, and
/// those before it don't, so it is found by halving.
pub(crate) fn first_conflict<'a>(
    alloc: Global,
    operators: &'a [Field],
) -> Result<Option<&'a Text>, OutOfMemory>
    ensures { IfOk result (λ path. option_copied path ≡ first_conflict (changes_in operators.now)) }
{
    let changes = changes_in(alloc, operators)?;
    let mut conflicting = changes.len();
    if are_apart(alloc, operators, conflicting)? {
        return Ok(None);
    }
    let mut apart = 0;
    while conflicting - apart > 1 {
        let middle = apart + (conflicting - apart) / 2;
        if are_apart(alloc, operators, middle)? {
            apart = middle;
        } else {
            conflicting = middle;
        }
    }
    let field = changes[apart].field;
    Ok(Some(&field.name))
}

/// Whether no two of so many changes at the front conflict.
fn are_apart(alloc: Global, operators: &[Field], count: usize) -> Result<bool, OutOfMemory>
    ensures { IfOk result (λ apart. apart ≡ are_apart (take count (changes_in operators.now))) }
{
    let mut changes = changes_in(alloc, operators)?;
    changes.truncate(count);
    sort_by_path(&mut changes)?;
    Ok(neighbours_apart(changes.as_slice()))
}

fn neighbours_apart(changes: &[Change]) -> bool
    ensures { result ≡ neighbours_apart (map change_listed changes.now) }
{
    for i in 0..changes.len() {
        if !is_apart_from_next(&changes[i], &changes[i + 1..]) {
            return false;
        }
    }
    true
}

fn is_apart_from_next(change: &Change, rest: &[Change]) -> bool
    ensures { result ≡ apart_from_next (change_listed change.now) (map change_listed rest.now) }
{
    match rest.first() {
        Some(next) => !paths_conflict(change.parts.as_slice(), next.parts.as_slice()),
        None => true,
    }
}

/// Whether no part of the shorter path differs from the other's at its place.
fn paths_conflict(parts: &[Text], others: &[Text]) -> bool
    ensures { result ≡ paths_conflict parts.now others.now }
{
    for i in 0..parts.len() {
        if i == others.len() {
            return true;
        }
        if parts[i].as_bytes() != others[i].as_bytes() {
            return false;
        }
    }
    true
}
