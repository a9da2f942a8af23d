//! All changes of an update made in one pass over the body.
ghost use Rattle.std.specs.Prelude.{◌≡◌, ◌+◌, ◌<◌, ◌≤◌, IfOk, drop, length, map, true};
ghost use Rattle.std.specs.Option.{option_copied};
ghost use Rattle.std.specs.Cmp.Lexicographic.{slice_cmp};
ghost use Rattle.std.specs.Ordering.{nat_cmp};
ghost use Rattle.doc_update.specs.Conflicts.{are_apart};
ghost use Rattle.doc_apply.specs.Groups.{first_head, count_head, heads_rise, precedes_head, first_part, has_head, change_below};
ghost use Rattle.doc_update.specs.Updates.{after_changes};

use crate::fitting::{part_of, value_of};
use crate::place::changed;
use crate::put::{Put, place_all};
use doc_update::Change;
use doc_value::{Lookup, OutOfMemory, Text, Value};
use std::alloc::Global;
use std::cmp::Ordering;

/// What was found after the changes, whose paths go on at that depth: None where one doesn't fit. Changes
/// in order of their paths are taken by the part that their paths go on with, so that what was found is
/// copied once; others would be taken in turn.
pub(crate) fn after_all(
    alloc: Global,
    changes: &[Change],
    depth: usize,
    found: Option<&Lookup>,
) -> Result<Option<Option<Value>>, OutOfMemory>
    requires { are_apart (map (change_below depth) changes.now) ≡ true }
    ensures { IfOk result (λ after. after ≡
        after_changes (map (change_below depth) changes.now) (option_copied found.entry)) }
{
    if let [change] = changes {
        return changed(alloc, change, parts_below(change, depth), value_of(found));
    }
    if !heads_rise(changes, depth) {
        return after_each(alloc, changes, depth, value_of(found));
    }
    let mut puts = Vec::new(alloc);
    let mut start = 0;
    while start < changes.len() {
        let (_, rest) = changes.split_at(start);
        let Some(part) = first_head(rest, depth) else {
            return Ok(None);
        };
        let count = count_head(rest, depth, part);
        let (group, _) = rest.split_at(count);
        let next = depth_below(&changes[start], depth);
        let below = part_of(part.as_bytes(), found);
        let Some(after) = after_all(alloc, group, next, below.as_ref())? else {
            return Ok(None);
        };
        let part = part.copy(alloc)?;
        puts.push(Put { part, after })?;
        start += count;
    }
    place_all(alloc, puts, value_of(found))
}

/// The same, one change after another.
fn after_each(
    alloc: Global,
    changes: &[Change],
    depth: usize,
    found: Option<&Value>,
) -> Result<Option<Option<Value>>, OutOfMemory>
    ensures { IfOk result (λ after. after ≡
        after_changes (map (change_below depth) changes.now) (option_copied found.entry)) }
{
    let mut made = copy_found(alloc, found)?;
    for change in changes {
        let parts = parts_below(change, depth);
        match changed(alloc, change, parts, made.as_ref())? {
            Some(next) => made = next,
            None => return Ok(None),
        }
    }
    Ok(Some(made))
}

fn copy_found(alloc: Global, found: Option<&Value>) -> Result<Option<Value>, OutOfMemory>
    ensures { IfOk result (λ copy. copy ≡ option_copied found.entry) }
{
    match found {
        Some(value) => Ok(Some(value.copy(alloc)?)),
        None => Ok(None),
    }
}

/// What is left of the change's path at that depth.
fn parts_below<'a>(change: &'a Change, depth: usize) -> &'a [Text]
    ensures { result.now ≡ drop depth change.now.parts }
{
    let parts = change.parts.as_slice();
    if depth <= parts.len() {
        &parts[depth..]
    } else {
        &[]
    }
}

/// The depth after the part at that depth, where there is one.
fn depth_below(change: &Change, depth: usize) -> usize
    ensures { depth < length change.now.parts → result ≡ depth + 1 }
{
    let left = parts_below(change, depth).len();
    if left == 0 {
        return depth;
    }
    change.parts.len() - (left - 1)
}

fn first_head<'a>(changes: &'a [Change], depth: usize) -> Option<&'a Text>
    ensures { option_copied result ≡ first_head (map (change_below depth) changes.now) }
{
    match changes.first() {
        Some(change) => head_of(change, depth),
        None => None,
    }
}

fn head_of<'a>(change: &'a Change, depth: usize) -> Option<&'a Text>
    ensures { option_copied result ≡ first_part (change_below depth change.now).path }
{
    parts_below(change, depth).first()
}

/// How many changes at the front have paths that go on with that part.
fn count_head(changes: &[Change], depth: usize, part: &Text) -> usize
    ensures count { result ≡ count_head part.now (map (change_below depth) changes.now) }
    ensures within { result ≤ length changes.now }
{
    let mut count = 0;
    for change in changes {
        if !has_head(change, depth, part) {
            return count;
        }
        count += 1;
    }
    count
}

fn has_head(change: &Change, depth: usize, part: &Text) -> bool
    ensures { result ≡ has_head part.now (change_below depth change.now) }
{
    match parts_below(change, depth).split_first() {
        Some((head, _)) => head.as_bytes() == part.as_bytes(),
        None => false,
    }
}

/// Whether the paths go on, each with no lower part than the one before.
fn heads_rise(changes: &[Change], depth: usize) -> bool
    ensures { result ≡ heads_rise (map (change_below depth) changes.now) }
{
    for i in 0..changes.len() {
        if !precedes_head(head_of(&changes[i], depth), &changes[i + 1..], depth) {
            return false;
        }
    }
    true
}

fn precedes_head(head: Option<&Text>, rest: &[Change], depth: usize) -> bool
    ensures { result ≡
        precedes_head (option_copied head.entry) (map (change_below depth) rest.now) }
{
    let Some(part) = head else {
        return false;
    };
    match rest.first() {
        Some(change) => match head_of(change, depth) {
            Some(other) => part.compare(other) != Ordering::Greater,
            None => false,
        },
        None => true,
    }
}
