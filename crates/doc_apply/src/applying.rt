ghost use Rattle.std.specs.Prelude.{◌≡◌, IfOk, map, Some, true};
ghost use Rattle.doc_update.specs.Updates.{if_body, updated};

use crate::together::after_all;
use doc_update::{Update, changes_in, fields_of, sort_by_path};
use doc_value::{Lookup, MAX_BODY_NESTING, OutOfMemory, Value};
use std::alloc::Global;

/// The body after the update: None exactly where the update doesn't fit it. Body and update are gone
/// over once, beside the sorting of the update's paths.
pub fn apply(alloc: Global, update: &Update, body: &Value) -> Result<Option<Value>, OutOfMemory>
    ensures { IfOk result (λ after. after ≡ updated update.now body.now) }
{
    if body.is_deeper_than(MAX_BODY_NESTING) {
        return Ok(None);
    }
    let mut changes = changes_in(alloc, fields_of(update.source()))?;
    sort_by_path(&mut changes)?;
    match after_all(alloc, changes.as_slice(), 0, Some(&Lookup::halving(body)))? {
        Some(after) => Ok(if_body(after)),
        None => Ok(None),
    }
}

fn if_body(after: Option<Value>) -> Option<Value>
    ensures { result ≡ if_body after }
{
    match after {
        Some(value) => {
            if value.is_deeper_than(MAX_BODY_NESTING) {
                None
            } else {
                Some(value)
            }
        }
        None => None,
    }
}
