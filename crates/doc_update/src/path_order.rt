//! The order of an update's paths.
ghost use Rattle.std.specs.Prelude.{◌≡◌, OnOk};
ghost use Rattle.std.specs.Cmp.Lexicographic.{slice_cmp};
ghost use Rattle.std.specs.List.Sorted.{IsPermutation, IsSortedByKey};
ghost use Rattle.std.specs.Ordering.{nat_cmp};

use crate::change::Change;
use doc_value::{OutOfMemory, Text};
use std::cmp::Ordering;

/// Puts the changes in order of their paths.
pub fn sort_by_path(changes: &mut Vec<Change>) -> Result<(), OutOfMemory>
    ensures moved { IsPermutation changes.old.items changes.new.items }
    ensures sorted { OnOk result (IsSortedByKey
        (λ change. change.parts) (slice_cmp (slice_cmp nat_cmp)) changes.new.items) }
{
    changes.sort_by(|change, other| compare_paths(
        change.parts.as_slice(),
        other.parts.as_slice(),
    ))?;
    Ok(())
}

/// The order of paths by their parts, and of parts by their bytes.
fn compare_paths(parts: &[Text], others: &[Text]) -> Ordering
    ensures { result ≡ slice_cmp (slice_cmp nat_cmp) parts.now others.now }
{
    for i in 0..parts.len() {
        if i == others.len() {
            return Ordering::Greater;
        }
        let order = parts[i].compare(&others[i]);
        if order != Ordering::Equal {
            return order;
        }
    }
    if parts.len() == others.len() {
        Ordering::Equal
    } else {
        Ordering::Less
    }
}
