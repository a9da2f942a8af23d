ghost use Rattle.std.specs.Prelude.{◌≡◌};
ghost use Rattle.std.specs.Option.{option_copied};
ghost use Rattle.store_trait.specs.Owners.{owner_of};

use crate::cell::{DocCell, StashCell};

/// Which of a key's two cells owns it.
#[derive(Clone, Copy, Debug, PartialEq, Eq)]
pub enum Side {
    Neither,
    Document,
    Stash,
}

/// Which of a key's two cells owns it: that of the greater epoch, the document on a tie, the only
/// one where one is there. A cell's epoch is the absolute value of its revision number.
pub fn owner(doc: Option<&DocCell>, stash: Option<&StashCell>) -> Side
    ensures { result ≡ owner_of (option_copied doc.entry) (option_copied stash.entry) }
{
    match (doc, stash) {
        (None, None) => Side::Neither,
        (Some(_), None) => Side::Document,
        (None, Some(_)) => Side::Stash,
        (Some(doc), Some(stash)) if doc.revno.unsigned_abs() < stash.revno.unsigned_abs() =>
            Side::Stash,
        (Some(_), Some(_)) => Side::Document,
    }
}
