//! Whether a stash entry is sound beside its document.

ghost use Rattle.std.specs.Prelude.{◌↔◌, IsTrue, Some};
ghost use Rattle.std.specs.Option.{option_copied};
ghost use Rattle.store_laws.specs.Soundness.{HasSoundEntry, IsSoundEntry};
ghost use Rattle.store_laws.specs.View.{stash_at, doc_at};
ghost use Rattle.txn_audit.specs.Entries.{IsSoundIfThere};
ghost use Rattle.listed_cells.specs.Listing.{IsListing, content_of};

use listed_cells::{doc_at, stash_at};
use store_trait::{DocCell, Name, Named, StashCell};
use txn_key::Key;

/// Whether the stash entry under a name, if one is there, is sound.
pub(crate) fn has_sound_entry(cells: &[Named], at: &Name) -> bool
    requires { IsListing cells.now }
    ensures { IsTrue result ↔ HasSoundEntry (content_of cells.now) at.now }
{
    match at {
        Name::Stash(key) => is_sound_at(cells, key),
        _ => true,
    }
}

/// The same of the entry under a key.
fn is_sound_at(cells: &[Named], key: &Key) -> bool
    requires { IsListing cells.now }
    ensures { IsTrue result ↔ IsSoundIfThere (doc_at (content_of cells.now) key.now)
        (stash_at (content_of cells.now) key.now) }
{
    is_sound_if_there(doc_at(cells, key), stash_at(cells, key))
}

/// The same of the two cells of a key.
fn is_sound_if_there(doc: Option<&DocCell>, stash: Option<&StashCell>) -> bool
    ensures { IsTrue result ↔ IsSoundIfThere (option_copied doc.entry)
        (option_copied stash.entry) }
{
    match stash {
        Some(stash) => is_sound_entry(doc, stash),
        None => true,
    }
}

/// Whether an entry is sound beside its document, if there is one.
fn is_sound_entry(doc: Option<&DocCell>, stash: &StashCell) -> bool
    ensures { IsTrue result ↔ IsSoundEntry (option_copied doc.entry) stash.now }
{
    match doc {
        Some(doc) => is_sound_beside(doc, stash),
        None => true,
    }
}

/// Whether the entry's epoch is another than the document's, and a greater one if it has no mark.
fn is_sound_beside(doc: &DocCell, stash: &StashCell) -> bool
    ensures { IsTrue result ↔ IsSoundEntry (Some doc.now) stash.now }
{
    let older = doc.revno.unsigned_abs();
    let newer = stash.revno.unsigned_abs();
    older < newer || (newer < older && stash.insert.is_some())
}
