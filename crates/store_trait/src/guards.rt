//! The guards of edits: what each asks of the cell that it meets.
ghost use Rattle.std.specs.Prelude.{◌≡◌, ◌&&◌, nat_lt, ℤ};
ghost use Rattle.std.specs.Option.{option_copied};
ghost use Rattle.std.specs.Ordering.{int_eq};
ghost use Rattle.store_trait.specs.Names.{same_id, same_state, may_stand};
ghost use Rattle.store_trait.specs.Same.{same_cell};
ghost use Rattle.store_trait.specs.Edits.{has_token, is_updatable, is_free_doc, is_free_stash, is_newer_doc, is_newer_stash, nonce_limit};

use crate::cell::{Cell, DocCell, StashCell};
use crate::equality::{same_id, same_token};
use crate::name::Name;
use txn_key::Token;
use txn_record::{Record, State};

/// Whether a record is in a state.
pub(crate) fn is_in(rec: &Record, state: State) -> bool
    ensures { result ≡ same_state rec.now.state state }
{
    rec.state.number() == state.number()
}

/// Whether a document stands at a revision number that has a next one, with a token in its queue.
pub(crate) fn takes_update(doc: &DocCell, revno: i64, token: &Token) -> bool
    ensures { result ≡ is_updatable doc.now revno token.now }
{
    doc.revno == revno && revno < i64::MAX && has_token(doc.queue.as_slice(), token)
}

/// Whether a document stands at a revision number.
pub(crate) fn is_at(doc: &DocCell, revno: i64) -> bool
    ensures { result ≡ int_eq doc.now.revno revno }
{
    doc.revno == revno
}

/// Whether an unmarked document stands at a revision number, with a token in its queue.
pub(crate) fn is_free_doc(doc: &DocCell, revno: i64, token: &Token) -> bool
    ensures { result ≡ is_free_doc revno token.now doc.now }
{
    doc.revno == revno && doc.remove.is_none() && has_token(doc.queue.as_slice(), token)
}

/// Whether an unmarked stash entry stands at a revision number, with a token in its queue.
pub(crate) fn is_free_stash(stash: &StashCell, revno: i64, token: &Token) -> bool
    ensures { result ≡ is_free_stash revno token.now stash.now }
{
    stash.revno == revno && stash.insert.is_none() && has_token(stash.queue.as_slice(), token)
}

/// Whether a name is that of a key without a document, or with one at a smaller number.
pub(crate) fn is_newer_doc(revno: i64, name: &Name, cell: Option<&Cell>) -> bool
    ensures { result ≡ is_newer_doc revno name.now (option_copied cell.entry) }
{
    match (name, cell) {
        (Name::Doc(_), None) => true,
        (Name::Doc(_), Some(Cell::Doc(doc))) => doc.revno < revno,
        _ => false,
    }
}

/// Whether a name is that of a key without a stash entry, or with one of a smaller epoch.
pub(crate) fn is_newer_stash(revno: i64, name: &Name, cell: Option<&Cell>) -> bool
    ensures { result ≡ is_newer_stash revno name.now (option_copied cell.entry) }
{
    match (name, cell) {
        (Name::Stash(_), None) => true,
        (Name::Stash(_), Some(Cell::Stash(stash))) => {
            stash.revno.unsigned_abs() < revno.unsigned_abs()
        }
        _ => false,
    }
}

/// Whether a nonce is left at a counter.
pub(crate) fn has_nonce(counter: u32) -> bool
    ensures { result ≡ nat_lt counter nonce_limit }
{
    counter < u32::MAX
}

/// Whether the cell that is held under a name is the one to erase.
pub(crate) fn is_erased(name: &Name, erased: &Cell, held: &Cell) -> bool
    ensures { result ≡ (may_stand name.now erased.now && same_cell held.now erased.now) }
{
    may_stand(name, erased) && held.equals(erased)
}

/// Whether the cell that is held under a name is the one to replace.
pub(crate) fn is_replaced(name: &Name, old: &Cell, new: &Cell, held: &Cell) -> bool
    ensures { result ≡
        (may_stand name.now old.now && may_stand name.now new.now && same_cell held.now old.now) }
{
    may_stand(name, old) && may_stand(name, new) && held.equals(old)
}

/// Whether a token is in a queue.
pub(crate) fn has_token(queue: &[Token], token: &Token) -> bool
    ensures { result ≡ has_token token.now queue.now }
{
    queue.iter().any(|other| same_token(token, other))
}

/// Whether a cell is of a name's kind, and a record under its own id.
pub(crate) fn may_stand(name: &Name, cell: &Cell) -> bool
    ensures { result ≡ may_stand name.now cell.now }
{
    match (name, cell) {
        (Name::Record(id), Cell::Record(rec)) => same_id(id, &rec.id),
        (Name::Doc(_), Cell::Doc(_)) => true,
        (Name::Stash(_), Cell::Stash(_)) => true,
        (Name::Nonce, Cell::Nonce(_)) => true,
        _ => false,
    }
}
