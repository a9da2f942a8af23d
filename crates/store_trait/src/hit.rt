//! Whether an edit hits, by the guards.
ghost use Rattle.std.specs.Prelude.{◌≡◌, ℕ, ℤ, List, Option, is_some};
ghost use Rattle.std.specs.Option.{option_copied};
ghost use Rattle.txn_key.specs.declared.id.Token.{Token as TokenValue};
ghost use Rattle.txn_record.specs.declared.state.State.{State as StateValue};
ghost use Rattle.store_trait.specs.Edits.{hit, hit_insert_record, hit_move, hit_add_token, hit_doc_update, hit_update, hit_mark_remove, hit_mark_insert, hit_drop_doc, hit_pull, hit_draw_nonce, hit_place, hit_erase, hit_replace};

use crate::cell::{Cell, DocCell};
use crate::edit::Edit;
use crate::equality::same_id;
use crate::guards::{
    has_nonce, is_at, is_erased, is_free_doc, is_free_stash, is_in, is_newer_doc, is_newer_stash,
    is_replaced, may_stand, takes_update,
};
use crate::name::Name;
use doc_apply::fits;
use doc_update::Update;
use txn_key::Token;
use txn_record::{Record, State};

/// Whether an edit hits the cell that stands under a name, if one does.
pub fn hits(name: &Name, edit: &Edit, cell: Option<&Cell>) -> bool
    ensures { result ≡ is_some (hit edit.now name.now (option_copied cell.entry)) }
{
    match edit {
        Edit::InsertRecord { rec } => inserts_record(name, rec, cell),
        Edit::Move { from, .. } => moves(name, *from, cell),
        Edit::AddToken { .. } => adds_token(name, cell),
        Edit::Update {
            revno,
            token,
            update,
        } => updates(name, *revno, token, update, cell),
        Edit::MarkRemove { revno, token } => marks_removal(name, *revno, token, cell),
        Edit::MarkInsert { revno, token } => marks_insertion(name, *revno, token, cell),
        Edit::PutDocNewer { revno, .. } => is_newer_doc(*revno, name, cell),
        Edit::PutStashNewer { revno, .. } => is_newer_stash(*revno, name, cell),
        Edit::DropDoc { revno } => drops_doc(name, *revno, cell),
        Edit::Pull { revno, token } => pulls(name, *revno, token, cell),
        Edit::DrawNonce => draws_nonce(name, cell),
        Edit::Place { cell: placed } => places(name, placed, cell),
        Edit::Erase { cell: erased } => erases(name, erased, cell),
        Edit::Replace { old, new } => replaces(name, old, new, cell),
    }
}

fn inserts_record(name: &Name, rec: &Record, cell: Option<&Cell>) -> bool
    ensures { result ≡ is_some (hit_insert_record rec.now name.now (option_copied cell.entry)) }
{
    match (name, cell) {
        (Name::Record(id), None) => same_id(id, &rec.id),
        _ => false,
    }
}

fn moves(name: &Name, from: State, cell: Option<&Cell>) -> bool
    ensures { (to : StateValue) (nonce : Option ℕ) (revnos : Option (List ℤ)) →
        result ≡ is_some (hit_move from to nonce revnos name.now (option_copied cell.entry)) }
{
    match (name, cell) {
        (Name::Record(_), Some(Cell::Record(rec))) => is_in(rec, from),
        _ => false,
    }
}

fn adds_token(name: &Name, cell: Option<&Cell>) -> bool
    ensures { (token : TokenValue) →
        result ≡ is_some (hit_add_token token name.now (option_copied cell.entry)) }
{
    match (name, cell) {
        (Name::Doc(_), Some(Cell::Doc(doc))) => doc.remove.is_none(),
        (Name::Stash(_), None) => true,
        (Name::Stash(_), Some(Cell::Stash(stash))) => stash.insert.is_none(),
        _ => false,
    }
}

fn updates(name: &Name, revno: i64, token: &Token, update: &Update, cell: Option<&Cell>) -> bool
    ensures { result ≡
        is_some (hit_update revno token.now update.now name.now (option_copied cell.entry)) }
{
    match (name, cell) {
        (Name::Doc(_), Some(Cell::Doc(doc))) => updates_doc(revno, token, update, doc),
        _ => false,
    }
}

fn updates_doc(revno: i64, token: &Token, update: &Update, doc: &DocCell) -> bool
    ensures { result ≡ is_some (hit_doc_update revno token.now update.now doc.now) }
{
    takes_update(doc, revno, token) && fits(update, &doc.body)
}

fn marks_removal(name: &Name, revno: i64, token: &Token, cell: Option<&Cell>) -> bool
    ensures { result ≡
        is_some (hit_mark_remove revno token.now name.now (option_copied cell.entry)) }
{
    match (name, cell) {
        (Name::Doc(_), Some(Cell::Doc(doc))) => is_free_doc(doc, revno, token),
        _ => false,
    }
}

fn marks_insertion(name: &Name, revno: i64, token: &Token, cell: Option<&Cell>) -> bool
    ensures { result ≡
        is_some (hit_mark_insert revno token.now name.now (option_copied cell.entry)) }
{
    match (name, cell) {
        (Name::Stash(_), Some(Cell::Stash(stash))) => is_free_stash(stash, revno, token),
        _ => false,
    }
}

fn drops_doc(name: &Name, revno: i64, cell: Option<&Cell>) -> bool
    ensures { result ≡ is_some (hit_drop_doc revno name.now (option_copied cell.entry)) }
{
    match (name, cell) {
        (Name::Doc(_), Some(Cell::Doc(doc))) => is_at(doc, revno),
        _ => false,
    }
}

fn pulls(name: &Name, revno: i64, token: &Token, cell: Option<&Cell>) -> bool
    ensures { result ≡ is_some (hit_pull revno token.now name.now (option_copied cell.entry)) }
{
    match (name, cell) {
        (Name::Doc(_), Some(Cell::Doc(doc))) => is_free_doc(doc, revno, token),
        (Name::Stash(_), Some(Cell::Stash(stash))) => is_free_stash(stash, revno, token),
        _ => false,
    }
}

fn draws_nonce(name: &Name, cell: Option<&Cell>) -> bool
    ensures { result ≡ is_some (hit_draw_nonce name.now (option_copied cell.entry)) }
{
    match (name, cell) {
        (Name::Nonce, None) => true,
        (Name::Nonce, Some(Cell::Nonce(counter))) => has_nonce(*counter),
        _ => false,
    }
}

fn places(name: &Name, placed: &Cell, cell: Option<&Cell>) -> bool
    ensures { result ≡ is_some (hit_place placed.now name.now (option_copied cell.entry)) }
{
    match cell {
        None => may_stand(name, placed),
        Some(_) => false,
    }
}

fn erases(name: &Name, erased: &Cell, cell: Option<&Cell>) -> bool
    ensures { result ≡ is_some (hit_erase erased.now name.now (option_copied cell.entry)) }
{
    match cell {
        Some(held) => is_erased(name, erased, held),
        None => false,
    }
}

fn replaces(name: &Name, old: &Cell, new: &Cell, cell: Option<&Cell>) -> bool
    ensures { result ≡ is_some (hit_replace old.now new.now name.now (option_copied cell.entry)) }
{
    match cell {
        Some(held) => is_replaced(name, old, new, held),
        None => false,
    }
}
