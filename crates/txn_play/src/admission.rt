//! What `doc`, `cell` and `txn` statements ask of the store.

ghost use Rattle.std.specs.Prelude.{◌≡◌, true, false, ◌&&◌, IsTrue, IfOk, OnErr, None, Some, is_some, is_none, if◌then◌else◌};
ghost use Rattle.std.specs.Bool.{OnTrue};
ghost use Rattle.std.specs.FinMap.{get, insert};
ghost use Rattle.store_trait.specs.Names.{may_stand};
ghost use Rattle.txn_play.specs.Progress.{has_no_cell, may_settle, placed_doc};
ghost use Rattle.txn_play.specs.Refusals.{CallsAlone};
ghost use Rattle.txn_runner.specs.Built.{is_built};
ghost use Rattle.store_laws.specs.Reads.{OnlyReads};
ghost use Rattle.txn_runner.specs.Store.{has_record};

use crate::objection::Objection;
use crate::refusal::Refusal;
use doc_value::Value;
use sqlite_items::Items;
use std::alloc::Global;
use store_trait::{Cell, DocCell, Edit, Name, Store};
use txn_key::TxnId;
use txn_record::Ops;
use txn_runner::{is_built, only};

/// Whether the store has no cell.
pub fn is_empty<S: Store>(alloc: Global, store: &mut S) -> Result<bool, Refusal>
    ensures answer { IsTrue S.tells → IfOk result (λ answer.
        answer ≡ has_no_cell (S.content store.old)) }
    ensures same { IsTrue S.tells → S.content store.new ≡ S.content store.old }
    ensures kept { CallsAlone S.Store store.old store.new result }
{
    let first = store.next(alloc, None)?;
    Ok(first.is_none())
}

/// A document as a `doc` line places it.
pub fn placed_doc(alloc: Global, body: Value) -> Cell
    ensures { result ≡ placed_doc body }
{
    Cell::Doc(DocCell {
        body,
        revno: 0,
        queue: Items::new(alloc),
        remove: None,
    })
}

/// Places a cell where its name has none; answers whether it did.
pub fn place<S: Store>(
    alloc: Global,
    store: &mut S,
    name: &Name,
    cell: Cell,
) -> Result<bool, Refusal>
    ensures free { IsTrue S.tells → IfOk result (λ placed.
        placed ≡ (is_none (get (S.content store.old) name.now) && may_stand name.now cell)) }
    ensures made { IsTrue S.tells → IfOk result (λ placed. OnTrue placed
        (S.content store.new ≡ insert (S.content store.old) name.now cell)) }
    ensures missed { IsTrue S.tells → IfOk result (λ placed. placed ≡ false →
        S.content store.new ≡ S.content store.old) }
    ensures left { IsTrue S.tells → OnErr result (S.content store.new ≡ S.content store.old) }
    ensures kept { CallsAlone S.Store store.old store.new result }
{
    let edited = store.edit(alloc, name, &Edit::Place { cell })?;
    Ok(edited.hit)
}

/// What stands against a transaction in the store: its id has a record, or it can't be settled yet.
pub fn against_record<S: Store>(
    alloc: Global,
    store: &mut S,
    id: TxnId,
    ops: &Ops,
) -> Result<Option<Objection>, Refusal>
    ensures answer { IsTrue S.tells → IfOk result (λ against.
        against ≡ (if has_record (S.content store.old) id then Some Objection.IdExists
        else (if may_settle (S.content store.old) ops.now then None
        else Some Objection.NotBuilt))) }
    ensures built { IfOk result (λ against. against ≡ None → is_built ops.now ≡ true) }
    ensures reads { IsTrue S.tells → OnlyReads S.Store store.old store.new }
    ensures kept { CallsAlone S.Store store.old store.new result }
{
    if is_there(alloc, store, &Name::Record(id))? {
        return Ok(Some(Objection::IdExists));
    }
    if !is_built(ops) {
        return Ok(Some(Objection::NotBuilt));
    }
    let name = Name::Doc(only(ops).key.copy(alloc)?);
    if is_there(alloc, store, &name)? {
        Ok(None)
    } else {
        Ok(Some(Objection::NotBuilt))
    }
}

/// Whether a cell stands under a name.
fn is_there<S: Store>(alloc: Global, store: &mut S, name: &Name) -> Result<bool, Refusal>
    ensures answer { IsTrue S.tells → IfOk result (λ there.
        there ≡ is_some (get (S.content store.old) name.now)) }
    ensures reads { IsTrue S.tells → OnlyReads S.Store store.old store.new }
    ensures kept { CallsAlone S.Store store.old store.new result }
{
    let found = store.read(alloc, name)?;
    Ok(found.is_some())
}
