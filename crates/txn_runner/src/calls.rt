//! The calls on the store that a step makes, each one, with the refusals of a step.

ghost use Rattle.std.specs.Prelude.{◌≡◌, IsTrue, true, Some, Ok, OnOk, OnErr, IfOk, IfErr, is_some};
ghost use Rattle.std.specs.FinMap.{get};
ghost use Rattle.store_trait.specs.Edits.{hit, edited};
ghost use Rattle.store_trait.specs.Calls.{Edits, Reads, IsMade};
ghost use Rattle.store_trait.specs.Stores.{OneCall};
ghost use Rattle.store_laws.specs.View.{doc_at};
ghost use Rattle.store_trait.specs.declared.cell.Cell.TheVariants.{Doc as CellDoc};
ghost use Rattle.txn_runner.specs.Causes.{AnsweredEdit, HasCause, IsMissed, IsOfStore};
ghost use Rattle.txn_runner.specs.Settling.{deciding};

use crate::error::StepError;
use doc_value::OutOfMemory;
use sqlite_items::Items;
use std::alloc::Global;
use store_trait::{Cell, DocCell, Edit, Edited, Name, Store, doc_in};
use txn_key::{Key, TxnId};
use txn_record::{Outcome, State};

/// An edit of the store.
pub fn edit<S: Store>(
    alloc: Global,
    store: &mut S,
    name: &Name,
    change: &Edit,
) -> Result<Edited, StepError>
    ensures made { IsTrue S.tells → IfOk result
        (IsMade (S.content store.old) name.now change.now (S.content store.new)) }
    ensures left { IsTrue S.tells → OnErr result (S.content store.new ≡ S.content store.old) }
    ensures kind { IfErr result IsOfStore }
    ensures answered { IfOk result
        (λ done. S.answered store.old (Edits name.now change.now (Ok done)) store.new) }
    ensures call { OneCall S.Store store.old store.new result StepError.StoreFault }
{
    Ok(store.edit(alloc, name, change)?)
}

/// The cell under a name.
pub fn read<S: Store>(alloc: Global, store: &mut S, name: &Name) -> Result<Option<Cell>, StepError>
    ensures found { IsTrue S.tells → IfOk result (λ found. found ≡ get (S.content store.old) name.now) }
    ensures same { IsTrue S.tells → S.content store.new ≡ S.content store.old }
    ensures kind { IfErr result IsOfStore }
    ensures answered { IfOk result (λ found. S.answered store.old (Reads name.now (Ok found)) store.new) }
    ensures call { OneCall S.Store store.old store.new result StepError.StoreFault }
{
    Ok(store.read(alloc, name)?)
}

/// An edit that a store which holds what it was told can't miss: at a miss the record of that id and
/// the cell of that name disagree. The edit ends right after its call, at one place.
pub fn must_hit<S: Store>(
    alloc: Global,
    store: &mut S,
    id: TxnId,
    name: Name,
    change: Edit,
) -> Result<(), StepError>
    ensures made { IsTrue S.tells → OnOk result (S.content store.new ≡ edited (S.content store.old) name change) }
    ensures left { IsTrue S.tells → is_some (hit change name (get (S.content store.old) name)) ≡ true →
        OnErr result (S.content store.new ≡ S.content store.old) }
    ensures never { IsTrue S.tells → is_some (hit change name (get (S.content store.old) name)) ≡ true → IfErr result IsOfStore }
    ensures hit { OnOk result (AnsweredEdit S.Store store.old name change true store.new) }
    ensures cause { IfErr result (IsMissed S.Store store.old id name change store.new) }
    ensures call { OneCall S.Store store.old store.new result StepError.StoreFault }
{
    let hits = may_hit(alloc, store, &name, &change);
    drop(change);
    if hits? {
        Ok(())
    } else {
        Err(StepError::Clash { id, at: name })
    }
}

/// An edit that may have been made before, so that a miss is no refusal; answers whether it hit.
pub fn may_hit<S: Store>(
    alloc: Global,
    store: &mut S,
    name: &Name,
    change: &Edit,
) -> Result<bool, StepError>
    ensures made { IsTrue S.tells → OnOk result (S.content store.new ≡ edited (S.content store.old) name.now change.now) }
    ensures hit { IsTrue S.tells → IfOk result
        (λ hits. hits ≡ is_some (hit change.now name.now (get (S.content store.old) name.now))) }
    ensures left { IsTrue S.tells → OnErr result (S.content store.new ≡ S.content store.old) }
    ensures answered { IfOk result (λ hits. AnsweredEdit S.Store store.old name.now change.now hits store.new) }
    ensures kind { IfErr result IsOfStore }
    ensures call { OneCall S.Store store.old store.new result StepError.StoreFault }
{
    let edited = edit(alloc, store, name, change)?;
    Ok(edited.hit)
}

/// The call that decides a transaction: its record is moved on from prepared.
pub fn make_decision<S: Store>(
    alloc: Global,
    store: &mut S,
    id: TxnId,
    outcome: Outcome,
    revnos: &[i64],
) -> Result<(), StepError>
    ensures made { IsTrue S.tells → OnOk result (S.content store.new ≡
        edited (S.content store.old) (Name.Record id) (deciding outcome revnos.now)) }
    ensures left { IsTrue S.tells →
        is_some (hit (deciding outcome revnos.now) (Name.Record id)
        (get (S.content store.old) (Name.Record id))) ≡ true →
        OnErr result (S.content store.new ≡ S.content store.old) }
    ensures never { IsTrue S.tells →
        is_some (hit (deciding outcome revnos.now) (Name.Record id)
        (get (S.content store.old) (Name.Record id))) ≡ true →
        IfErr result IsOfStore }
    ensures hit { OnOk result (AnsweredEdit S.Store store.old (Name.Record id)
        (deciding outcome revnos.now) true store.new) }
    ensures cause { IfErr result (IsMissed S.Store store.old id (Name.Record id)
        (deciding outcome revnos.now) store.new) }
    ensures call { OneCall S.Store store.old store.new result StepError.StoreFault }
{
    let change = deciding(alloc, outcome, revnos)?;
    must_hit(alloc, store, id, Name::Record(id), change)
}

/// The edit of a prepared record that decides its transaction. One that applies takes the numbers that
/// its operations find.
fn deciding(alloc: Global, outcome: Outcome, revnos: &[i64]) -> Result<Edit, OutOfMemory>
    ensures { IfOk result (λ change. change ≡ deciding outcome revnos.now) }
{
    let (to, revnos) = match outcome {
        Outcome::Applied => (State::Applying, Some(Items::from_slice(alloc, revnos)?)),
        Outcome::Aborted => (State::Aborting, None),
    };
    Ok(Edit::Move {
        from: State::Prepared,
        to,
        nonce: None,
        revnos,
    })
}

/// The document of a key. Where it is missing, the record of that id and the document disagree.
pub fn read_document<S: Store>(
    alloc: Global,
    store: &mut S,
    id: TxnId,
    key: &Key,
) -> Result<DocCell, StepError>
    ensures found { IsTrue S.tells → IfOk result (λ doc. doc_at (S.content store.old) key.now ≡ Some doc) }
    ensures same { IsTrue S.tells → S.content store.new ≡ S.content store.old }
    ensures answered { IfOk result (λ doc. S.answered store.old (Reads (Name.Doc key.now) (Ok (Some (CellDoc doc)))) store.new) }
    ensures cause { IfErr result (HasCause S.Store store.old store.new id) }
    ensures never { IsTrue S.tells → is_some (doc_at (S.content store.old) key.now) ≡ true → IfErr result IsOfStore }
    ensures call { OneCall S.Store store.old store.new result StepError.StoreFault }
{
    let name = Name::Doc(key.copy(alloc)?);
    let found = read(alloc, store, &name)?;
    doc_in(found).ok_or(StepError::Clash { id, at: name })
}
