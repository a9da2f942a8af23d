//! What is read of a whole store: its cells, the documents that it means, and what an audit finds against it.

ghost use Rattle.std.specs.Prelude.{◌≡◌, ◌≤◌, IsTrue, IfOk, IfErr, length};
ghost use Rattle.std.specs.FinMap.{entries};
ghost use Rattle.txn_play.specs.Progress.{cells_of};
ghost use Rattle.txn_play.specs.Readings.{IsMeaning, IsVerdict, ReadsAlone};
ghost use Rattle.txn_play.specs.Refusals.{IsUnfound};
ghost use Rattle.txn_play.specs.Sessions.{IsFoundFor};
ghost use Rattle.txn_script.specs.declared.statement.Statement.TheVariants as statement;

use crate::finding::Finding;
use crate::refusal::Refusal;
use sqlite_items::Items;
use std::alloc::Global;
use store_trait::{Named, Store};
use txn_audit::{AuditError, audit, list_cells};
use txn_key::Docs;

/// The cells, in the order of their names.
pub fn cells<S: Store>(alloc: Global, store: &mut S) -> Result<Items<Named>, Refusal>
    ensures listed { IsTrue S.tells → IfOk result (λ cells.
        cells ≡ cells_of (S.content store.old)) }
    ensures few { IsTrue S.tells → IfOk result (λ _.
        length (entries (S.content store.old)) ≤ 200000) }
    ensures found { IfErr result (IsFoundFor statement.Export) }
    ensures reads { ReadsAlone S.Store store.old store.new result }
{
    Ok(list_cells(alloc, store)?)
}

/// The documents that a store means.
pub fn documents<S: Store>(alloc: Global, store: &mut S) -> Result<Docs, Refusal>
    ensures means { IsTrue S.tells → IfOk result (IsMeaning (S.content store.old)) }
    ensures reads { ReadsAlone S.Store store.old store.new result }
{
    let checked = audit(alloc, store)?;
    Ok(checked.docs)
}

/// What an audit finds against a store, if something.
pub fn finding<S: Store>(alloc: Global, store: &mut S) -> Result<Option<Finding>, Refusal>
    ensures verdict { IsTrue S.tells → IfOk result (IsVerdict (S.content store.old)) }
    ensures none { IfErr result IsUnfound }
    ensures reads { ReadsAlone S.Store store.old store.new result }
{
    match audit(alloc, store) {
        Ok(_checked) => Ok(None),
        Err(AuditError::Unsound { rule, name }) => Ok(Some(Finding::Unsound { rule, name })),
        Err(AuditError::TooMany) => Ok(Some(Finding::TooManyCells)),
        Err(AuditError::StoreFault) => Err(Refusal::Store),
        Err(AuditError::OutOfMemory) => Err(Refusal::OutOfMemory),
    }
}
