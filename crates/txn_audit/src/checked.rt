//! An audit: is this store sound, and what does it mean?

ghost use Rattle.std.specs.Prelude.{◌≡◌, ◌<◌, length, slice_index_or, IsTrue, IfOk, IfErr};
ghost use Rattle.store_trait.specs.declared.cell.Named.{Named as NamedValue};
ghost use Rattle.txn_audit.specs.Audits.{IsAudited, HasFault, IsFlawOf, IsShownAs, Means};
ghost use Rattle.txn_audit.specs.Checks.{HoldBelow};
ghost use Rattle.txn_audit.specs.Reading.{ReadsWhole};
ghost use Rattle.listed_cells.specs.Listing.{IsListing, content_of};

use crate::checking::{Facts, Flaw, first_flaw};
use crate::completion::{Completion, complete};
use crate::error::AuditError;
use crate::reading::list_cells;
use doc_value::OutOfMemory;
use sqlite_items::Items;
use std::alloc::Global;
use store_trait::{Named, Store};
use txn_key::Docs;

/// A sound store: its cells in the order of their names, and the documents that it means.
#[derive(Drop)]
pub struct Checked {
    pub cells: Items<Named>,
    pub docs: Docs,
}

/// Reads a store, by one call for each cell and one more, and answers what it holds and means where it is
/// sound; else the first rule that fails, and the first name at which it does.
///
/// A store of more than 200,000 cells is not audited.
pub fn audit<S: Store>(alloc: Global, store: &mut S) -> Result<Checked, AuditError>
    ensures sound { IsTrue S.tells → IfOk result (IsAudited (S.content store.old)) }
    ensures fault { IsTrue S.tells → IfErr result (HasFault (S.content store.old)) }
    ensures kept { ReadsWhole S.Store store.old store.new result }
    ensures shown { IsShownAs S.Store store.old store.new result }
{
    let cells = list_cells(alloc, store)?;
    let docs = check(alloc, cells.as_slice())?;
    Ok(Checked { cells, docs })
}

/// What listed cells mean, where they are sound.
pub fn check(alloc: Global, cells: &[Named]) -> Result<Docs, AuditError>
    requires { IsListing cells.now }
    ensures sound { IfOk result (Means (content_of cells.now)) }
    ensures flaw { IfErr result (IsFlawOf (content_of cells.now)) }
{
    let facts = Facts::new(alloc, cells)?;
    if let Some(flaw) = first_flaw(alloc, cells, &facts)? {
        return Err(unsound(alloc, cells, &flaw)?);
    }
    check_pending(alloc, cells)
}

/// The same, where all rules but the last hold.
fn check_pending(alloc: Global, cells: &[Named]) -> Result<Docs, AuditError>
    requires listed { IsListing cells.now }
    requires lower { HoldBelow (content_of cells.now) 10 }
    ensures sound { IfOk result (Means (content_of cells.now)) }
    ensures flaw { IfErr result (IsFlawOf (content_of cells.now)) }
{
    match complete(alloc, cells)? {
        Completion::Docs(docs) => Ok(docs),
        Completion::Unfit(place) => Err(unsound(alloc, cells, &Flaw { rule: 10, place })?),
    }
}

/// The rule that fails, with the name of the cell at the place.
fn unsound(alloc: Global, cells: &[Named], flaw: &Flaw) -> Result<AuditError, OutOfMemory>
    requires { flaw.now.place < length cells.now }
    ensures { IfOk result (λ error. (d : NamedValue) → error ≡
        AuditError.Unsound flaw.now.rule (slice_index_or cells.now flaw.now.place d).name) }
{
    let name = cells[flaw.place].name.copy(alloc)?;
    Ok(AuditError::Unsound {
        rule: flaw.rule,
        name,
    })
}
