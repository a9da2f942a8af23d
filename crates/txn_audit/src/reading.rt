//! The cells of a store, by one call for each and one more.

ghost use Rattle.std.specs.Prelude.{◌≡◌, ◌<◌, ◌≤◌, Ok, IsTrue, IfOk, IfErr, IfSome, IsErrOf, length, map};
ghost use Rattle.std.specs.FinMap.{entries};
ghost use Rattle.std.specs.Option.{option_copied, option_map};
ghost use Rattle.store_trait.specs.Contents.{first_past, is_past, named};
ghost use Rattle.store_trait.specs.Names.{may_stand};
ghost use Rattle.store_trait.specs.Calls.Exchange.{Lists};
ghost use Rattle.store_trait.specs.Exchanges.{IsExchange};
ghost use Rattle.store_trait.specs.Stores.{OneCall};
ghost use Rattle.txn_audit.specs.Errors.{IsOfCall, IsOfReading};
ghost use Rattle.txn_audit.specs.Reading.{IsShown, ReadsWhole};
ghost use Rattle.listed_cells.specs.Listing.{IsListing};

use crate::error::AuditError;
use sqlite_items::Items;
use std::alloc::Global;
use store_trait::{Name, Named, Store};

/// The most cells that are read.
const MAX_CELLS: usize = 200_000;

/// The cells, in the order of their names. It fails where there is one more than 200,000.
pub fn list_cells<S: Store>(alloc: Global, store: &mut S) -> Result<Items<Named>, AuditError>
    ensures listed { IsTrue S.tells → IfOk result (λ cells.
        cells ≡ map named (entries (S.content store.old))) }
    ensures listing { IfOk result IsListing }
    ensures few { IfOk result (λ cells. length cells ≤ 200000) }
    ensures too_many { IsTrue S.tells → IsErrOf result AuditError.TooMany →
        200000 < length (entries (S.content store.old)) }
    ensures kept { ReadsWhole S.Store store.old store.new result }
    ensures shown { IsShown S.Store store.old store.new result }
    ensures other { IfErr result IsOfReading }
{
    let mut cells = Items::new(alloc);
    let mut after = None;
    while let Some(named) = next_past(alloc, store, after.as_ref())? {
        if cells.len() >= MAX_CELLS {
            return Err(AuditError::TooMany);
        }
        after = Some(named.name.copy(alloc)?);
        cells.push(named)?;
    }
    Ok(cells)
}

/// The first cell past a name, or past none.
fn next_past<S: Store>(
    alloc: Global,
    store: &mut S,
    after: Option<&Name>,
) -> Result<Option<Named>, AuditError>
    ensures found { IsTrue S.tells → IfOk result (λ found. found ≡
        option_map named (first_past (option_copied after.entry) (S.content store.old))) }
    ensures past { IfOk result (λ found. IfSome found
        (λ it. IsTrue (is_past (option_copied after.entry) it.name))) }
    ensures kind { IfOk result (λ found. IfSome found
        (λ it. IsTrue (may_stand it.name it.cell))) }
    ensures same { IsTrue S.tells → S.content store.new ≡ S.content store.old }
    ensures call { OneCall S.Store store.old store.new result AuditError.StoreFault }
    ensures asked { IfOk result (λ found. IsExchange S.Store store.old
        (Lists (option_copied after.entry) (Ok found)) store.new) }
    ensures other { IfErr result IsOfCall }
{
    Ok(store.next(alloc, after)?)
}
