//! The two calls on a store that steps make.
ghost use Rattle.std.specs.Prelude.{◌≡◌, IsTrue, IfOk, IfErr, OnErr, Some, None};
ghost use Rattle.store_trait.specs.Stores.{OneCall};
ghost use Rattle.flush_prepare.specs.Answers.{HasRead, HasEdited};
ghost use Rattle.flush_prepare.specs.Refusals.{IsOfStore, LeftAt};

use crate::error::StepError;
use std::alloc::Global;
use store_trait::{Cell, Edit, Edited, Name, Store};

/// The cell under a name.
pub fn read<S: Store>(alloc: Global, store: &mut S, name: &Name) -> Result<Option<Cell>, StepError>
    ensures found { IfOk result (λ found. HasRead S.Store store.old name.now found store.new) }
    ensures kind { IfErr result IsOfStore }
    ensures left { IsTrue S.tells → OnErr result (S.content store.new ≡ S.content store.old) }
    ensures kept { OneCall S.Store store.old store.new result StepError.StoreFault }
{
    Ok(store.read(alloc, name)?)
}

/// An edit, where its guard holds.
pub fn edit<S: Store>(
    alloc: Global,
    store: &mut S,
    name: &Name,
    change: Edit,
) -> Result<Edited, StepError>
    ensures made { IfOk result
        (λ done. HasEdited S.Store store.old name.now change done store.new) }
    ensures kind { IfErr result IsOfStore }
    ensures left { IsTrue S.tells → IfErr result (λ error.
        LeftAt error (S.content store.old) name.now (Some change) (S.content store.new)) }
    ensures kept { OneCall S.Store store.old store.new result StepError.StoreFault }
{
    let done = store.edit(alloc, name, &change);
    drop(change);
    Ok(done?)
}
