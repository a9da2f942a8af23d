ghost use Rattle.std.specs.Prelude.{◌≡◌, ℕ, Bool, IsTrue, Option, IfOk, IfSome, IsErrOf, option_map};
ghost use Rattle.std.specs.Option.{option_copied};
ghost use Rattle.std.specs.FinMap.{get};
ghost use Rattle.store_trait.specs.Names.{may_stand};
ghost use Rattle.store_trait.specs.Contents.{Content, is_past, first_past, named};
ghost use Rattle.store_trait.specs.Edits.{left};
ghost use Rattle.store_trait.specs.Calls.{Exchange, Reads, Edits, Lists, Extends, IsCounted, IsMade, IsOfKind};
ghost use Rattle.store_trait.specs.declared.store.StoreError.TheVariants.{OutOfMemory};

use crate::cell::{Cell, Named};
use crate::edit::{Edit, Edited};
use crate::name::Name;
use std::alloc::{AllocError, Global};

/// Why a call on a store was refused.
#[derive(Clone, Copy, Debug, PartialEq, Eq)]
pub enum StoreError {
    Failed,
    OutOfMemory,
}

impl From<AllocError> for StoreError {
    ghost from_gives = { λ _ error. error ≡ OutOfMemory };

    fn from(_error: AllocError) -> StoreError {
        StoreError::OutOfMemory
    }
}

/// A store of cells, of which one call reads or edits at most one.
///
/// Some stores tell what they hold: the clauses on contents speak of these alone. Whether a store
/// tells is fixed by its type. `trail` has the content after so many calls. `answered` is what a store
/// says of a call, its arguments and its answer, refusals among them; each store picks it, so that the
/// cause of an answer can be stated over a store that tells nothing too.
///
/// Each call of `read`, `edit` and `next` adds one to the count of calls, whatever it answers. Only a
/// store that has made 2^63 calls answers `Failed` from then on, and adds none.
pub trait Store {
    ghost tells: { Bool };

    ghost content: { Self → Content };

    ghost trail: { Self → ℕ → Content };

    ghost calls: { Self → ℕ };

    ghost faults: { Self → ℕ };

    ghost answered: { Self → Exchange → Self → Type 0 };

    /// The cell under a name.
    fn read(&mut self, alloc: Global, name: &Name) -> Result<Option<Cell>, StoreError>
        ensures found { IsTrue tells → IfOk result (λ found.
            found ≡ get (content self.old) name.now) }
        ensures same { IsTrue tells → content self.new ≡ content self.old }
        ensures kind { IfOk result (IsOfKind name.now) }
        ensures answered { answered self.old (Reads name.now result) self.new }
        ensures trail { IsTrue tells → Extends content trail calls self.old self.new }
        ensures counted { IsCounted calls faults self.old self.new result };

    /// Makes an edit where its guard holds, and answers the cell after the call in both cases.
    fn edit(&mut self, alloc: Global, name: &Name, edit: &Edit) -> Result<Edited, StoreError>
        ensures made { IsTrue tells → IfOk result
            (IsMade (content self.old) name.now edit.now (content self.new)) }
        ensures failed { IsTrue tells → IsErrOf result StoreError.Failed →
            left (content self.old) name.now edit.now (content self.new) }
        ensures refused { IsTrue tells → IsErrOf result StoreError.OutOfMemory →
            content self.new ≡ content self.old }
        ensures kind { IfOk result (λ done. IsOfKind name.now done.cell) }
        ensures answered { answered self.old (Edits name.now edit.now result) self.new }
        ensures trail { IsTrue tells → Extends content trail calls self.old self.new }
        ensures counted { IsCounted calls faults self.old self.new result };

    /// The first cell past a name, or the first of all.
    fn next(&mut self, alloc: Global, after: Option<&Name>) -> Result<Option<Named>, StoreError>
        ensures found { IsTrue tells → IfOk result (λ found. found ≡
            option_map named (first_past (option_copied after.entry) (content self.old))) }
        ensures same { IsTrue tells → content self.new ≡ content self.old }
        ensures past { IfOk result (λ found. IfSome found
            (λ it. IsTrue (is_past (option_copied after.entry) it.name))) }
        ensures kind { IfOk result (λ found.
            IfSome found (λ it. IsTrue (may_stand it.name it.cell))) }
        ensures answered { answered self.old (Lists (option_copied after.entry) result) self.new }
        ensures trail { IsTrue tells → Extends content trail calls self.old self.new }
        ensures counted { IsCounted calls faults self.old self.new result };

    /// How many calls were made.
    fn calls(&self) -> u64
        ensures { result ≡ calls self.now };

    /// The present content stands at the present call of the trail.
    ghost present: { (store : Self) → IsTrue tells → trail store (calls store) ≡ content store };
}
