ghost use Rattle.std.specs.Prelude.{◌≡◌, true, IsTrue, IfOk, IfSome, IsErrOf, option_map, refl};
ghost use Rattle.std.specs.Option.{option_copied};
ghost use Rattle.std.specs.FinMap.{get};
ghost use Rattle.store_trait.specs.Names.{may_stand};
ghost use Rattle.store_trait.specs.Contents.{is_past, first_past, named};
ghost use Rattle.store_trait.specs.Edits.{left};
ghost use Rattle.store_trait.specs.Calls.{Reads, Edits as EditsCell, Lists, Extends, IsCounted, IsMade, IsOfKind};
ghost use Rattle.store_memory.specs.Told.{content_of, trail_of, calls_of, faults_of};
ghost use Rattle.store_memory.specs.CallsMade.{Answered};

use crate::memory::MemoryStore;
use std::alloc::Global;
use store_trait::{Cell, Edit, Edited, Name, Named, Store, StoreError};

impl Store for MemoryStore {
    ghost tells = { true };

    ghost content = { content_of };

    ghost trail = { trail_of };

    ghost calls = { calls_of };

    ghost faults = { faults_of };

    ghost answered = { Answered };

    /// The cell under a name. The call fails exactly where its number is among those that fail; one
    /// that is refused for memory is counted.
    fn read(&mut self, alloc: Global, name: &Name) -> Result<Option<Cell>, StoreError>
        ensures found { IfOk result (λ found. found ≡ get (content_of self.old) name.now) }
        ensures same { content_of self.new ≡ content_of self.old }
        ensures kind { IfOk result (IsOfKind name.now) }
        ensures answered { Answered self.old (Reads name.now result) self.new }
        ensures trail { Extends content_of trail_of calls_of self.old self.new }
        ensures counted { IsCounted calls_of faults_of self.old self.new result }
    {
        self.find(alloc, name)
    }

    /// Makes an edit where its guard holds. The call fails exactly where its number is among those
    /// that fail; one that is refused for memory is counted, and leaves the content.
    fn edit(&mut self, alloc: Global, name: &Name, edit: &Edit) -> Result<Edited, StoreError>
        ensures made { IfOk result
            (IsMade (content_of self.old) name.now edit.now (content_of self.new)) }
        ensures failed { IsErrOf result StoreError.Failed →
            left (content_of self.old) name.now edit.now (content_of self.new) }
        ensures refused { IsErrOf result StoreError.OutOfMemory →
            content_of self.new ≡ content_of self.old }
        ensures kind { IfOk result (λ done. IsOfKind name.now done.cell) }
        ensures answered { Answered self.old (EditsCell name.now edit.now result) self.new }
        ensures trail { Extends content_of trail_of calls_of self.old self.new }
        ensures counted { IsCounted calls_of faults_of self.old self.new result }
    {
        self.make(alloc, name, edit)
    }

    /// The first cell past a name, or the first of all. The call fails exactly where its number is
    /// among those that fail; one that is refused for memory is counted.
    fn next(&mut self, alloc: Global, after: Option<&Name>) -> Result<Option<Named>, StoreError>
        ensures found { IfOk result (λ found. found ≡
            option_map named (first_past (option_copied after.entry) (content_of self.old))) }
        ensures same { content_of self.new ≡ content_of self.old }
        ensures past { IfOk result (λ found. IfSome found
            (λ it. IsTrue (is_past (option_copied after.entry) it.name))) }
        ensures kind { IfOk result (λ found. IfSome found
            (λ it. IsTrue (may_stand it.name it.cell))) }
        ensures answered { Answered self.old (Lists (option_copied after.entry) result) self.new }
        ensures trail { Extends content_of trail_of calls_of self.old self.new }
        ensures counted { IsCounted calls_of faults_of self.old self.new result }
    {
        self.find_past(alloc, after)
    }

    fn calls(&self) -> u64
        ensures { result ≡ calls_of self.now }
    {
        self.count()
    }

    ghost present = { λ store told. refl };
}
