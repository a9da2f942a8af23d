ghost use Rattle.std.proofs.Common.{false, sym, true≢false};
ghost use Rattle.store_memory.specs.CallsMade.{Answered};
ghost use Rattle.store_memory.specs.Told.{content_of, trail_of, calls_of, faults_of};

use crate::memory::MemoryStore;
use std::alloc::Global;
use store_trait::{Cell, Edit, Edited, Name, Named, Store, StoreError};

/// A store in memory that tells nothing of what it holds, as one in a file would: for tests of what holds
/// over any store.
#[derive(Drop)]
pub struct SilentStore {
    inner: MemoryStore,
}

impl SilentStore {
    /// A store that answers as `inner` does.
    pub fn over(inner: MemoryStore) -> SilentStore {
        SilentStore { inner }
    }
}

impl Store for SilentStore {
    ghost tells = { false };

    ghost content = { λ s. content_of s.inner };

    ghost trail = { λ s. trail_of s.inner };

    ghost calls = { λ s. calls_of s.inner };

    ghost faults = { λ s. faults_of s.inner };

    ghost answered = { λ old exchange new. Answered old.inner exchange new.inner };

    fn read(&mut self, alloc: Global, name: &Name) -> Result<Option<Cell>, StoreError> {
        self.inner.read(alloc, name)
    }

    fn edit(&mut self, alloc: Global, name: &Name, edit: &Edit) -> Result<Edited, StoreError> {
        self.inner.edit(alloc, name, edit)
    }

    fn next(&mut self, alloc: Global, after: Option<&Name>) -> Result<Option<Named>, StoreError> {
        self.inner.next(alloc, after)
    }

    fn calls(&self) -> u64 {
        self.inner.calls()
    }

    ghost present = { λ store told. absurd (true≢false (sym told)) };
}
