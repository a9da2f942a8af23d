//! What one batch made.

ghost use Rattle.std.specs.Prelude.{◌≡◌, ◌++◌, IfOk, OnOk};
ghost use Rattle.txn_play.specs.Progress.{decided_in};

use doc_value::OutOfMemory;
use sqlite_items::Items;
use std::alloc::Global;
use txn_key::Docs;
use txn_record::Entry;

/// The documents that a batch began with, the order in which its transactions were decided, and the store
/// calls that were made before it. `turns` has the runner of each step, and is empty for one runner alone.
#[derive(Drop)]
pub struct Run {
    pub base: Docs,
    pub order: Items<Entry>,
    pub mark: u64,
    pub turns: Items<u32>,
}

impl Run {
    /// An equal Run.
    pub fn copy(&self, alloc: Global) -> Result<Run, OutOfMemory>
        ensures { IfOk result (λ copy. copy ≡ self.now) }
    {
        let base = self.base.copy(alloc)?;
        let order = copy_order(alloc, self.order.as_slice())?;
        let turns = Items::from_slice(alloc, self.turns.as_slice())?;
        Ok(Run {
            base,
            order,
            mark: self.mark,
            turns,
        })
    }
}

fn copy_order(alloc: Global, order: &[Entry]) -> Result<Items<Entry>, OutOfMemory>
    ensures { IfOk result (λ copies. copies ≡ order.now) }
{
    let mut copies = Items::new(alloc);
    push_copies(alloc, &mut copies, order)?;
    Ok(copies)
}

fn push_copies(alloc: Global, copies: &mut Items<Entry>, order: &[Entry]) -> Result<(), OutOfMemory>
    ensures { OnOk result (copies.new ≡ copies.old ++ order.now) }
{
    for entry in order {
        copies.push(entry.copy(alloc)?)?;
    }
    Ok(())
}

/// The decisions of all Runs, in order.
pub(crate) fn decided_in(alloc: Global, runs: &[Run]) -> Result<Items<Entry>, OutOfMemory>
    ensures { IfOk result (λ order. order ≡ decided_in runs.now) }
{
    let mut order = Items::new(alloc);
    for run in runs {
        push_copies(alloc, &mut order, run.order.as_slice())?;
    }
    Ok(order)
}
