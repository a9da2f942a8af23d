ghost use Rattle.std.specs.Prelude.{◌≡◌, IfOk};

use doc_value::OutOfMemory;
use sqlite_items::Items;
use std::alloc::Global;
use txn_key::TxnId;

/// The vertex at place `before` stands before the one at place `after`, which waits for it.
#[derive(Clone, Copy, Debug, PartialEq, Eq)]
pub struct Edge {
    pub before: u64,
    pub after: u64,
}

/// Transactions by their places in `ids`, which of them are settled, and who waits for whom.
///
/// The calls below want distinct ids, a flag for each of them, and edges between their places.
#[derive(Drop)]
pub struct Graph {
    pub ids: Items<TxnId>,
    pub settled: Items<bool>,
    pub edges: Items<Edge>,
}

impl Graph {
    /// An equal graph.
    pub fn copy(&self, alloc: Global) -> Result<Graph, OutOfMemory>
        ensures { IfOk result (λ copy. copy ≡ self.now) }
    {
        Ok(Graph {
            ids: Items::from_slice(alloc, self.ids.as_slice())?,
            settled: Items::from_slice(alloc, self.settled.as_slice())?,
            edges: Items::from_slice(alloc, self.edges.as_slice())?,
        })
    }
}
