//! The order in which the records of a store wait for each other.
ghost use Rattle.std.specs.Prelude.{◌≡◌, ◌<◌, ◌↔◌, length, IfOk, IsTrue, Some};
ghost use Rattle.cycle_order.specs.Graphs.{id_at};
ghost use Rattle.store_laws.specs.Readiness.{IsReady, Sealed};
ghost use Rattle.store_laws.specs.View.{look, record_at};
ghost use Rattle.listed_cells.specs.Listing.{IsListing, content_of};
ghost use Rattle.listed_cells.specs.Orders.{IsOrder};

use crate::walks::{gather_ids, gather_settled, place_of, walk_all};
use cycle_order::{Graph, descendants, is_ready};
use doc_value::OutOfMemory;
use sqlite_items::Items;
use std::alloc::Global;
use store_trait::Named;
use txn_record::Record;

/// The graph of all records, and which of them stand after a token of a record that was never prepared,
/// or have an ancestor that does.
#[derive(Drop)]
pub struct Order {
    pub graph: Graph,
    pub unsealed: Vec<bool>,
}

impl Order {
    /// Walks every owner queue once.
    pub fn new(alloc: Global, cells: &[Named]) -> Result<Order, OutOfMemory>
        requires { IsListing cells.now }
        ensures { IfOk result (λ order.
            IsOrder (content_of cells.now) order.graph order.unsealed.items) }
    {
        let ids = gather_ids(alloc, cells)?;
        let settled = gather_settled(alloc, cells, ids.as_slice())?;
        let walked = walk_all(alloc, cells, ids.as_slice())?;
        let graph = Graph {
            ids: Items::from_vec(ids),
            settled: Items::from_vec(settled),
            edges: Items::from_vec(walked.edges),
        };
        let unsealed = descendants(alloc, &graph, walked.marks.as_slice())?;
        Ok(Order { graph, unsealed })
    }

    /// The vertex of a record that is there.
    fn vertex(&self, cells: &[Named], rec: &Record) -> usize
        requires order { IsOrder (content_of cells.now) self.now.graph self.now.unsealed.items }
        requires there { record_at (content_of cells.now) rec.now.id ≡ Some rec.now }
        ensures within { result < length self.now.graph.ids }
        ensures is { id_at self.now.graph result ≡ rec.now.id }
    {
        match place_of(self.graph.ids.as_slice(), &rec.id) {
            Some(v) => v,
            None => 0,
        }
    }

    /// Whether a record that is there is ready.
    pub fn is_ready(
        &self,
        alloc: Global,
        cells: &[Named],
        rec: &Record,
    ) -> Result<bool, OutOfMemory>
        requires order { IsOrder (content_of cells.now) self.now.graph self.now.unsealed.items }
        requires there { record_at (content_of cells.now) rec.now.id ≡ Some rec.now }
        ensures { IfOk result (λ ready.
            IsTrue ready ↔ IsReady (look (content_of cells.now)) rec.now.id) }
    {
        let v = self.vertex(cells, rec);
        if self.unsealed[v] {
            return Ok(false);
        }
        is_ready(alloc, &self.graph, v as u64)
    }

    /// Whether a record that is there is sealed.
    pub fn is_sealed(&self, cells: &[Named], rec: &Record) -> bool
        requires order { IsOrder (content_of cells.now) self.now.graph self.now.unsealed.items }
        requires there { record_at (content_of cells.now) rec.now.id ≡ Some rec.now }
        ensures { IsTrue result ↔ Sealed (look (content_of cells.now)) rec.now.id }
    {
        let v = self.vertex(cells, rec);
        !self.unsealed[v]
    }
}
