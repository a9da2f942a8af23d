ghost use Rattle.std.specs.Prelude.{◌≡◌, ℕ, ◌<◌, ◌↔◌, false, length, IfOk, IsTrue, slice_index_or};
ghost use Rattle.cycle_order.specs.Graphs.{IsGraph, Ancestor, IsDescendant};

use crate::graph::Graph;
use crate::incoming::Incoming;
use crate::links::Links;
use crate::search::{find_all_ancestors, find_ancestors};
use doc_value::OutOfMemory;
use std::alloc::Global;

/// A flag for each vertex: whether it is `v` itself or a walk of edges leads from it to `v`.
pub fn ancestors(alloc: Global, graph: &Graph, v: u64) -> Result<Vec<bool>, OutOfMemory>
    requires graph { IsGraph graph.now }
    requires vertex { v < length graph.now.ids }
    ensures flags { IfOk result (λ flags. length flags.items ≡ length graph.now.ids) }
    ensures exact { IfOk result (λ flags. (a : ℕ) →
        IsTrue (slice_index_or flags.items a false) ↔ Ancestor graph.now a v) }
{
    let count = graph.ids.len();
    let edges = Vec::from_slice(alloc, graph.edges.as_slice())?;
    let into = Incoming::new(alloc, edges, count)?;
    find_ancestors(alloc, &into, count, v as usize)
}

/// A flag for each vertex: whether it or an ancestor of it is among those marked.
pub fn descendants(alloc: Global, graph: &Graph, marked: &[bool]) -> Result<Vec<bool>, OutOfMemory>
    requires graph { IsGraph graph.now }
    requires marked { length marked.now ≡ length graph.now.ids }
    ensures flags { IfOk result (λ flags. length flags.items ≡ length graph.now.ids) }
    ensures exact { IfOk result (λ flags. (v : ℕ) →
        IsTrue (slice_index_or flags.items v false) ↔ IsDescendant graph.now marked.now v) }
{
    let links = Links::new(alloc, graph)?;
    find_all_ancestors(alloc, &links.out_of, marked)
}
