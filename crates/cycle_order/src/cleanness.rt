ghost use Rattle.std.specs.Prelude.{◌≡◌, ℕ, ◌<◌, ◌↔◌, true, false, length, IfOk, IsTrue, slice_index_or};
ghost use Rattle.cycle_order.specs.Graphs.{IsGraph, IsClean};
ghost use Rattle.cycle_order.specs.Search.{Marked};

use crate::ancestry::ancestors;
use crate::graph::Graph;
use doc_value::OutOfMemory;
use std::alloc::Global;

/// Whether `v` and all its ancestors are settled.
pub fn clean(alloc: Global, graph: &Graph, v: u64) -> Result<bool, OutOfMemory>
    requires graph { IsGraph graph.now }
    requires vertex { v < length graph.now.ids }
    ensures { IfOk result (λ clean. IsTrue clean ↔ IsClean graph.now v) }
{
    let before = ancestors(alloc, graph, v)?;
    Ok(are_settled(before.as_slice(), graph.settled.as_slice()))
}

/// Whether every marked vertex is settled.
fn are_settled(marked: &[bool], settled: &[bool]) -> bool
    requires { length marked.now ≡ length settled.now }
    ensures { IsTrue result ↔ ((a : ℕ) →
        Marked marked.now a → slice_index_or settled.now a true ≡ true) }
{
    for a in 0..marked.len() {
        if marked[a] && !settled[a] {
            return false;
        }
    }
    true
}
