ghost use Rattle.std.specs.Prelude.{◌≡◌, ◌<◌, ◌↔◌, length, IfOk, IsTrue};
ghost use Rattle.cycle_order.specs.Choice.{AreLinks, IsLeastAhead, IsLeastMarked};
ghost use Rattle.cycle_order.specs.Graphs.{IsGraph, IsUnsettled, IsBelow};
ghost use Rattle.cycle_order.specs.Search.{Marked};

use crate::graph::Graph;
use crate::links::Links;
use crate::ready::is_below;
use crate::search::find_ancestors;
use doc_value::OutOfMemory;
use std::alloc::Global;

/// The vertex of least id among the unsettled ancestors of an unsettled vertex.
pub(crate) fn least_ahead(
    alloc: Global,
    graph: &Graph,
    links: &Links,
    v: usize,
) -> Result<usize, OutOfMemory>
    requires graph { IsGraph graph.now }
    requires links { AreLinks graph.now links.now }
    requires vertex { v < length graph.now.ids }
    requires unsettled { IsUnsettled graph.now v }
    ensures { IfOk result (IsLeastAhead graph.now v) }
{
    let before = find_ancestors(alloc, &links.into, graph.ids.len(), v)?;
    Ok(least_marked(graph, before.as_slice(), v))
}

/// The vertex of least id among the unsettled ones that are marked, of which `v` is one.
fn least_marked(graph: &Graph, marked: &[bool], v: usize) -> usize
    requires graph { IsGraph graph.now }
    requires marked { length marked.now ≡ length graph.now.ids }
    requires vertex { v < length graph.now.ids }
    requires here { Marked marked.now v }
    requires unsettled { IsUnsettled graph.now v }
    ensures { IsLeastMarked graph.now marked.now result }
{
    let mut least = v;
    for a in 0..marked.len() {
        if is_lesser(graph, marked, a, least) {
            least = a;
        }
    }
    least
}

/// Whether `a` is marked, unsettled and of lesser id than `w`.
fn is_lesser(graph: &Graph, marked: &[bool], a: usize, w: usize) -> bool
    requires graph { IsGraph graph.now }
    requires marked { length marked.now ≡ length graph.now.ids }
    requires first { a < length graph.now.ids }
    requires second { w < length graph.now.ids }
    ensures { IsTrue result ↔
        (Marked marked.now a × IsUnsettled graph.now a × IsBelow graph.now a w) }
{
    marked[a] && !graph.settled.as_slice()[a] && is_below(graph, a, w)
}
