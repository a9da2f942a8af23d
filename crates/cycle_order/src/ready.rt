ghost use Rattle.std.specs.Prelude.{◌≡◌, ◌<◌, ◌↔◌, length, IfOk, IsTrue};
ghost use Rattle.cycle_order.specs.Choice.{AreLinks, GivesWay, AllGiveWay};
ghost use Rattle.cycle_order.specs.Graphs.{IsGraph, IsBelow, IsReady};

use crate::graph::Graph;
use crate::links::Links;
use crate::search::find_ancestors;
use doc_value::OutOfMemory;
use std::alloc::Global;
use std::cmp::Ordering;

/// Whether each other unsettled ancestor of `v` has it as an ancestor, and a greater id.
///
/// It costs two searches of the graph.
pub fn is_ready(alloc: Global, graph: &Graph, v: u64) -> Result<bool, OutOfMemory>
    requires graph { IsGraph graph.now }
    requires vertex { v < length graph.now.ids }
    ensures { IfOk result (λ ready. IsTrue ready ↔ IsReady graph.now v) }
{
    let links = Links::new(alloc, graph)?;
    is_ready_by(alloc, graph, &links, v as usize)
}

/// The same over links that were made before.
pub(crate) fn is_ready_by(
    alloc: Global,
    graph: &Graph,
    links: &Links,
    v: usize,
) -> Result<bool, OutOfMemory>
    requires graph { IsGraph graph.now }
    requires links { AreLinks graph.now links.now }
    requires vertex { v < length graph.now.ids }
    ensures { IfOk result (λ ready. IsTrue ready ↔ IsReady graph.now v) }
{
    let count = graph.ids.len();
    let before = find_ancestors(alloc, &links.into, count, v)?;
    let after = find_ancestors(alloc, &links.out_of, count, v)?;
    Ok(all_give_way(graph, before.as_slice(), after.as_slice(), v))
}

/// Whether every vertex gives way to `v`.
fn all_give_way(graph: &Graph, before: &[bool], after: &[bool], v: usize) -> bool
    requires graph { IsGraph graph.now }
    requires vertex { v < length graph.now.ids }
    requires before { length before.now ≡ length graph.now.ids }
    requires after { length after.now ≡ length graph.now.ids }
    ensures { IsTrue result ↔ AllGiveWay graph.now before.now after.now v }
{
    for a in 0..graph.ids.len() {
        if !gives_way(graph, before, after, v, a) {
            return false;
        }
    }
    true
}

/// Whether `a` gives way to `v`: where it is another unsettled vertex before `v`, it is also after `v`,
/// and has a greater id.
fn gives_way(graph: &Graph, before: &[bool], after: &[bool], v: usize, a: usize) -> bool
    requires graph { IsGraph graph.now }
    requires vertex { v < length graph.now.ids }
    requires other { a < length graph.now.ids }
    requires before { length before.now ≡ length graph.now.ids }
    requires after { length after.now ≡ length graph.now.ids }
    ensures { IsTrue result ↔ GivesWay graph.now before.now after.now v a }
{
    if !before[a] || a == v || graph.settled.as_slice()[a] {
        return true;
    }
    after[a] && is_below(graph, v, a)
}

/// Whether `v` has a lesser id than `w`.
pub(crate) fn is_below(graph: &Graph, v: usize, w: usize) -> bool
    requires first { v < length graph.now.ids }
    requires second { w < length graph.now.ids }
    ensures { IsTrue result ↔ IsBelow graph.now v w }
{
    let ids = graph.ids.as_slice();
    ids[v].compare(&ids[w]) == Ordering::Less
}
