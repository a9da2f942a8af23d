ghost use Rattle.std.specs.Prelude.{◌≡◌, ℕ, ◌<◌, ◌↔◌, length, IfOk, IfSome, OnOk, IsNone, IsTrue};
ghost use Rattle.cycle_order.specs.Choice.{AreLinks, ComesFirst, IsFirstOf, IsChoice};
ghost use Rattle.cycle_order.specs.Graphs.{IsGraph, IsUnsettled, AllSettled, IsPicked};
ghost use Rattle.cycle_order.specs.Search.{Marked};

use crate::graph::Graph;
use crate::least::least_ahead;
use crate::links::Links;
use crate::ready::{is_below, is_ready_by};
use crate::search::{find_ancestors, mark_all};
use doc_value::OutOfMemory;
use std::alloc::Global;

/// The ready unsettled vertex of least id, or none, exactly where all vertices are settled.
///
/// A vertex costs four searches at most, so the whole is within (vertices + edges) times vertices; a
/// vertex behind one that was looked at costs none.
pub fn pick(alloc: Global, graph: &Graph) -> Result<Option<u64>, OutOfMemory>
    requires { IsGraph graph.now }
    ensures first { IfOk result (λ first. IfSome first (IsPicked graph.now)) }
    ensures none { IfOk result (λ first. IsNone first ↔ AllSettled graph.now) }
{
    let links = Links::new(alloc, graph)?;
    let passed = vec![in alloc; false; graph.ids.len()]?;
    let mut choice = Choice {
        first: None,
        passed,
    };
    for v in 0..graph.ids.len() {
        choice.look_at(alloc, graph, &links, v)?;
    }
    Ok(choice.first)
}

/// The first vertex so far, and the vertices passed: none of them that is ready has a lesser id.
#[derive(Drop)]
struct Choice {
    first: Option<u64>,
    passed: Vec<bool>,
}

impl Choice {
    /// Passes `v`, if it is unsettled, with all that the least unsettled vertex ahead of it leads to: of
    /// those only that least one can be ready.
    fn look_at(
        &mut self,
        alloc: Global,
        graph: &Graph,
        links: &Links,
        v: usize,
    ) -> Result<(), OutOfMemory>
        requires graph { IsGraph graph.now }
        requires links { AreLinks graph.now links.now }
        requires vertex { v < length graph.now.ids }
        requires choice { IsChoice graph.now self.old.passed.items self.old.first }
        ensures choice { OnOk result (IsChoice graph.now self.new.passed.items self.new.first) }
        ensures keeps { OnOk result ((a : ℕ) →
            Marked self.old.passed.items a → Marked self.new.passed.items a) }
        ensures passed { OnOk result (IsUnsettled graph.now v → Marked self.new.passed.items v) }
    {
        if graph.settled.as_slice()[v] || self.passed[v] {
            return Ok(());
        }
        let least = least_ahead(alloc, graph, links, v)?;
        self.first = first_of(alloc, graph, links, self.first, least)?;
        let behind = find_ancestors(alloc, &links.out_of, graph.ids.len(), least)?;
        mark_all(&mut self.passed, behind.as_slice());
        Ok(())
    }
}

/// An unsettled vertex `v` where it is ready and of lesser id than the first one so far, and else that.
fn first_of(
    alloc: Global,
    graph: &Graph,
    links: &Links,
    first: Option<u64>,
    v: usize,
) -> Result<Option<u64>, OutOfMemory>
    requires graph { IsGraph graph.now }
    requires links { AreLinks graph.now links.now }
    requires vertex { v < length graph.now.ids }
    requires unsettled { IsUnsettled graph.now v }
    requires first { IfSome first (λ w. w < length graph.now.ids) }
    ensures { IfOk result (IsFirstOf graph.now first v) }
{
    if comes_first(alloc, graph, links, first, v)? {
        return Ok(Some(v as u64));
    }
    Ok(first)
}

/// Whether an unsettled vertex is ready and of lesser id than the first one so far.
fn comes_first(
    alloc: Global,
    graph: &Graph,
    links: &Links,
    first: Option<u64>,
    v: usize,
) -> Result<bool, OutOfMemory>
    requires graph { IsGraph graph.now }
    requires links { AreLinks graph.now links.now }
    requires vertex { v < length graph.now.ids }
    requires unsettled { IsUnsettled graph.now v }
    requires first { IfSome first (λ w. w < length graph.now.ids) }
    ensures { IfOk result (λ comes. IsTrue comes ↔ ComesFirst graph.now first v) }
{
    if let Some(w) = first {
        if !is_below(graph, v, w as usize) {
            return Ok(false);
        }
    }
    is_ready_by(alloc, graph, links, v)
}
