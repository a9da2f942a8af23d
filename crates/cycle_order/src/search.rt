ghost use Rattle.std.specs.Prelude.{◌≡◌, ℕ, ◌<◌, ◌⊎◌, ◌↔◌, false, length, IfOk, OnOk, IsTrue, slice_index_or};
ghost use Rattle.txn_record.specs.Walks.{Leads};
ghost use Rattle.cycle_order.specs.Graphs.{HasEdge};
ghost use Rattle.cycle_order.specs.Search.{Marked, Finds, IsIncoming, IsBegun, LeadsTo};

use crate::incoming::Incoming;
use doc_value::OutOfMemory;
use std::alloc::Global;

/// A search against the edges: the vertices found so far, and those of them whose edges were not
/// followed yet.
#[derive(Drop)]
struct Search {
    found: Vec<bool>,
    frontier: Vec<usize>,
}

impl Search {
    /// Finds a vertex, unless it was found before.
    fn mark(&mut self, v: usize) -> Result<(), OutOfMemory>
        requires { v < length self.old.found.items }
        ensures here { OnOk result (Marked self.new.found.items v) }
        ensures finds { OnOk result (Finds (λ a. a ≡ v)
            self.old.found.items self.old.frontier.items
            self.new.found.items self.new.frontier.items) }
    {
        if !self.found[v] {
            self.frontier.push(v)?;
            self.found[v] = true;
        }
        Ok(())
    }

    /// Finds every vertex with an edge to `t`.
    fn mark_before(&mut self, into: &Incoming, t: usize) -> Result<(), OutOfMemory>
        requires within { t < length self.old.found.items }
        requires into { IsIncoming into.now (length self.old.found.items) }
        ensures all { OnOk result ((u : ℕ) →
            HasEdge into.now.edges.items u t → Marked self.new.found.items u) }
        ensures finds { OnOk result (Finds (λ a. HasEdge into.now.edges.items a t)
            self.old.found.items self.old.frontier.items
            self.new.found.items self.new.frontier.items) }
    {
        let mut next = into.last[t];
        while let Some(place) = next {
            self.mark(into.edges[place].before as usize)?;
            next = into.previous[place];
        }
        Ok(())
    }
}

/// A flag for each of so many vertices: whether a walk of edges leads from it to `v`.
pub(crate) fn find_ancestors(
    alloc: Global,
    into: &Incoming,
    count: usize,
    v: usize,
) -> Result<Vec<bool>, OutOfMemory>
    requires within { v < count }
    requires into { IsIncoming into.now count }
    ensures flags { IfOk result (λ found. length found.items ≡ count) }
    ensures exact { IfOk result (λ found. (a : ℕ) →
        Marked found.items a ↔ Leads (HasEdge into.now.edges.items) a v) }
{
    let mut search = Search {
        found: vec![in alloc; false; count]?,
        frontier: Vec::new(alloc),
    };
    search.mark(v)?;
    follow(search, into)
}

/// A flag for each vertex: whether a walk of edges leads from it to a marked one.
pub(crate) fn find_all_ancestors(
    alloc: Global,
    into: &Incoming,
    marked: &[bool],
) -> Result<Vec<bool>, OutOfMemory>
    requires { IsIncoming into.now (length marked.now) }
    ensures flags { IfOk result (λ found. length found.items ≡ length marked.now) }
    ensures exact { IfOk result (λ found. (a : ℕ) →
        Marked found.items a ↔ LeadsTo into.now.edges.items (Marked marked.now) a) }
{
    let mut search = Search {
        found: vec![in alloc; false; marked.len()]?,
        frontier: Vec::new(alloc),
    };
    for v in 0..marked.len() {
        if marked[v] {
            search.mark(v)?;
        }
    }
    follow(search, into)
}

/// Ends a search that has only begun: what leads to what it found.
fn follow(mut search: Search, into: &Incoming) -> Result<Vec<bool>, OutOfMemory>
    requires into { IsIncoming into.now (length search.found.items) }
    requires begun { IsBegun search.found.items search.frontier.items }
    ensures flags { IfOk result (λ found. length found.items ≡ length search.found.items) }
    ensures exact { IfOk result (λ found. (a : ℕ) →
        Marked found.items a ↔ LeadsTo into.now.edges.items (Marked search.found.items) a) }
{
    while let Some(t) = search.frontier.pop() {
        search.mark_before(into, t)?;
    }
    Ok(search.found)
}

/// Marks what is marked in another list too.
pub(crate) fn mark_all(marked: &mut Vec<bool>, more: &[bool])
    requires { length more.now ≡ length marked.old.items }
    ensures size { length marked.new.items ≡ length marked.old.items }
    ensures keeps { (a : ℕ) → Marked marked.old.items a → Marked marked.new.items a }
    ensures adds { (a : ℕ) → Marked more.now a → Marked marked.new.items a }
    ensures only { (a : ℕ) →
        Marked marked.new.items a → Marked marked.old.items a ⊎ Marked more.now a }
{
    for a in 0..more.len() {
        if more[a] {
            marked[a] = true;
        }
    }
}
