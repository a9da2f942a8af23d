//! Who goes first, of worked graphs and of a long ring.
ghost use Rattle.std.specs.Prelude.{◌≢◌, ℕ, ◌<◌, ◌≡◌, length, All, AllPairs, IfOk, IsTrue, slice_index_or};
ghost use Rattle.txn_key.specs.declared.id.TxnId.{TxnId as TxnIdValue};
ghost use Rattle.cycle_order.specs.Graphs.{IsGraph};

use cycle_order::{Edge, Graph, ancestors, clean, descendants, is_ready, pick};
use sqlite_items::Items;
use std::alloc::Global;
use std::test::Fail;
use txn_key::TxnId;

/// The id whose last four bytes are a number.
fn id(number: u32) -> TxnId {
    let [a, b, c, d] = number.to_be_bytes();
    TxnId([0, 0, 0, 0, 0, 0, 0, 0, a, b, c, d])
}

/// A graph of those ids, flags and edges; none where they make no graph.
fn graph(
    alloc: Global,
    numbers: &[u32],
    settled: &[bool],
    edges: &[(u64, u64)],
) -> Result<Graph, Fail>
    ensures { IfOk result (λ graph. IsGraph graph) }
{
    let mut ids = Vec::new(alloc);
    for number in numbers {
        ids.push(id(*number))?;
    }
    let mut list = Vec::new(alloc);
    for (before, after) in edges {
        list.push(Edge {
            before: *before,
            after: *after,
        })?;
    }
    let graph = Graph {
        ids: Items::from_vec(ids),
        settled: Items::from_slice(alloc, settled)?,
        edges: Items::from_vec(list),
    };
    if !is_graph(&graph) {
        return Err("no graph".into());
    }
    Ok(graph)
}

fn is_graph(graph: &Graph) -> bool
    ensures { IsTrue result → IsGraph graph.now }
{
    let count = graph.ids.len();
    graph.settled.len() == count
        && are_distinct(graph.ids.as_slice())
        && are_between(graph.edges.as_slice(), count)
}

fn are_between(edges: &[Edge], count: usize) -> bool
    ensures { IsTrue result → All (λ edge. (edge.before < count) × (edge.after < count)) edges.now }
{
    edges.iter().all(|edge| (edge.before as usize) < count && (edge.after as usize) < count)
}

fn are_distinct(ids: &[TxnId]) -> bool
    ensures { IsTrue result → AllPairs (λ s t. s ≢ t) ids.now }
{
    for at in 0..ids.len() {
        if !is_new(ids, at) {
            return false;
        }
    }
    true
}

/// Whether no id before the one at a place is equal to it.
fn is_new(ids: &[TxnId], at: usize) -> bool
    requires { at < length ids.now }
    ensures { IsTrue result → ((k : ℕ) (d : TxnIdValue) → k < at →
        slice_index_or ids.now k d ≢ slice_index_or ids.now at d) }
{
    for k in 0..at {
        if ids[k] == ids[at] {
            return false;
        }
    }
    true
}

/// A row of a table: a graph, its first vertex, whether its vertex 0 is clean, and the flags of that
/// vertex's ancestors.
#[derive(Clone, Copy)]
struct Row<'a> {
    numbers: &'a [u32],
    settled: &'a [bool],
    edges: &'a [(u64, u64)],
    first: Option<u64>,
    clean: bool,
    ancestors: &'a [bool],
}

static GRAPHS: [Row<'static>; 6] = [
    // two unsettled transactions that wait for each other
    Row {
        numbers: &[1, 2],
        settled: &[false, false],
        edges: &[(0, 1), (1, 0)],
        first: Some(0),
        clean: false,
        ancestors: &[true, true],
    },
    Row {
        numbers: &[2, 1],
        settled: &[false, false],
        edges: &[(0, 1), (1, 0)],
        first: Some(1),
        clean: false,
        ancestors: &[true, true],
    },
    // the first waits for the second, and the other way round
    Row {
        numbers: &[1, 2],
        settled: &[false, false],
        edges: &[(1, 0)],
        first: Some(1),
        clean: false,
        ancestors: &[true, true],
    },
    Row {
        numbers: &[2, 1],
        settled: &[false, false],
        edges: &[(0, 1)],
        first: Some(0),
        clean: false,
        ancestors: &[true, false],
    },
    // a ring of four, two of them settled
    Row {
        numbers: &[1, 2, 3, 4],
        settled: &[true, true, false, false],
        edges: &[(2, 0), (0, 1), (1, 3), (3, 2)],
        first: Some(2),
        clean: false,
        ancestors: &[true, true, true, true],
    },
    // all settled
    Row {
        numbers: &[1, 2],
        settled: &[true, true],
        edges: &[(0, 1), (1, 0)],
        first: None,
        clean: true,
        ancestors: &[true, true],
    },
];

fn holds(alloc: Global, row: &Row) -> Result<bool, Fail> {
    let graph = graph(alloc, row.numbers, row.settled, row.edges)?.copy(alloc)?;
    if graph.ids.is_empty() {
        return Err("no vertex".into());
    }
    Ok(
        pick(alloc, &graph)? == row.first
            && clean(alloc, &graph, 0)? == row.clean
            && ancestors(alloc, &graph, 0)?.as_slice() == row.ancestors,
    )
}

/// A ring of so many unsettled vertices, whose ids fall and whose edges are listed against their way.
fn ring(alloc: Global, count: u32) -> Result<Graph, Fail>
    ensures { IfOk result (λ graph. IsGraph graph) }
{
    let mut numbers = Vec::new(alloc);
    let mut settled = Vec::new(alloc);
    let mut edges = Vec::new(alloc);
    for v in (0..count).rev() {
        numbers.push(v)?;
        settled.push(false)?;
        let next = if v + 1 < count { v + 1 } else { 0 };
        edges.push((u64::from(v), u64::from(next)))?;
    }
    graph(
        alloc,
        numbers.as_slice(),
        settled.as_slice(),
        edges.as_slice(),
    )
}

/// Which vertices are ready, in their order.
fn ready_flags(alloc: Global, graph: &Graph) -> Result<Vec<bool>, Fail>
    requires { IsGraph graph.now }
{
    let mut flags = Vec::new(alloc);
    for v in 0..graph.ids.len() {
        flags.push(is_ready(alloc, graph, v as u64)?)?;
    }
    Ok(flags)
}

const CHAIN_READY: &[bool] = &[false, true, false];

/// Which vertices are behind a settled one.
const CHAIN_BEHIND: &[bool] = &[true, false, true];

/// A chain of three whose middle vertex, the first listed, is settled.
#[test]
fn settled_in_a_chain(rt: HostRuntime) -> Result<(), Fail> {
    let alloc = rt.alloc();
    let chain = graph(alloc, &[1, 2, 3], &[true, false, false], &[(1, 0), (0, 2)])?;
    let ready = ready_flags(alloc, &chain)?;
    assert!(rt; ready.as_slice() == CHAIN_READY);
    let behind = descendants(alloc, &chain, chain.settled.as_slice())?;
    assert!(rt; behind.as_slice() == CHAIN_BEHIND);
    Ok(())
}

#[test]
fn worked_graphs(rt: HostRuntime) -> Result<(), Fail> {
    for row in &GRAPHS {
        assert!(rt; holds(rt.alloc(), row)?);
    }
    let ring = ring(rt.alloc(), 2000)?;
    assert!(rt; pick(rt.alloc(), &ring)? == Some(1999));
    Ok(())
}
