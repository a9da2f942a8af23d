ghost use Rattle.std.specs.Prelude.{◌≡◌, map, IfOk};
ghost use Rattle.cycle_order.specs.Graphs.{IsGraph};
ghost use Rattle.cycle_order.specs.Choice.{AreLinks, turned};

use crate::graph::{Edge, Graph};
use crate::incoming::Incoming;
use doc_value::OutOfMemory;
use std::alloc::Global;

/// The edges of a graph by where they end, and, turned round, by where they begin.
#[derive(Drop)]
pub(crate) struct Links {
    pub into: Incoming,
    pub out_of: Incoming,
}

impl Links {
    pub(crate) fn new(alloc: Global, graph: &Graph) -> Result<Links, OutOfMemory>
        requires { IsGraph graph.now }
        ensures { IfOk result (λ links. AreLinks graph.now links) }
    {
        let count = graph.ids.len();
        let edges = Vec::from_slice(alloc, graph.edges.as_slice())?;
        let into = Incoming::new(alloc, edges, count)?;
        let turned = turn(alloc, graph.edges.as_slice())?;
        let out_of = Incoming::new(alloc, turned, count)?;
        Ok(Links { into, out_of })
    }
}

/// The edges, each the other way.
fn turn(alloc: Global, edges: &[Edge]) -> Result<Vec<Edge>, OutOfMemory>
    ensures { IfOk result (λ others. others.items ≡ map turned edges.now) }
{
    edges
        .iter()
        .map(|edge| Edge {
            before: edge.after,
            after: edge.before,
        })
        .collect(alloc)
}
