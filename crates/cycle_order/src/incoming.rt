ghost use Rattle.std.specs.Prelude.{◌≡◌, ◌<◌, replicate, None, All, IfOk};
ghost use Rattle.cycle_order.specs.Search.{IsIncoming};

use crate::graph::Edge;
use doc_value::OutOfMemory;
use std::alloc::Global;

/// Edges by their ends: for each vertex the place of the last edge into it, and for each edge that of
/// the last one before it with the same end.
#[derive(Drop)]
pub(crate) struct Incoming {
    pub edges: Vec<Edge>,
    pub last: Vec<Option<usize>>,
    pub previous: Vec<Option<usize>>,
}

impl Incoming {
    pub(crate) fn new(
        alloc: Global,
        edges: Vec<Edge>,
        count: usize,
    ) -> Result<Incoming, OutOfMemory>
        requires { All (λ edge. (edge.before < count) × (edge.after < count)) edges.items }
        ensures edges { IfOk result (λ into. into.edges.items ≡ edges.items) }
        ensures linked { IfOk result (λ into. IsIncoming into count) }
    {
        let mut last = no_places(alloc, count)?;
        let mut previous = Vec::new(alloc);
        for (place, edge) in edges.iter().enumerate() {
            let end = edge.after as usize;
            previous.push(last[end])?;
            last[end] = Some(place);
        }
        Ok(Incoming {
            edges,
            last,
            previous,
        })
    }
}

/// No place yet for each of so many vertices. (`vec!` would say it of clones alone.)
fn no_places(alloc: Global, count: usize) -> Result<Vec<Option<usize>>, OutOfMemory>
    ensures { IfOk result (λ places. places.items ≡ replicate count None) }
{
    let mut places = Vec::with_capacity(alloc, count)?;
    for _ in 0..count {
        places.push(None)?;
    }
    Ok(places)
}
