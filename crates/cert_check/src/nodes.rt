//! The walk by the nodes of the graph of a shift's break lists.

ghost use Rattle.std.specs.Prelude.{◌≡◌, map, IfOk};

use crate::walks::Walk;
use break_graph::{Edge, Graph};
use break_rules::{Break, NoMemory, Spot};
use price_sums::{Lane, lane_at};
use std::alloc::Global;

/// A walk by the nodes of a shift's graph, with what rests earn on one of the days.
#[derive(Drop)]
pub struct ByNodes<'a> {
    /// The graph of the shift's break lists.
    pub graph: &'a Graph,
    /// For each graph node, the most that a rest earns behind it, on all days side by side.
    pub values: &'a [Lane],
    /// The day.
    pub day: u8,
}

/// The breaks of some edges, each with the number of the graph node behind it.
fn stops_with_nodes(alloc: Global, edges: &[Edge]) -> Result<Vec<(Break, usize)>, NoMemory>
    ensures { IfOk result (λ ways. ways.items ≡ map (λ e. (e.stop, e.next)) edges.now) }
{
    let mut ways = Vec::with_capacity(alloc, edges.len())?;
    for edge in edges {
        ways.push((edge.stop, edge.next as usize))?;
    }
    Ok(ways)
}

impl<'a> Walk for ByNodes<'a> {
    ghost use Rattle.cert_check.specs.Walks.{IsAtNode};

    type Place = usize;

    ghost stands = { λ w rule len sums node list. IsAtNode w.graph.now w.values.now w.day rule len sums node list };

    fn spot(&self, place: usize) -> Spot {
        self.graph.spot(place)
    }

    fn value(&self, place: usize) -> i64 {
        lane_at(self.values, place)[usize::from(self.day)]
    }

    fn ways(&self, alloc: Global, place: usize) -> Result<Vec<(Break, usize)>, NoMemory> {
        stops_with_nodes(alloc, self.graph.edges(place))
    }
}
