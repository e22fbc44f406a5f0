//! Where lists of breaks stand, and the steps from there.

ghost use Rattle.std.specs.Prelude.{◌≡◌, ℕ, ◌<◌, IfOk, Some, length, map, slice_get};
ghost use Rattle.break_graph.specs.declared.Edge.{Edge};
ghost use Rattle.break_graph.specs.Graph.{node_at};
ghost use Rattle.list_walks.specs.Steps.{way_along, way_to};

use break_graph::Graph;
use break_layers::Way as LayerWay;
use break_rules::{Break, NoMemory, Spot};
use std::alloc::Global;

/// Where a list of breaks stands with which some legal list begins.
#[derive(Clone, Copy, PartialEq, Eq, Drop)]
pub struct Standing {
    /// The spot behind the list.
    pub spot: Spot,
    /// The number of the list's node in the graph, and 0 where there is no graph.
    pub(crate) node: usize,
}

/// A break with which some legal list goes on, and where the list with that break stands.
#[derive(Clone, Copy, PartialEq, Eq, Drop)]
pub struct WalkWay {
    /// The break.
    pub stop: Break,
    /// Where the list with that break stands.
    pub at: Standing,
}

/// The ways on from a node of a graph.
pub(crate) fn ways_along(
    alloc: Global,
    graph: &Graph,
    node: usize,
) -> Result<Vec<WalkWay>, NoMemory>
    requires node { node < length graph.now }
    requires edges { (i : ℕ) (e : Edge) → slice_get (node_at graph.now node).edges i ≡ Some e → e.next < length graph.now }
    ensures { IfOk result (λ ways. ways.items ≡ map (way_along graph.now) (node_at graph.now node).edges) }
{
    let edges = graph.edges(node);
    let mut ways = Vec::with_capacity(alloc, edges.len())?;
    for edge in edges {
        let next = edge.next as usize;
        let at = Standing {
            spot: graph.spot(next),
            node: next,
        };
        ways.push(WalkWay {
            stop: edge.stop,
            at,
        })?;
    }
    Ok(ways)
}

/// The ways on that layers give.
pub(crate) fn ways_to(alloc: Global, found: &[LayerWay]) -> Result<Vec<WalkWay>, NoMemory>
    ensures { IfOk result (λ ways. ways.items ≡ map way_to found.now) }
{
    let mut ways = Vec::with_capacity(alloc, found.len())?;
    for way in found {
        ways.push(WalkWay {
            stop: way.stop,
            at: Standing {
                spot: way.spot,
                node: 0,
            },
        })?;
    }
    Ok(ways)
}
