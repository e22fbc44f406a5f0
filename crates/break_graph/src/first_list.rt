//! The least legal list, along the first edges of a graph.

ghost use Rattle.std.specs.Prelude.{◌≡◌, ◌<◌, ℕ, IfOk, length, slice_get};
ghost use Rattle.std.specs.Option.{option_copied};
ghost use Rattle.break_rules.specs.declared.Rule.{Rule};
ghost use Rattle.break_rules.specs.Breaks.{legal_lists};
ghost use Rattle.break_graph.specs.Graph.{IsGraph, node_at};

use crate::{Edge, Graph};
use break_rules::{Breaks, NoMemory};
use std::alloc::Global;

/// The first edge of a node, and `None` where it has none.
fn first_edge(graph: &Graph, at: usize) -> Option<Edge>
    requires { at < length graph.now }
    ensures { result ≡ slice_get (node_at graph.now at).edges 0 }
{
    graph.edges(at).first().copied()
}

impl Graph {
    /// The least legal list of the rule and the length that this is the graph of, and `None` where no list is legal. The
    /// time it takes is in the order of the list's length.
    pub fn least(&self, alloc: Global) -> Result<Option<Breaks>, NoMemory>
        requires graph { (rule : Rule) × (len : ℕ) × IsGraph rule len self.now }
        ensures first { (rule : Rule) (len : ℕ) → IsGraph rule len self.now → IfOk result (λ found. found ≡ slice_get (legal_lists rule len) 0) }
    {
        let Some(opening) = self.node_count().checked_sub(1) else {
            return Ok(None);
        };
        let mut list = Vec::new(alloc);
        let mut at = opening;
        while let Some(edge) = first_edge(self, at) {
            list.push(edge.stop)?;
            at = edge.next as usize;
        }
        Ok(Some(Breaks::new(list)))
    }
}
