//! The node where some breaks stand, along the edges of a graph.

ghost use Rattle.std.specs.Prelude.{◌≡◌, ℕ, false, MatchOption};
ghost use Rattle.break_rules.specs.declared.Rule.{Rule};
ghost use Rattle.break_rules.specs.Breaks.{is_live};
ghost use Rattle.break_rules.specs.Lists.{Has};
ghost use Rattle.break_graph.specs.declared.Edge.{Edge};
ghost use Rattle.break_graph.specs.Graph.{IsGraph, StandsAt};

use crate::{Edge, Graph};
use break_rules::Break;

/// The edge with a break, and `None` where there is none.
fn edge_with(edges: &[Edge], stop: Break) -> Option<Edge>
    ensures { MatchOption result ((e : Edge) → Has edges.now e → e.stop ≡ stop → ⊥) (λ e. Has edges.now e × (e.stop ≡ stop)) }
{
    for edge in edges {
        if edge.stop == stop {
            return Some(*edge);
        }
    }
    None
}

impl Graph {
    /// The number of the node where some breaks stand, and `None` where no legal list begins with them. It takes no memory.
    pub fn node_behind(&self, front: &[Break]) -> Option<usize>
        requires graph { (rule : Rule) × (len : ℕ) × IsGraph rule len self.now }
        ensures behind { (rule : Rule) (len : ℕ) → IsGraph rule len self.now → MatchOption result (is_live rule len front.now ≡ false) (λ k. StandsAt rule len self.now k front.now) }
    {
        let Some(opening) = self.node_count().checked_sub(1) else {
            return None;
        };
        let mut at = opening;
        for stop in front {
            let Some(edge) = edge_with(self.edges(at), *stop) else {
                return None;
            };
            at = edge.next as usize;
        }
        Some(at)
    }
}
