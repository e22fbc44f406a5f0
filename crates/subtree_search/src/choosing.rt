//! Which node a search takes next, and the least floor of its nodes.
ghost use Rattle.std.specs.Prelude.{◌≡◌, ℕ, IsFalse, MatchOption, Some, slice_get};
ghost use Rattle.head_splits.specs.Nodes.{Node};
ghost use Rattle.report_grafts.specs.Run.{floor_up_to};
ghost use Rattle.subtree_search.specs.Searching.{is_open, IsNext};

use crate::node::SearchNode;

/// The node of least floor, and among those of least number, of the nodes that are open below a cost.
pub(crate) fn next_open(nodes: &[SearchNode], cost: u64) -> Option<usize>
    ensures { MatchOption result ((j : ℕ) (m : Node) → slice_get nodes.now j ≡ Some m → IsFalse (is_open cost m)) (λ k. (n : Node) × IsNext nodes.now cost k n) }
{
    let mut next = None;
    let mut floor = cost;
    for (k, node) in nodes.iter().enumerate() {
        if node.is_open(floor) {
            next = Some(k);
            floor = node.floor();
        }
    }
    next
}

/// The least of a cost and the floors of the unsplit nodes.
pub(crate) fn least_floor(nodes: &[SearchNode], cost: u64) -> u64
    ensures { result ≡ floor_up_to cost nodes.now }
{
    let mut floor = cost;
    for node in nodes {
        if !node.is_split() {
            floor = floor.min(node.floor());
        }
    }
    floor
}
