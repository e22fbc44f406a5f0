//! The graph of the spots of a shift's break lists: where a walk from break to break may stand, and by which breaks some
//! legal list goes on from there. It depends on a rule and a length alone, and answers for every start, day and price.
#![tactic(auto)]

mod behind;
mod building;
mod first_list;
mod places;

ghost use Rattle.std.specs.Prelude.{◌≡◌, ◌-◌, ◌^◌, ◌<◌, ◌≤◌, ◌++◌, [], ◌∷◌, IfOk, min, sum_by, length};
ghost use Rattle.break_graph.specs.Graph.{node_at};
ghost use Rattle.break_graph.specs.Flat.{begin_at};

use break_rules::{Break, NoMemory, Sequence, Spot};
use std::alloc::Global;
use std::marker::Model;

/// A break with which some legal list goes on from a spot.
#[derive(Clone, Copy, PartialEq, Eq, Drop)]
pub struct Edge {
    /// The break.
    pub stop: Break,
    /// The number of the node behind it.
    pub next: u32,
}

/// The edges of a node, by their breaks in rising order.
pub type Edges = Sequence<Edge>;

/// A spot at which walks stand with which some legal list begins. Contracts see a graph as a list of these.
#[derive(Drop)]
pub struct Node {
    /// The spot.
    pub spot: Spot,
    /// The breaks with which some legal list goes on; none where the walks themselves are legal lists.
    pub edges: Edges,
}

/// A node whose edges lie among those of all nodes: they end at a place there, and begin where those of the node before it
/// end.
#[derive(Clone, Copy)]
struct FlatNode {
    spot: Spot,
    end: usize,
}

/// The nodes of a rule and a length. Each edge leads to a node before its own; the empty list stands at the last node, and
/// there is no node where no list is legal.
#[derive(Drop)]
pub struct Graph {
    nodes: Vec<FlatNode>,
    edges: Vec<Edge>,
}

impl Model for Graph {
    ghost use Rattle.std.specs.Prelude.{List};
    ghost use Rattle.break_graph.specs.declared.Node.{Node};

    ghost Value = { List Node };

    ghost use Rattle.break_graph.specs.Flat.{nodes_from, AreFlat};

    ghost view = { λ g. nodes_from 0 g.nodes.items g.edges.items };

    ghost invariant = { λ g. AreFlat 0 g.nodes.items g.edges.items };
}

/// Where the edges of the node of a number begin.
fn begin_of(nodes: &[FlatNode], node: usize) -> usize
    requires { node < length nodes.now }
    ensures { result ≡ begin_at nodes.now node }
{
    match node.checked_sub(1) {
        Some(before) => nodes[before].end,
        None => 0,
    }
}

impl Graph {
    /// A graph without nodes. It takes no memory.
    fn empty(alloc: Global) -> Graph
        ensures { result ≡ [] }
    {
        Graph {
            nodes: Vec::new(alloc),
            edges: Vec::new(alloc),
        }
    }

    /// Adds a node behind the others. Its room is made first, so that no edges stay without it where it is out of memory.
    fn append(&mut self, node: Node) -> Result<(), NoMemory>
        ensures { IfOk result (λ _. self.new ≡ self.old ++ node ∷ []) }
    {
        self.nodes.reserve(1)?;
        self.edges.extend_from_slice(node.edges.as_slice())?;
        let end = self.edges.len();
        let spot = node.spot;
        self.nodes.push(FlatNode { spot, end })?;
        Ok(())
    }

    /// The number of nodes.
    pub fn node_count(&self) -> usize
        ensures { result ≡ length self.now }
    {
        self.nodes.len()
    }

    /// The spot of the node of a number.
    pub fn spot(&self, node: usize) -> Spot
        requires { node < length self.now }
        ensures { result ≡ (node_at self.now node).spot }
    {
        self.nodes[node].spot
    }

    /// The edges of the node of a number, by their breaks in rising order.
    pub fn edges(&self, node: usize) -> &[Edge]
        requires { node < length self.now }
        ensures { result.now ≡ (node_at self.now node).edges }
    {
        let begin = begin_of(&self.nodes, node);
        let end = self.nodes[node].end;
        &self.edges[begin..end]
    }

    /// The number of the edges of all nodes.
    fn edges_in_all(&self) -> usize
        ensures { result ≡ sum_by (λ n. length n.edges) self.now }
    {
        self.edges.len()
    }

    /// The number of the edges of all nodes, for whoever bounds the memory of graphs; at most `usize::MAX`.
    pub fn edge_count(&self) -> usize
        ensures { result ≡ min (sum_by (λ n. length n.edges) self.now) (2 ^ 64 - 1) }
    {
        self.edges_in_all()
    }
}
