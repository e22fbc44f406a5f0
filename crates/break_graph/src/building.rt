//! The nodes of a graph, made from the end of the shift to its start.

ghost use Rattle.std.specs.Prelude.{◌≡◌, ◌+◌, ◌-◌, ◌*◌, ◌^◌, ◌<◌, ◌≤◌, ◌++◌, ℕ, List, [], ◌∷◌, Bool, true, false, IfOk, IfSome, IsSome, IsTrue, length, sum_by, slice_get, slice_index_or, Option, Some, None, MatchOption};
ghost use Rattle.std.specs.List.{filter_map};
ghost use Rattle.break_rules.specs.Ranges.{IsRule};
ghost use Rattle.break_rules.specs.Walk.{nexts_of, spot_of, is_walk};
ghost use Rattle.break_rules.specs.Live.{place_of};
ghost use Rattle.break_graph.specs.Graph.{IsGraph};
ghost use Rattle.break_graph.specs.Building.{AreMarked, AreReached, number_at, AreBelow, LeadBelow, edge_to, edges_by, IsNodeOf};

use crate::places::{is_marked, marked_places};
use crate::{Edge, Edges, Graph, Node};
use break_rules::{Break, NoMemory, Rule, Spot, after, ends, nexts, place, spot_at};
use std::alloc::Global;

/// The number of the node of a place, if it has one.
fn number_of(numbers: &[Option<u32>], place: usize) -> Option<u32>
    ensures { result ≡ number_at numbers.now place }
{
    numbers.get(place).copied().unwrap_or(None)
}

/// Adds the edge by a break to the node of a number, if there is one.
fn add_edge(edges: &mut Vec<Edge>, stop: Break, number: Option<u32>) -> Result<(), NoMemory>
    ensures { IfOk result (λ _. edges.new.items ≡ edges.old.items ++ filter_map (edge_to stop) (number ∷ [])) }
{
    if let Some(next) = number {
        edges.push(Edge { stop, next })?;
    }
    Ok(())
}

/// The edges of a spot, by the numbers of the nodes of later spots.
fn edges_at(
    alloc: Global,
    rule: &Rule,
    len: u16,
    spot: Spot,
    numbers: &[Option<u32>],
) -> Result<Edges, NoMemory>
    requires { IsRule rule.now }
    ensures exact { IfOk result (λ edges. (list : List Break) → spot ≡ spot_of rule.now list → edges ≡ edges_by rule.now len numbers.now list (nexts_of rule.now len spot)) }
    ensures back { IfOk result (λ edges. (bound : ℕ) → AreBelow bound numbers.now → LeadBelow bound edges) }
{
    let mut edges = Vec::new(alloc);
    for next in nexts(rule, len, spot) {
        let behind = place(len, after(rule, spot, next));
        add_edge(&mut edges, next, number_of(numbers, behind))?;
    }
    Ok(Edges::new(edges))
}

/// The node of a place, and `None` where no walk comes or no legal list begins with the breaks of one.
fn node_of(
    alloc: Global,
    rule: &Rule,
    len: u16,
    place: usize,
    reached: &[bool],
    numbers: &[Option<u32>],
) -> Result<Option<Node>, NoMemory>
    requires rule { IsRule rule.now }
    requires inside { place < 256 * (len + 1) }
    requires marked { AreMarked rule.now len reached.now }
    requires walked { AreReached rule.now len reached.now }
    ensures { IfOk result (λ found. IsNodeOf rule.now len place numbers.now found) }
{
    if !is_marked(reached, place) {
        return Ok(None);
    }
    let spot = spot_at(len, place);
    let edges = edges_at(alloc, rule, len, spot, numbers)?;
    if edges.as_slice().is_empty() && !ends(rule, len, spot) {
        return Ok(None);
    }
    Ok(Some(Node { spot, edges }))
}

/// Adds a node, if there is one, and gives its number.
fn add_node(graph: &mut Graph, found: Option<Node>) -> Result<Option<u32>, NoMemory>
    requires { length graph.old < 2 ^ 32 }
    ensures few { IfOk result (λ _. length graph.new ≤ length graph.old + 1) }
    ensures none { found ≡ None → IfOk result (λ number. (number ≡ None) × (graph.new ≡ graph.old)) }
    ensures some { (n : Node) → found ≡ Some n → IfOk result (λ number. (number ≡ Some (length graph.old)) × (graph.new ≡ graph.old ++ n ∷ [])) }
{
    match found {
        Some(node) => {
            let number = graph.node_count() as u32;
            graph.append(node)?;
            Ok(Some(number))
        }
        None => Ok(None),
    }
}

impl Graph {
    /// The graph of a rule and a length: a node for each spot that a walk reaches and from which some legal list goes on,
    /// those of later offsets first and the opening spot last. The time it takes is in the order of the spots that walks
    /// reach times the breaks that may come next at one, and of 256 places for each slot of the length, to look up spots.
    pub fn new(alloc: Global, rule: &Rule, len: u16) -> Result<Graph, NoMemory>
        requires { IsRule rule.now }
        ensures { IfOk result (λ g. IsGraph rule.now len g) }
    {
        match Graph::within(alloc, rule, len, usize::MAX)? {
            Some(graph) => Ok(graph),
            None => unreachable!(),
        }
    }

    /// The graph of a rule and a length, as `new`, and `None` where it has more than `most_edges` edges: then it is not made
    /// whole.
    pub fn within(
        alloc: Global,
        rule: &Rule,
        len: u16,
        most_edges: usize,
    ) -> Result<Option<Graph>, NoMemory>
        requires { IsRule rule.now }
        ensures graph { IfOk result (λ found. IfSome found (λ g. IsGraph rule.now len g)) }
        ensures few { IfOk result (λ found. IfSome found (λ g. sum_by (λ n. length n.edges) g ≤ most_edges)) }
        ensures more { IfOk result (λ found. found ≡ None → (g : List Node) → IsGraph rule.now len g → most_edges < sum_by (λ n. length n.edges) g) }
        ensures unbounded { most_edges ≡ usize.MAX → IfOk result (λ found. IsSome found) }
    {
        let reached = marked_places(alloc, rule, len)?;
        let mut graph = Graph::empty(alloc);
        let mut numbers = Vec::new(alloc);
        let places = 256 * usize::from(len) + 1;
        for place in 0..places {
            let found = node_of(alloc, rule, len, place, &reached, &numbers)?;
            let number = add_node(&mut graph, found)?;
            if most_edges < graph.edges_in_all() {
                return Ok(None);
            }
            numbers.push(number)?;
        }
        Ok(Some(graph))
    }
}
