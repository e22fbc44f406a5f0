//! The break lists of one length under one break rule, as a graph of break after break, with its edges in one table.

use break_graph::{Edge, Graph};
use break_rules::{Break, NoMemory};
use std::alloc::Global;

/// The most breaks of a duty that a search considers: some more than the best lists of five-minute slots have.
pub const PAUSES: usize = 24;

/// How many windows are valued in one walk along a graph.
pub const LANES: usize = 8;

/// A whole number for each of the windows that are valued together.
pub type Lane = [i32; LANES];

/// The breaks of a duty, in the order of time.
#[derive(Clone, Copy, PartialEq, Eq, PartialOrd, Ord)]
pub struct Pauses {
    list: [Break; PAUSES],
    count: u8,
}

impl Pauses {
    /// No breaks.
    pub fn none() -> Pauses {
        let blank = Break { start: 0, len: 0 };
        Pauses {
            list: [blank; PAUSES],
            count: 0,
        }
    }

    /// One break more, behind the others; `false` where there is no room for it.
    pub fn push(&mut self, stop: Break) -> bool {
        match self.list.get_mut(usize::from(self.count)) {
            Some(place) => {
                *place = stop;
                self.count = self.count.saturating_add(1);
                true
            }
            None => false,
        }
    }

    /// These breaks, where there is room for them.
    pub fn of(list: &[Break]) -> Option<Pauses> {
        let mut pauses = Pauses::none();
        for stop in list {
            if !pauses.push(*stop) {
                return None;
            }
        }
        Some(pauses)
    }

    /// The breaks.
    pub fn as_slice(&self) -> &[Break] {
        match self.list.get(..usize::from(self.count)) {
            Some(list) => list,
            None => &self.list,
        }
    }
}

/// A node of a graph: where work goes on behind its last break, and where its edges end in the table. They begin where those
/// of the node before it end.
#[derive(Clone, Copy)]
struct FlatNode {
    resumes: usize,
    edges_end: usize,
}

/// The graph of the break lists of a rule and a length. Each edge leads to a node before its own, and the empty list stands
/// at the last node.
#[derive(Drop)]
pub struct ListGraph {
    nodes: Vec<FlatNode>,
    edges: Vec<Edge>,
}

/// A number of a list, and 0 past its end.
pub(crate) fn at(list: &[f64], k: usize) -> f64 {
    list.get(k).copied().unwrap_or(0.0)
}

/// The lane at a place, and zeros past the end.
fn lane_at(list: &[Lane], k: usize) -> Lane {
    list.get(k).copied().unwrap_or([0; LANES])
}

/// What an edge earns: the prices before its break, and the value of the node behind it.
pub(crate) fn earned(sums: &[f64], values: &[f64], edge: &Edge) -> f64 {
    at(sums, usize::from(edge.stop.start)) + at(values, edge.next as usize)
}

/// The most that one of some edges earns, and the sum of all prices where there is no edge.
fn most_earned(edges: &[Edge], sums: &[f64], values: &[f64]) -> f64 {
    let Some(whole) = sums.last() else {
        return 0.0;
    };
    if edges.is_empty() {
        return *whole;
    }
    let mut most = f64::MIN;
    for edge in edges {
        let sum = earned(sums, values, edge);
        if most < sum {
            most = sum;
        }
    }
    most
}

/// The first of some edges that earns most.
fn best_edge(edges: &[Edge], sums: &[f64], values: &[f64]) -> Option<Edge> {
    let mut best = *edges.first()?;
    let mut most = earned(sums, values, &best);
    for edge in edges {
        let sum = earned(sums, values, edge);
        if most < sum {
            most = sum;
            best = *edge;
        }
    }
    Some(best)
}

/// Raises each number of a lane to the sum of two others.
fn raise_lane(most: &mut Lane, a: &Lane, b: &Lane) {
    for k in 0..LANES {
        most[k] = most[k].max(a[k].wrapping_add(b[k]));
    }
}

/// The differences of two lanes.
fn lane_less(a: &Lane, b: &Lane) -> Lane {
    let mut less = [0; LANES];
    for k in 0..LANES {
        less[k] = a[k].wrapping_sub(b[k]);
    }
    less
}

/// The most that one of some edges earns in each window, and the sum of all prices where there is no edge.
fn most_earned_by_lane(edges: &[Edge], sums: &[Lane], values: &[Lane]) -> Lane {
    if edges.is_empty() {
        return sums.last().copied().unwrap_or([0; LANES]);
    }
    let mut most = [i32::MIN; LANES];
    for edge in edges {
        let before = lane_at(sums, usize::from(edge.stop.start));
        let behind = lane_at(values, edge.next as usize);
        raise_lane(&mut most, &before, &behind);
    }
    most
}

impl ListGraph {
    /// The graph, laid flat, of a rule with so many slots of resettling.
    pub fn new(alloc: Global, graph: &Graph, resettle: u16) -> Result<ListGraph, NoMemory> {
        let mut nodes = Vec::new(alloc);
        let mut edges = Vec::new(alloc);
        for node in 0..graph.node_count() {
            edges.extend_from_slice(graph.edges(node))?;
            let offset = graph.spot(node).offset;
            let pause = if offset == 0 { 0 } else { resettle };
            nodes.push(FlatNode {
                resumes: usize::from(offset.saturating_add(pause)),
                edges_end: edges.len(),
            })?;
        }
        Ok(ListGraph { nodes, edges })
    }

    /// Whether no list is legal.
    pub fn is_empty(&self) -> bool {
        self.nodes.is_empty()
    }

    /// The number of the nodes.
    pub fn node_count(&self) -> usize {
        self.nodes.len()
    }

    /// The number of the edges.
    pub fn edge_count(&self) -> usize {
        self.edges.len()
    }

    /// Where the edges of a node end in the table.
    fn edges_end(&self, node: usize) -> usize {
        match self.nodes.get(node) {
            Some(found) => found.edges_end,
            None => 0,
        }
    }

    /// The edges of a node.
    pub(crate) fn edges_of(&self, node: usize) -> &[Edge] {
        let from = match node.checked_sub(1) {
            Some(before) => self.edges_end(before),
            None => 0,
        };
        let end = self.edges_end(node);
        self.edges.get(from..end).unwrap_or(&[])
    }

    /// What the best list earns, where `sums` has the sum of the prices before each offset and, last, that of all. `values`
    /// has room for a number for each node, and has then what the best rest behind each node earns.
    pub fn best_value(&self, sums: &[f64], values: &mut [f64]) -> f64 {
        let mut from = 0;
        let mut last = 0.0;
        for (k, node) in self.nodes.iter().enumerate() {
            let edges = self.edges.get(from..node.edges_end).unwrap_or(&[]);
            from = node.edges_end;
            last = most_earned(edges, sums, values) - at(sums, node.resumes);
            if let Some(value) = values.get_mut(k) {
                *value = last;
            }
        }
        last
    }

    /// Where work goes on at a node.
    pub(crate) fn resumes(&self, node: usize) -> usize {
        match self.nodes.get(node) {
            Some(found) => found.resumes,
            None => 0,
        }
    }

    /// A list that stands at a node, with the best rest behind it; none where it has too many breaks.
    pub(crate) fn completed(
        &self,
        sums: &[f64],
        values: &[f64],
        from: usize,
        front: Pauses,
    ) -> Option<Pauses> {
        let mut pauses = front;
        let mut node = from;
        for _ in 0..=PAUSES {
            let Some(edge) = best_edge(self.edges_of(node), sums, values) else {
                return Some(pauses);
            };
            if !pauses.push(edge.stop) {
                return None;
            }
            node = edge.next as usize;
        }
        None
    }

    /// The list that earns most, after `best_value` with the same sums; none where it has too many breaks.
    pub fn best_list(&self, sums: &[f64], values: &[f64]) -> Option<Pauses> {
        let last = self.nodes.len().checked_sub(1)?;
        self.completed(sums, values, last, Pauses::none())
    }

    /// What the best list earns in each of several windows, as `best_value` of each, at prices that are whole numbers and whose sums
    /// along a window are less than 2^31.
    pub fn best_by_lane(&self, sums: &[Lane], values: &mut [Lane]) -> Lane {
        let mut from = 0;
        let mut last = [0; LANES];
        for (k, node) in self.nodes.iter().enumerate() {
            let edges = self.edges.get(from..node.edges_end).unwrap_or(&[]);
            from = node.edges_end;
            let most = most_earned_by_lane(edges, sums, values);
            last = lane_less(&most, &lane_at(sums, node.resumes));
            if let Some(value) = values.get_mut(k) {
                *value = last;
            }
        }
        last
    }
}
