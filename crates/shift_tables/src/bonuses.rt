//! The best break lists where duties whose lists begin in some ways earn more or less.

use crate::lists::{ListGraph, Pauses, at, earned};
use break_graph::Edge;
use break_rules::Break;

/// What a duty earns beside its slots whose breaks begin with some.
#[derive(Clone, Copy)]
pub struct Bonus {
    /// The breaks.
    pub front: Pauses,
    /// What the duty earns.
    pub earned: f64,
}

/// A break list, with what a duty with it earns.
#[derive(Clone, Copy)]
pub struct Found {
    /// What it earns.
    pub earned: f64,
    /// The breaks.
    pub pauses: Pauses,
}

/// Whether a list begins with another one.
pub fn begins_with(list: &[Break], front: &[Break]) -> bool {
    if list.len() < front.len() {
        return false;
    }
    for (x, y) in list.iter().zip(front) {
        if *x != *y {
            return false;
        }
    }
    true
}

/// What a duty earns by all bonuses whose breaks its list begins with.
pub fn bonus_of(bonuses: &[Bonus], list: &[Break]) -> f64 {
    let mut sum = 0.0;
    for bonus in bonuses {
        if begins_with(list, bonus.front.as_slice()) {
            sum += bonus.earned;
        }
    }
    sum
}

/// Whether some bonus is for lists that begin with some breaks and go on with a certain one.
fn goes_on(bonuses: &[Bonus], front: &[Break], stop: Break) -> bool {
    for bonus in bonuses {
        let list = bonus.front.as_slice();
        if begins_with(list, front) && list.get(front.len()).copied() == Some(stop) {
            return true;
        }
    }
    false
}

/// The first of some edges that earns most, of those with which no bonus goes on.
fn best_other(
    edges: &[Edge],
    sums: &[f64],
    values: &[f64],
    bonuses: &[Bonus],
    front: &[Break],
) -> Option<Edge> {
    let mut best = None;
    let mut most = f64::MIN;
    for edge in edges {
        let sum = earned(sums, values, edge);
        if most < sum && !goes_on(bonuses, front, edge.stop) {
            most = sum;
            best = Some(*edge);
        }
    }
    best
}

/// The edge with a break.
fn edge_with(edges: &[Edge], stop: Break) -> Option<Edge> {
    for edge in edges {
        if edge.stop == stop {
            return Some(*edge);
        }
    }
    None
}

impl ListGraph {
    /// The node at which some breaks stand, and what the work before the last of them earns.
    fn walk_to(&self, sums: &[f64], front: &[Break]) -> Option<(usize, f64)> {
        let mut node = self.node_count().checked_sub(1)?;
        let mut earned = 0.0;
        for stop in front {
            let edge = edge_with(self.edges_of(node), *stop)?;
            earned += at(sums, usize::from(stop.start)) - at(sums, self.resumes(node));
            node = edge.next as usize;
        }
        Some((node, earned))
    }

    /// The best list that begins with some breaks and doesn't go on as another bonus does.
    fn best_behind(
        &self,
        sums: &[f64],
        values: &[f64],
        bonuses: &[Bonus],
        front: &Pauses,
    ) -> Option<Found> {
        let list = front.as_slice();
        let (node, before) = self.walk_to(sums, list)?;
        let gained = before + bonus_of(bonuses, list) - at(sums, self.resumes(node));
        let edges = self.edges_of(node);
        if edges.is_empty() {
            return Some(Found {
                earned: gained + sums.last().copied().unwrap_or(0.0),
                pauses: *front,
            });
        }
        let edge = best_other(edges, sums, values, bonuses, list)?;
        let mut pauses = *front;
        if !pauses.push(edge.stop) {
            return None;
        }
        Some(Found {
            earned: gained + earned(sums, values, &edge),
            pauses: self.completed(sums, values, edge.next as usize, pauses)?,
        })
    }

    /// The list that earns most with some bonuses, after `best_value` with the same sums; none where it has too many breaks.
    pub fn best_with(&self, sums: &[f64], values: &[f64], bonuses: &[Bonus]) -> Option<Found> {
        let mut best = self.best_behind(sums, values, bonuses, &Pauses::none());
        for bonus in bonuses {
            if let Some(found) = self.best_behind(sums, values, bonuses, &bonus.front) {
                let most = match best {
                    Some(other) => other.earned,
                    None => f64::MIN,
                };
                if most < found.earned {
                    best = Some(found);
                }
            }
        }
        best
    }
}
