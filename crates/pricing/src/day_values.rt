//! The values of the nodes of a graph on all days, side by side.

ghost use Rattle.std.specs.Prelude.{◌≡◌, ◌≢◌, ◌<◌, ℕ, [], List, Some, length, OnOk, FitsSigned, slice_get};
ghost use Rattle.std.specs.Int.{w64};
ghost use Rattle.break_rules.specs.declared.Break.{Break};
ghost use Rattle.break_rules.specs.Ranges.{IsRule};
ghost use Rattle.break_graph.specs.Graph.{IsGraph, StandsAt};
ghost use Rattle.price_sums.specs.Along.{sum_at, AreSums};
ghost use Rattle.price_sums.specs.Days.{sums_on};
ghost use Rattle.pricing.specs.Values.{reach_of, AreFit, IsMostReached, IsValue, AreValues};

use break_graph::{Edge, Graph};
use break_rules::{NoMemory, Rule};
use price_sums::{Lane, lane_at, lane_difference, lane_total, raise_lane, resumption};

/// What an edge reaches on each day.
fn reach_by_day(sums: &[Lane], values: &[Lane], edge: Edge) -> Lane
    ensures { (day : ℕ) → day < 8 → FitsSigned w64 (reach_of (sums_on day sums.now) (sums_on day values.now) edge) → sum_at result day ≡ reach_of (sums_on day sums.now) (sums_on day values.now) edge }
{
    lane_total(
        lane_at(sums, usize::from(edge.stop.start)),
        lane_at(values, edge.next as usize),
    )
}

/// The most that one of some edges reaches on each day.
fn most_reached_by_day(edges: &[Edge], first: Edge, sums: &[Lane], values: &[Lane]) -> Lane
    requires first { slice_get edges.now 0 ≡ Some first }
    ensures { (day : ℕ) → day < 8 → AreFit (reach_of (sums_on day sums.now) (sums_on day values.now)) edges.now → IsMostReached (reach_of (sums_on day sums.now) (sums_on day values.now)) edges.now (sum_at result day) }
{
    let mut most = reach_by_day(sums, values, first);
    for edge in edges {
        raise_lane(&mut most, &reach_by_day(sums, values, *edge));
    }
    most
}

/// The most that one of the edges of a node reaches on each day, and the sum of all prices where it has none.
fn whole_by_day(edges: &[Edge], len: u16, sums: &[Lane], values: &[Lane]) -> Lane
    ensures end { edges.now ≡ [] → (day : ℕ) → sum_at result day ≡ sum_at (sums_on day sums.now) len }
    ensures most { edges.now ≢ [] → (day : ℕ) → day < 8 → AreFit (reach_of (sums_on day sums.now) (sums_on day values.now)) edges.now → IsMostReached (reach_of (sums_on day sums.now) (sums_on day values.now)) edges.now (sum_at result day) }
{
    match edges.first() {
        Some(first) => most_reached_by_day(edges, *first, sums, values),
        None => *lane_at(sums, usize::from(len)),
    }
}

/// The values of a node on each day, by those of the nodes before it.
fn value_by_day(
    rule: &Rule,
    len: u16,
    graph: &Graph,
    k: usize,
    sums: &[Lane],
    values: &[Lane],
) -> Lane
    requires rule { IsRule rule.now }
    requires graph { IsGraph rule.now len graph.now }
    requires k { k < length graph.now }
    ensures { (day : ℕ) → day < 8 → AreSums len (sums_on day sums.now) → AreValues rule.now len (sums_on day sums.now) graph.now k (sums_on day values.now) → (list : List Break) → StandsAt rule.now len graph.now k list → IsValue rule.now len (sums_on day sums.now) list (sum_at result day) }
{
    let whole = whole_by_day(graph.edges(k), len, sums, values);
    lane_difference(&whole, lane_at(sums, resumption(rule, graph.spot(k))))
}

/// Sets a list to the values of each node of a graph on each day. The room that the list has is used again.
pub fn set_values_by_day(
    rule: &Rule,
    len: u16,
    graph: &Graph,
    sums: &[Lane],
    values: &mut Vec<Lane>,
) -> Result<(), NoMemory>
    requires rule { IsRule rule.now }
    requires graph { IsGraph rule.now len graph.now }
    ensures { OnOk result ((day : ℕ) → day < 8 → AreSums len (sums_on day sums.now) → AreValues rule.now len (sums_on day sums.now) graph.now (length graph.now) (sums_on day values.new.items)) }
{
    values.clear();
    values.reserve(graph.node_count())?;
    for k in 0..graph.node_count() {
        let value = value_by_day(rule, len, graph, k, sums, values);
        values.push(value)?;
    }
    Ok(())
}
