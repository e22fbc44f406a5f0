//! For each node of the graph of a shift's break lists, the most that a rest earns behind it: on all days side by side.

ghost use Rattle.std.specs.Prelude.{◌≡◌, ◌<◌, ◌+ℤ◌, ℕ, List, length, OnOk, FitsSigned};
ghost use Rattle.std.specs.Int.{w64};
ghost use Rattle.break_rules.specs.declared.Break.{Break};
ghost use Rattle.break_rules.specs.Ranges.{IsRule};
ghost use Rattle.break_graph.specs.Graph.{IsGraph, StandsAt};
ghost use Rattle.price_sums.specs.Along.{sum_at, AreSums, Completes};
ghost use Rattle.price_sums.specs.Days.{sums_on};
ghost use Rattle.cert_check.specs.Rests.{rest_worth, worth_with_start, AreValues, IsGreatest};

use break_graph::{Edge, Graph};
use break_rules::{NoMemory, Rule};
use price_sums::{Lane, lane_at, lane_difference, lane_total, raise_lane, resumption};

/// What is had by an edge on each day: the sum of the prices before its break, and the most that a rest earns behind it.
fn had_by(sums: &[Lane], values: &[Lane], edge: Edge) -> Lane
    ensures { (day : ℕ) → day < 8 → FitsSigned w64 (sum_at (sums_on day sums.now) edge.stop.start +ℤ sum_at (sums_on day values.now) edge.next) → sum_at result day ≡ sum_at (sums_on day sums.now) edge.stop.start +ℤ sum_at (sums_on day values.now) edge.next }
{
    lane_total(
        lane_at(sums, usize::from(edge.stop.start)),
        lane_at(values, edge.next as usize),
    )
}

/// The most that is had behind a graph node on each day, with the sum of the prices before it, by the graph nodes before it.
fn most_with_start(
    rule: &Rule,
    len: u16,
    sums: &[Lane],
    graph: &Graph,
    k: usize,
    values: &[Lane],
) -> Lane
    requires rule { IsRule rule.now }
    requires graph { IsGraph rule.now len graph.now }
    requires node { k < length graph.now }
    ensures { (day : ℕ) → day < 8 → AreSums len (sums_on day sums.now) → AreValues rule.now len (sums_on day sums.now) graph.now k (sums_on day values.now) → (list : List Break) → StandsAt rule.now len graph.now k list → IsGreatest (Completes rule.now len list) (worth_with_start (sums_on day sums.now) rule.now len list) (sum_at result day) }
{
    let Some((first, others)) = graph.edges(k).split_first() else {
        return *lane_at(sums, usize::from(len));
    };
    let mut most = had_by(sums, values, *first);
    for edge in others {
        raise_lane(&mut most, &had_by(sums, values, *edge));
    }
    most
}

/// The most that a rest earns behind a graph node on each day, by the graph nodes before it.
fn rest_lane(rule: &Rule, len: u16, sums: &[Lane], graph: &Graph, k: usize, values: &[Lane]) -> Lane
    requires rule { IsRule rule.now }
    requires graph { IsGraph rule.now len graph.now }
    requires node { k < length graph.now }
    ensures { (day : ℕ) → day < 8 → AreSums len (sums_on day sums.now) → AreValues rule.now len (sums_on day sums.now) graph.now k (sums_on day values.now) → (list : List Break) → StandsAt rule.now len graph.now k list → IsGreatest (Completes rule.now len list) (rest_worth (sums_on day sums.now) rule.now len list) (sum_at result day) }
{
    let most = most_with_start(rule, len, sums, graph, k, values);
    lane_difference(&most, lane_at(sums, resumption(rule, graph.spot(k))))
}

/// Sets lanes to the most that a rest earns on each day, for each graph node, with which a list that stands there is legal. The room that
/// the lanes have is used again.
pub fn set_rest_lanes(
    rule: &Rule,
    len: u16,
    sums: &[Lane],
    graph: &Graph,
    lanes: &mut Vec<Lane>,
) -> Result<(), NoMemory>
    requires rule { IsRule rule.now }
    requires graph { IsGraph rule.now len graph.now }
    ensures { OnOk result ((day : ℕ) → day < 8 → AreSums len (sums_on day sums.now) → AreValues rule.now len (sums_on day sums.now) graph.now (length graph.now) (sums_on day lanes.new.items)) }
{
    lanes.clear();
    lanes.reserve(graph.node_count())?;
    for k in 0..graph.node_count() {
        let value = rest_lane(rule, len, sums, graph, k, lanes);
        lanes.push(value)?;
    }
    Ok(())
}
