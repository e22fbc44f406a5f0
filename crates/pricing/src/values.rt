//! The values of the nodes of a graph: what the best rests of the break lists that stand there earn.

ghost use Rattle.std.specs.Prelude.{◌≡◌, ◌≢◌, ◌<◌, ◌≤◌, ◌+ℤ◌, ◌-ℤ◌, ◌+◌, [], List, MatchOption, count_by, nat_le, length, IfOk, FitsSigned, Some, slice_get};
ghost use Rattle.std.specs.Int.{w64};
ghost use Rattle.break_rules.specs.declared.Break.{Break};
ghost use Rattle.break_rules.specs.Ranges.{IsRule};
ghost use Rattle.break_rules.specs.Lists.{Has};
ghost use Rattle.break_graph.specs.declared.Edge.{Edge};
ghost use Rattle.break_graph.specs.Graph.{IsGraph, StandsAt, node_at};
ghost use Rattle.price_sums.specs.Along.{sum_at, AreSums};
ghost use Rattle.pricing.specs.Values.{reach_of, AreFit, IsFirstWith, IsMostReached, IsValue, AreValues};
ghost use Rattle.pricing.specs.Keeping.{AreValuesAbove};

use crate::steps::Steps;
use break_graph::{Edge, Graph};
use break_rules::{NoMemory, Rule};
use price_sums::{resumption, sum_before};
use std::alloc::Global;
use std::sync::ledger::Ledger;

/// What an edge reaches: the sum of the prices before its break, and the value of the node behind it.
pub fn reach(sums: &[i64], values: &[i64], edge: Edge) -> i64
    ensures { FitsSigned w64 (reach_of sums.now values.now edge) → result ≡ reach_of sums.now values.now edge }
{
    sum_before(sums, usize::from(edge.stop.start)).wrapping_add(sum_before(
        values,
        edge.next as usize,
    ))
}

/// The difference of two sums.
pub fn difference(a: i64, b: i64) -> i64
    ensures { FitsSigned w64 (a -ℤ b) → result ≡ a -ℤ b }
{
    a.wrapping_sub(b)
}

/// The sum of two sums.
pub fn total(a: i64, b: i64) -> i64
    ensures { FitsSigned w64 (a +ℤ b) → result ≡ a +ℤ b }
{
    a.wrapping_add(b)
}

/// The first of some edges that reaches a sum.
pub fn first_reaching(edges: &[Edge], whole: i64, sums: &[i64], values: &[i64]) -> Option<Edge>
    ensures first { AreFit (reach_of sums.now values.now) edges.now → MatchOption result ((e : Edge) → Has edges.now e → reach_of sums.now values.now e ≡ whole → ⊥) (λ e. (f : IsFirstWith (reach_of sums.now values.now) edges.now whole) × (f.edge ≡ e)) }
    ensures has { MatchOption result (Unit {0}) (Has edges.now) }
{
    for next in edges {
        if reach(sums, values, *next) == whole {
            return Some(*next);
        }
    }
    None
}

/// The most that one of some edges reaches.
fn most_reached(edges: &[Edge], first: Edge, sums: &[i64], values: &[i64]) -> i64
    requires first { slice_get edges.now 0 ≡ Some first }
    ensures { AreFit (reach_of sums.now values.now) edges.now → IsMostReached (reach_of sums.now values.now) edges.now result }
{
    let mut most = reach(sums, values, first);
    for edge in edges {
        most = most.max(reach(sums, values, *edge));
    }
    most
}

/// The most that one of the edges of a node reaches, and the sum of all prices where it has none.
fn whole_of(edges: &[Edge], len: u16, sums: &[i64], values: &[i64]) -> i64
    ensures end { edges.now ≡ [] → result ≡ sum_at sums.now len }
    ensures most { edges.now ≢ [] → AreFit (reach_of sums.now values.now) edges.now → IsMostReached (reach_of sums.now values.now) edges.now result }
{
    match edges.first() {
        Some(first) => most_reached(edges, *first, sums, values),
        None => sum_before(sums, usize::from(len)),
    }
}

/// The value of a node, by those of the nodes before it.
fn value_of(rule: &Rule, len: u16, graph: &Graph, k: usize, sums: &[i64], values: &[i64]) -> i64
    requires rule { IsRule rule.now }
    requires graph { IsGraph rule.now len graph.now }
    requires sums { AreSums len sums.now }
    requires k { k < length graph.now }
    requires known { AreValues rule.now len sums.now graph.now k values.now }
    ensures { (list : List Break) → StandsAt rule.now len graph.now k list → IsValue rule.now len sums.now list result }
{
    let whole = whole_of(graph.edges(k), len, sums, values);
    difference(whole, sum_before(sums, resumption(rule, graph.spot(k))))
}

/// The value of each node of a graph.
pub fn node_values(
    alloc: Global,
    rule: &Rule,
    len: u16,
    graph: &Graph,
    sums: &[i64],
) -> Result<Vec<i64>, NoMemory>
    requires rule { IsRule rule.now }
    requires graph { IsGraph rule.now len graph.now }
    requires sums { AreSums len sums.now }
    ensures { IfOk result (λ values. AreValues rule.now len sums.now graph.now (length graph.now) values.items) }
{
    let mut values = Vec::with_capacity(alloc, graph.node_count())?;
    for k in 0..graph.node_count() {
        let value = value_of(rule, len, graph, k, sums, &values);
        values.push(value)?;
    }
    Ok(values)
}

/// The value of a node: as it was kept where the node is behind an offset, and otherwise found anew, with a step.
fn value_anew<L: Ledger>(
    rule: &Rule,
    len: u16,
    graph: &Graph,
    k: usize,
    sums: &[i64],
    values: &[i64],
    kept: &[i64],
    last: u16,
    steps: &mut Steps<L>,
) -> i64
    requires rule { IsRule rule.now }
    requires graph { IsGraph rule.now len graph.now }
    requires sums { AreSums len sums.now }
    requires k { k < length graph.now }
    requires known { AreValues rule.now len sums.now graph.now k values.now }
    requires kept { AreValuesAbove rule.now len sums.now graph.now last kept.now }
    ensures value { (list : List Break) → StandsAt rule.now len graph.now k list → IsValue rule.now len sums.now list result }
    ensures step { steps.new ≤ steps.old + 1 }
    ensures none { last < (node_at graph.now k).spot.offset → steps.new ≡ steps.old }
{
    if graph.spot(k).offset <= last {
        steps.tick();
        value_of(rule, len, graph, k, sums, values)
    } else {
        sum_before(kept, k)
    }
}

/// The value of each node of a graph: those of the nodes behind an offset as they were kept, and those of the others found
/// anew, with a step for each of these.
pub fn values_anew<L: Ledger>(
    alloc: Global,
    rule: &Rule,
    len: u16,
    graph: &Graph,
    sums: &[i64],
    kept: &[i64],
    last: u16,
    steps: &mut Steps<L>,
) -> Result<Vec<i64>, NoMemory>
    requires rule { IsRule rule.now }
    requires graph { IsGraph rule.now len graph.now }
    requires sums { AreSums len sums.now }
    requires kept { AreValuesAbove rule.now len sums.now graph.now last kept.now }
    ensures values { IfOk result (λ values. AreValues rule.now len sums.now graph.now (length graph.now) values.items) }
    ensures steps { steps.new ≤ steps.old + count_by (λ n. nat_le n.spot.offset last) graph.now }
{
    let mut values = Vec::with_capacity(alloc, graph.node_count())?;
    for k in 0..graph.node_count() {
        let value = value_anew(rule, len, graph, k, sums, &values, kept, last, steps);
        values.push(value)?;
    }
    Ok(values)
}
