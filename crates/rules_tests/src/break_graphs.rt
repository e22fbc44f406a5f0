//! A graph that was worked out by hand.
ghost use Rattle.break_rules.specs.Ranges.{IsRule};

use crate::small_rules::{eighth, judge, short};
use break_graph::{Edge, Graph};
use break_rules::{NoMemory, Rule};
use std::alloc::Global;
use std::process::Abort;
use std::test::Fail;

/// An edge by a break of one slot.
fn edge(start: u16, next: u32) -> Edge {
    let stop = short(start);
    Edge { stop, next }
}

/// Stops the test where the graph hasn't four edges from its last node to others.
fn judge_edges(rt: &impl Abort, graph: &Graph) {
    assert_eq!(rt; graph.node_count(), 5);
    assert_eq!(rt; graph.edge_count(), 4);
    let edges = [edge(2, 3), edge(3, 2), edge(4, 1), edge(5, 0)];
    assert!(rt; graph.edges(4) == edges.as_slice());
    assert!(rt; graph.spot(0).offset == 6 && graph.edges(0).is_empty());
}

#[test]
fn one_break_leads_to_the_ends(rt: HostRuntime) -> Result<(), Fail> {
    let alloc = rt.alloc();
    let rule = eighth(alloc)?;
    judge(&rt, &rule);
    judge_edges(&rt, &Graph::new(alloc, &rule, 8)?);
    Ok(())
}

/// How many nodes and edges the graph has that is within so many edges, if there is one.
fn counts_within(
    alloc: Global,
    rule: &Rule,
    len: u16,
    most_edges: usize,
) -> Result<Option<(usize, usize)>, NoMemory>
    requires { IsRule rule.now }
{
    Ok(match Graph::within(alloc, rule, len, most_edges)? {
        Some(graph) => Some((graph.node_count(), graph.edge_count())),
        None => None,
    })
}

/// Stops the test where the graph of a shift of 8 slots isn't within four edges, or is within three, or where that of 7 slots,
/// in which no list is legal, has any.
fn judge_limits(rt: &impl Abort, alloc: Global, rule: &Rule) -> Result<(), NoMemory>
    requires { IsRule rule.now }
{
    assert_eq!(rt; counts_within(alloc, rule, 8, 4)?, Some((5, 4)));
    assert_eq!(rt; counts_within(alloc, rule, 8, 3)?, None);
    assert_eq!(rt; counts_within(alloc, rule, 7, 0)?, Some((0, 0)));
    Ok(())
}

#[test]
fn a_graph_of_four_edges_is_within_four(rt: HostRuntime) -> Result<(), Fail> {
    let alloc = rt.alloc();
    let rule = eighth(alloc)?;
    judge(&rt, &rule);
    judge_limits(&rt, alloc, &rule)?;
    Ok(())
}
