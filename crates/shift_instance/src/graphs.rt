//! The graphs of the break lists of an instance's shifts: one for each rule and length, shared by the types with that rule.

ghost use Rattle.std.specs.Prelude.{◌≡◌, ◌+◌, ◌≤◌, ◌↔◌, All, IfOk, IfSome, IsTrue, slice_get, MatchOption, Some, None, Option};
ghost use Rattle.std.specs.Arc.{arc_value};
ghost use Rattle.break_rules.specs.Ranges.{IsRule};
ghost use Rattle.break_graph.specs.Graph.{IsGraph};
ghost use Rattle.shift_instance.specs.Listing.{IsListed};
ghost use Rattle.shift_instance.specs.Graphs.{HaveSameTimes, HaveSameLists, AreGraphsOf, AreGraphs};

use crate::TypeParts;
use break_graph::Graph;
use break_rules::{NoMemory, Rule};
use std::alloc::Global;
use std::marker::Model;
use std::sync::Arc;

/// The most edges that the graphs of an instance have together, each counted once, which bounds their memory to some 130 MB, eight bytes an edge.
/// The shifts of an hour's quarters have some thousands; those of breaks and slots of five minutes may have a million for each length.
const EDGES_KEPT: usize = 1 << 24;

/// The graphs of a type's rule, by length from the type's least on, each shared with the types that have the same rule. The
/// greatest lengths are left out where there is no room for their graphs.
#[derive(Drop)]
pub struct TypeGraphs {
    list: Vec<Arc<Graph>>,
}

impl Model for TypeGraphs {
    ghost use Rattle.std.specs.Prelude.{List};
    ghost use Rattle.break_graph.specs.declared.Node.{Node};

    ghost Value = { List (List Node) };

    ghost use Rattle.std.specs.Prelude.{map};
    ghost use Rattle.std.specs.Arc.{arc_value};

    ghost view = { λ t. map arc_value t.list.items };
}

impl TypeGraphs {
    /// The graph of a length, so many slots above the type's least.
    pub fn at(&self, above: u16) -> Option<&Arc<Graph>>
        ensures { MatchOption result (slice_get self.now above ≡ None) (λ g. slice_get self.now above ≡ Some (arc_value g.now)) }
    {
        self.list.get(usize::from(above))
    }
}

/// Whether two rules have the same distances from both ends and the same lengths of work.
fn have_same_times(rule: &Rule, other: &Rule) -> bool
    ensures { IsTrue result ↔ HaveSameTimes rule.now other.now }
{
    (rule.lead, rule.tail) == (other.lead, other.tail)
        && (rule.work_min, rule.work_max) == (other.work_min, other.work_max)
        && (rule.long_work, rule.long_rest) == (other.long_work, other.long_rest)
}

/// Whether two rules have the same totals and the same lunch entries.
fn have_same_lists(rule: &Rule, other: &Rule) -> bool
    ensures { IsTrue result ↔ HaveSameLists rule.now other.now }
{
    rule.totals.as_slice() == other.totals.as_slice()
        && rule.lunches.as_slice() == other.lunches.as_slice()
}

/// Whether two rules are the same, field by field.
fn are_same(rule: &Rule, other: &Rule) -> bool
    ensures { IsTrue result ↔ (rule.now ≡ other.now) }
{
    have_same_times(rule, other)
        && (rule.size_min, rule.size_max, rule.resettle)
            == (other.size_min, other.size_max, other.resettle)
        && have_same_lists(rule, other)
}

/// The graph of a rule and a length among those of a type, if the type has this rule and the graph is kept.
fn graph_of<'a>(
    kind: &TypeParts,
    graphs: &'a TypeGraphs,
    rule: &Rule,
    len: u16,
) -> Option<&'a Arc<Graph>>
    requires { AreGraphsOf kind.now graphs.now }
    ensures { IfSome result (λ g. IsGraph rule.now len (arc_value g.now)) }
{
    if !are_same(&kind.rule, rule) {
        return None;
    }
    let above = len.checked_sub(kind.len_min)?;
    graphs.at(above)
}

/// The graph of a rule and a length among those of some types, if one of them has it.
fn graph_among<'a>(
    kinds: &[TypeParts],
    graphs: &'a [TypeGraphs],
    rule: &Rule,
    len: u16,
) -> Option<&'a Arc<Graph>>
    requires { AreGraphs kinds.now graphs.now }
    ensures { IfSome result (λ g. IsGraph rule.now len (arc_value g.now)) }
{
    for (kind, of) in kinds.iter().zip(graphs) {
        if let Some(found) = graph_of(kind, of, rule, len) {
            return Some(found);
        }
    }
    None
}

/// The graph of a rule and a length: that of an earlier type with this rule, and else a new one, if there is room for it.
fn graph_within(
    alloc: Global,
    kinds: &[TypeParts],
    graphs: &[TypeGraphs],
    rule: &Rule,
    len: u16,
    room: &mut usize,
) -> Result<Option<Arc<Graph>>, NoMemory>
    requires rule { IsRule rule.now }
    requires graphs { AreGraphs kinds.now graphs.now }
    ensures { IfOk result (λ found. IfSome found (λ g. IsGraph rule.now len (arc_value g))) }
{
    if let Some(found) = graph_among(kinds, graphs, rule, len) {
        return Ok(Some(Arc::try_clone(found)?));
    }
    let Some(graph) = Graph::within(alloc, rule, len, *room)? else {
        return Ok(None);
    };
    *room -= graph.edge_count();
    Ok(Some(Arc::new(alloc, graph)?))
}

/// The graphs of a type, as long as there is room for their edges, by the graphs of the types before it.
fn graphs_of(
    alloc: Global,
    kinds: &[TypeParts],
    graphs: &[TypeGraphs],
    kind: &TypeParts,
    room: &mut usize,
) -> Result<TypeGraphs, NoMemory>
    requires listed { IsListed kind.now }
    requires rule { IsRule kind.now.rule }
    requires graphs { AreGraphs kinds.now graphs.now }
    ensures { IfOk result (λ of. AreGraphsOf kind.now of) }
{
    let mut list = Vec::new(alloc);
    let low = kind.len_min;
    let high = kind.len_max + 1;
    for len in low..high {
        let Some(graph) = graph_within(alloc, kinds, graphs, &kind.rule, len, room)? else {
            return Ok(TypeGraphs { list });
        };
        list.push(graph)?;
    }
    Ok(TypeGraphs { list })
}

/// The graphs of the types, by type.
pub fn type_graphs(alloc: Global, kinds: &[TypeParts]) -> Result<Vec<TypeGraphs>, NoMemory>
    requires listed { All IsListed kinds.now }
    requires rules { All (λ k. IsRule k.rule) kinds.now }
    ensures { IfOk result (λ graphs. AreGraphs kinds.now graphs.items) }
{
    let mut room = EDGES_KEPT;
    let mut graphs = Vec::new(alloc);
    for kind in kinds {
        let of = graphs_of(alloc, kinds, &graphs, kind, &mut room)?;
        graphs.push(of)?;
    }
    Ok(graphs)
}
