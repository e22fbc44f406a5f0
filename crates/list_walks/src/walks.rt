//! Walks over the legal break lists of a shift.

ghost use Rattle.std.specs.Prelude.{◌≡◌, ◌<◌, List, [], IfOk, IsSomeAnd, MatchOption, false, length, slice_get};
ghost use Rattle.break_rules.specs.declared.Break.{Break};
ghost use Rattle.break_rules.specs.Breaks.{is_live};
ghost use Rattle.shift_instance.specs.Problem.{shift_list};
ghost use Rattle.list_walks.specs.Stands.{Stands, AreWaysOn, StandsLast, IsOpening};

use crate::steps::{Standing, WalkWay, ways_along, ways_to};
use break_graph::Graph;
use break_layers::LayerValues;
use break_rules::{NoMemory, Rule, Spot};
use shift_instance::Instance;
use std::alloc::Global;
use std::marker::Model;

/// By what walks find their way.
#[derive(Drop)]
enum Guide<'a> {
    /// The graph of the spots.
    Graph(&'a Graph),
    /// Layers, which tell the spots from which some legal list goes on.
    Layers(LayerValues<'a>),
}

/// Walks over the legal break lists of a shift, one break after another from the start of the shift. They enter no list with
/// which no legal list begins. Where the instance keeps the graph of the shift they go along its edges, and else by layers, which
/// take far less time to make than a graph.
#[derive(Drop)]
pub struct ListWalks<'a> {
    rule: &'a Rule,
    len: u16,
    guide: Guide<'a>,
}

impl<'a> Model for ListWalks<'a> {
    ghost use Rattle.break_rules.specs.Ranges.{IsRule};
    ghost use Rattle.list_walks.specs.Guides.{nodes_of, Guides};
    ghost use Rattle.list_walks.specs.Stands.{Walks};

    ghost Value = { Walks };

    ghost view = { λ w. record { rule = w.rule.now; len = w.len; nodes = nodes_of w.guide } };

    ghost invariant = { λ w. IsRule w.rule.now × Guides w.rule.now w.len w.guide };
}

/// Where the empty list stands in a graph, and `None` where the graph has no nodes.
fn opening_in(graph: &Graph) -> Option<Standing>
    ensures { MatchOption result (graph.now ≡ []) (λ at. StandsLast graph.now at) }
{
    let last = graph.node_count().checked_sub(1)?;
    Some(Standing {
        spot: Spot::opening(),
        node: last,
    })
}

/// Where the empty list stands by layers, and `None` where no list is legal.
fn opening_by(values: &LayerValues<'_>) -> Option<Standing>
    ensures { MatchOption result (is_live values.now.rule values.now.len [] ≡ false) (λ at. IsOpening values.now.rule values.now.len at) }
{
    let spot = Spot::opening();
    match values.value_at(spot) {
        Some(_) => Some(Standing { spot, node: 0 }),
        None => None,
    }
}

impl<'a> ListWalks<'a> {
    /// Makes the walks of a shift: along the graph that the instance keeps of it, and else by layers. The only refusal is running out
    /// of memory, and only where there is no graph.
    pub fn of_shift(
        alloc: Global,
        instance: &'a Instance,
        shift: u16,
    ) -> Result<ListWalks<'a>, NoMemory>
        requires { shift < length (shift_list instance.now) }
        ensures { IfOk result (λ walks. IsSomeAnd (slice_get (shift_list instance.now) shift) (λ x. (walks.rule ≡ x.1) × (walks.len ≡ x.0.len))) }
    {
        let rule = instance.rule_of(shift);
        let len = instance.shift(shift).len;
        match instance.graph(shift) {
            Some(graph) => Ok(ListWalks {
                rule,
                len,
                guide: Guide::Graph(graph),
            }),
            None => {
                let values = LayerValues::unpriced(alloc, rule, len)?;
                Ok(ListWalks {
                    rule,
                    len,
                    guide: Guide::Layers(values),
                })
            }
        }
    }

    /// Returns where the empty list stands, at the start of the shift, and `None` where no list is legal. It takes no memory.
    pub fn opening(&self) -> Option<Standing>
        ensures { MatchOption result (is_live self.now.rule self.now.len [] ≡ false) (λ at. Stands self.now at []) }
    {
        match &self.guide {
            Guide::Graph(graph) => opening_in(graph),
            Guide::Layers(values) => opening_by(values),
        }
    }

    /// Returns the ways on from where a list stands: the breaks with which some legal list goes on, in rising order, each with
    /// where the list with that break stands. There are none exactly where the list itself is legal. The only refusal is running out
    /// of memory.
    pub fn ways(&self, alloc: Global, at: Standing) -> Result<Vec<WalkWay>, NoMemory>
        requires { (list : List Break) × Stands self.now at list }
        ensures { IfOk result (λ ways. (list : List Break) → Stands self.now at list → AreWaysOn self.now at list ways.items) }
    {
        match &self.guide {
            Guide::Graph(graph) => ways_along(alloc, graph, at.node),
            Guide::Layers(values) => {
                let found = values.ways(alloc, at.spot)?;
                ways_to(alloc, &found)
            }
        }
    }
}
