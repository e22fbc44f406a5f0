//! What the best duties of a shift earn, day by day, at the prices of slots alone.

ghost use Rattle.std.specs.Prelude.{◌≡◌, ◌<◌, List, IfOk, IsSomeAnd, MatchOption, length, false, slice_get};
ghost use Rattle.break_rules.specs.declared.Break.{Break};
ghost use Rattle.break_graph.specs.Graph.{IsGraph};
ghost use Rattle.shift_instance.specs.Problem.{shift_list};
ghost use Rattle.shift_instance.specs.Rota.{is_list_of};
ghost use Rattle.pricing.specs.Days.{AreMostByDay};

use crate::day_values::set_values_by_day;
use crate::layered_days::most_by_layers;
use break_graph::Graph;
use break_rules::NoMemory;
use price_sums::{DaySums, Lane, lane_at};
use shift_instance::Instance;
use std::alloc::Global;

/// How many edges a graph has at most by which a shift is valued. A walk along a graph takes a time in the order of its edges, and
/// layers take one in the order of the spots times the lengths of breaks, which grows more slowly: behind a spot there is an edge for
/// each length and each work period, so that layers cost less where there are many of both.
const MOST_EDGES_WALKED: usize = 1 << 15;

/// The graph by which a shift is valued: the one that the instance keeps, unless it has so many edges that layers cost less.
pub fn walked_graph(instance: &Instance, shift: u16) -> Option<&Graph>
    requires { shift < length (shift_list instance.now) }
    ensures { MatchOption result Unit (λ g. IsSomeAnd (slice_get (shift_list instance.now) shift) (λ x. IsGraph x.1 x.0.len g.now)) }
{
    let kept = instance.graph(shift)?;
    if kept.edge_count() <= MOST_EDGES_WALKED {
        Some(kept)
    } else {
        None
    }
}

/// What the best duties of a shift earn, day by day, by the nodes of its graph and the sums of the prices along it, and
/// `None` where no list is legal.
fn most_over(
    instance: &Instance,
    graph: &Graph,
    shift: u16,
    sums: &DaySums,
    lanes: &mut Vec<Lane>,
) -> Result<Option<Lane>, NoMemory>
    requires shift { shift < length (shift_list instance.now) }
    requires graph { IsSomeAnd (slice_get (shift_list instance.now) shift) (λ x. IsGraph x.1 x.0.len graph.now) }
    requires sums { sums.now.instance ≡ instance.now }
    ensures { IfOk result (λ found. MatchOption found ((list : List Break) → is_list_of instance.now shift list ≡ false) (λ most. AreMostByDay instance.now shift sums.now.prices instance.now.days most)) }
{
    let Some(opening) = graph.node_count().checked_sub(1) else {
        return Ok(None);
    };
    let len = instance.shift(shift).len;
    let sums = sums.along(instance, shift);
    set_values_by_day(instance.rule_of(shift), len, graph, sums, lanes)?;
    Ok(Some(*lane_at(lanes, opening)))
}

/// What the best duties of a shift earn at the prices that the sums are of, one value for each day: the greatest price of the
/// slots in which a duty with a legal break list works. `None` where no list is legal. All days are priced side by side, without
/// making a list: in one walk along the shift's graph, or, where the instance keeps no graph of the shift or one of very many edges,
/// by layers of spots. The values of nodes or spots are found in the memory of `lanes`, whatever stood there.
pub fn most_by_day(
    alloc: Global,
    instance: &Instance,
    shift: u16,
    sums: &DaySums,
    lanes: &mut Vec<Lane>,
) -> Result<Option<Lane>, NoMemory>
    requires shift { shift < length (shift_list instance.now) }
    requires sums { sums.now.instance ≡ instance.now }
    ensures { IfOk result (λ found. MatchOption found ((list : List Break) → is_list_of instance.now shift list ≡ false) (λ most. AreMostByDay instance.now shift sums.now.prices instance.now.days most)) }
{
    match walked_graph(instance, shift) {
        Some(graph) => most_over(instance, graph, shift, sums, lanes),
        None => most_by_layers(alloc, instance, shift, sums, lanes),
    }
}
