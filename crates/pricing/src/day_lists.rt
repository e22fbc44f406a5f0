//! The best break lists of a shift on all days, at the prices of slots alone.

ghost use Rattle.std.specs.Prelude.{◌≡◌, ◌<◌, ◌≤◌, ℕ, List, [], IfOk, IsSomeAnd, MatchOption, FitsSigned, length, true, false, slice_get};
ghost use Rattle.std.specs.Int.{w64};
ghost use Rattle.break_rules.specs.declared.Break.{Break};
ghost use Rattle.break_rules.specs.Breaks.{is_legal};
ghost use Rattle.break_rules.specs.Lists.{Has};
ghost use Rattle.break_graph.specs.declared.Edge.{Edge};
ghost use Rattle.break_graph.specs.Graph.{IsGraph, StandsAt};
ghost use Rattle.shift_instance.specs.Problem.{shift_list};
ghost use Rattle.shift_instance.specs.Rota.{is_list_of};
ghost use Rattle.price_sums.specs.Along.{sum_at};
ghost use Rattle.price_sums.specs.Days.{sums_on};
ghost use Rattle.pricing.specs.Days.{AreBestByDay, IsBestBy, best_at};
ghost use Rattle.pricing.specs.Values.{AreBestRests, AreFit, IsFirstWith, LeadsOn, reach_of};
ghost use Rattle.break_layers.specs.Rests.{IsBestFrom};

use crate::day_values::set_values_by_day;
use crate::layered_days::bests_by_layers;
use crate::values::total;
use break_graph::{Edge, Graph};
use break_rules::{Break, Breaks, NoMemory, Rule};
use price_sums::{DaySums, Lane, lane_at, resumption};
use shift_instance::Instance;
use std::alloc::Global;

/// A graph for shifts of `len` slots, the sums of the prices of the offsets below each one, and the values of the
/// nodes, all days side by side.
#[derive(Drop)]
struct DayRests<'a> {
    rule: &'a Rule,
    len: u16,
    graph: &'a Graph,
    sums: &'a [Lane],
    values: &'a [Lane],
}

/// The number of a day in the lane at a place, and 0 behind the last.
fn number_on(lanes: &[Lane], at: usize, day: usize) -> i64
    requires { day < 8 }
    ensures { result ≡ sum_at (sums_on day lanes.now) at }
{
    lane_at(lanes, at)[day]
}

/// What an edge reaches on a day.
fn reach_on(sums: &[Lane], values: &[Lane], day: usize, edge: Edge) -> i64
    requires { day < 8 }
    ensures { FitsSigned w64 (reach_of (sums_on day sums.now) (sums_on day values.now) edge) → result ≡ reach_of (sums_on day sums.now) (sums_on day values.now) edge }
{
    total(
        number_on(sums, usize::from(edge.stop.start), day),
        number_on(values, edge.next as usize, day),
    )
}

/// The first of some edges that reaches a sum on a day.
fn first_reaching_on(
    edges: &[Edge],
    whole: i64,
    sums: &[Lane],
    values: &[Lane],
    day: usize,
) -> Option<Edge>
    requires { day < 8 }
    ensures first { AreFit (reach_of (sums_on day sums.now) (sums_on day values.now)) edges.now → MatchOption result ((e : Edge) → Has edges.now e → reach_of (sums_on day sums.now) (sums_on day values.now) e ≡ whole → ⊥) (λ e. (f : IsFirstWith (reach_of (sums_on day sums.now) (sums_on day values.now)) edges.now whole) × (f.edge ≡ e)) }
    ensures has { MatchOption result (Unit {0}) (Has edges.now) }
{
    for next in edges {
        if reach_on(sums, values, day, *next) == whole {
            return Some(*next);
        }
    }
    None
}

/// The first edge of a node that leads on to the best rest on a day, and `None` where the lists that stand there are legal.
fn next_on(rests: &DayRests<'_>, at: usize, day: usize) -> Option<Edge>
    requires day { day < 8 }
    requires at { at < length rests.now.graph.now }
    requires rests { AreBestRests rests.now.rule.now rests.now.len rests.now.graph.now (sums_on day rests.now.sums.now) (sums_on day rests.now.values.now) }
    ensures leads { (list : List Break) → StandsAt rests.now.rule.now rests.now.len rests.now.graph.now at list → MatchOption result (is_legal rests.now.rule.now rests.now.len list ≡ true) (LeadsOn rests.now.rule.now rests.now.len (sums_on day rests.now.sums.now) rests.now.graph.now list) }
    ensures back { MatchOption result (Unit {0}) (λ e. e.next < at) }
{
    let start = number_on(
        rests.sums,
        resumption(rests.rule, rests.graph.spot(at)),
        day,
    );
    let whole = total(number_on(rests.values, at, day), start);
    first_reaching_on(rests.graph.edges(at), whole, rests.sums, rests.values, day)
}

/// The best list on a day, one edge after another from the node where the empty list stands.
fn list_on(
    alloc: Global,
    rests: &DayRests<'_>,
    opening: usize,
    day: usize,
) -> Result<Vec<Break>, NoMemory>
    requires day { day < 8 }
    requires opening { StandsAt rests.now.rule.now rests.now.len rests.now.graph.now opening [] }
    requires rests { AreBestRests rests.now.rule.now rests.now.len rests.now.graph.now (sums_on day rests.now.sums.now) (sums_on day rests.now.values.now) }
    ensures { IfOk result (λ list. IsBestFrom rests.now.rule.now rests.now.len (sums_on day rests.now.sums.now) [] list.items) }
{
    let mut list = Vec::new(alloc);
    let mut at = opening;
    while let Some(edge) = next_on(rests, at, day) {
        list.push(edge.stop)?;
        at = edge.next as usize;
    }
    Ok(list)
}

/// The best list on a day, with what it earns.
fn best_on(
    alloc: Global,
    rests: &DayRests<'_>,
    opening: usize,
    day: usize,
) -> Result<(Breaks, i128), NoMemory>
    requires day { day < 8 }
    requires opening { StandsAt rests.now.rule.now rests.now.len rests.now.graph.now opening [] }
    requires rests { AreBestRests rests.now.rule.now rests.now.len rests.now.graph.now (sums_on day rests.now.sums.now) (sums_on day rests.now.values.now) }
    ensures { IfOk result (IsBestBy rests.now.rule.now rests.now.len (sums_on day rests.now.sums.now)) }
{
    let list = list_on(alloc, rests, opening, day)?;
    let value = i128::from(number_on(rests.values, opening, day));
    Ok((Breaks::new(list), value))
}

/// The best lists on the first days, each with what it earns.
fn bests_on(
    alloc: Global,
    rests: &DayRests<'_>,
    opening: usize,
    days: u8,
) -> Result<Vec<(Breaks, i128)>, NoMemory>
    requires days { days ≤ 8 }
    requires opening { StandsAt rests.now.rule.now rests.now.len rests.now.graph.now opening [] }
    requires rests { (day : ℕ) → day < days → AreBestRests rests.now.rule.now rests.now.len rests.now.graph.now (sums_on day rests.now.sums.now) (sums_on day rests.now.values.now) }
    ensures count { IfOk result (λ bests. length bests.items ≡ days) }
    ensures each { IfOk result (λ bests. (day : ℕ) → day < days → IsBestBy rests.now.rule.now rests.now.len (sums_on day rests.now.sums.now) (best_at bests.items day)) }
{
    let mut bests = Vec::with_capacity(alloc, usize::from(days))?;
    for day in 0..days {
        let best = best_on(alloc, rests, opening, usize::from(day))?;
        bests.push(best)?;
    }
    Ok(bests)
}

/// The best list of a shift on each day, by the nodes of its graph and the sums of the prices along it, and `None` where no list
/// is legal.
fn bests_over(
    alloc: Global,
    instance: &Instance,
    graph: &Graph,
    shift: u16,
    sums: &DaySums,
) -> Result<Option<Vec<(Breaks, i128)>>, NoMemory>
    requires shift { shift < length (shift_list instance.now) }
    requires graph { IsSomeAnd (slice_get (shift_list instance.now) shift) (λ x. IsGraph x.1 x.0.len graph.now) }
    requires sums { sums.now.instance ≡ instance.now }
    ensures { IfOk result (λ found. MatchOption found ((list : List Break) → is_list_of instance.now shift list ≡ false) (λ bests. AreBestByDay instance.now shift sums.now.prices instance.now.days bests.items)) }
{
    let Some(opening) = graph.node_count().checked_sub(1) else {
        return Ok(None);
    };
    let rule = instance.rule_of(shift);
    let len = instance.shift(shift).len;
    let sums = sums.along(instance, shift);
    let mut values = Vec::new(alloc);
    set_values_by_day(rule, len, graph, sums, &mut values)?;
    let rests = DayRests {
        rule,
        len,
        graph,
        sums,
        values: &values,
    };
    let bests = bests_on(alloc, &rests, opening, instance.days())?;
    Ok(Some(bests))
}

/// The best break list of a shift on each day at the prices that the sums are of, with what it earns: the least of the legal
/// lists of greatest price of the slots in which a duty with it works, as [`best_pattern`](crate::best_pattern) finds it without
/// bonuses. `None` where no list is legal. All days are valued in one walk along the shift's graph, and then each list is followed
/// along it; where the instance keeps no graph of the shift, each day is valued by layers of spots.
pub fn best_by_day(
    alloc: Global,
    instance: &Instance,
    shift: u16,
    sums: &DaySums,
) -> Result<Option<Vec<(Breaks, i128)>>, NoMemory>
    requires shift { shift < length (shift_list instance.now) }
    requires sums { sums.now.instance ≡ instance.now }
    ensures { IfOk result (λ found. MatchOption found ((list : List Break) → is_list_of instance.now shift list ≡ false) (λ bests. AreBestByDay instance.now shift sums.now.prices instance.now.days bests.items)) }
{
    match instance.graph(shift) {
        Some(kept) => bests_over(alloc, instance, kept, shift, sums),
        None => bests_by_layers(alloc, instance, shift, sums),
    }
}
