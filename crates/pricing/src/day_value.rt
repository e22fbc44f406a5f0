//! What the best duty of a shift earns on one day, at the prices of slots alone.

ghost use Rattle.std.specs.Prelude.{◌≡◌, ◌<◌, List, [], IfOk, IfSome, MatchOption, length, false};
ghost use Rattle.break_rules.specs.declared.Break.{Break};
ghost use Rattle.break_rules.specs.Breaks.{is_legal};
ghost use Rattle.break_rules.specs.Ranges.{IsRule};
ghost use Rattle.break_graph.specs.Graph.{IsGraph};
ghost use Rattle.shift_instance.specs.Problem.{shift_list};
ghost use Rattle.shift_instance.specs.Rota.{is_list_of};
ghost use Rattle.price_sums.specs.Along.{AreSums};
ghost use Rattle.pricing.specs.Days.{IsMostOn};
ghost use Rattle.pricing.specs.Values.{IsValue};

use crate::days::walked_graph;
use crate::layered_days::{most_of_lists, sums_of_day};
use crate::values::node_values;
use break_graph::Graph;
use break_rules::{NoMemory, Rule};
use price_sums::{DaySums, sum_before};
use shift_instance::Instance;
use std::alloc::Global;

/// What the best list for a rule and a length earns by sums of prices, by the nodes of their graph, and `None` where no list is
/// legal.
fn most_by_nodes(
    alloc: Global,
    rule: &Rule,
    len: u16,
    graph: &Graph,
    sums: &[i64],
) -> Result<Option<i64>, NoMemory>
    requires rule { IsRule rule.now }
    requires graph { IsGraph rule.now len graph.now }
    requires sums { AreSums len sums.now }
    ensures { IfOk result (λ found. MatchOption found ((list : List Break) → is_legal rule.now len list ≡ false) (IsValue rule.now len sums.now [])) }
{
    let Some(opening) = graph.node_count().checked_sub(1) else {
        return Ok(None);
    };
    let values = node_values(alloc, rule, len, graph, sums)?;
    Ok(Some(sum_before(&values, opening)))
}

/// What the best list for a rule and a length earns by sums of prices: by the nodes of their graph where there is one, and else by
/// layers of spots. `None` where no list is legal.
fn most_by_sums(
    alloc: Global,
    rule: &Rule,
    len: u16,
    graph: Option<&Graph>,
    sums: Vec<i64>,
) -> Result<Option<i64>, NoMemory>
    requires rule { IsRule rule.now }
    requires graph { IfSome graph (λ g. IsGraph rule.now len g.now) }
    requires sums { AreSums len sums.items }
    ensures { IfOk result (λ found. MatchOption found ((list : List Break) → is_legal rule.now len list ≡ false) (IsValue rule.now len sums.items [])) }
{
    if let Some(graph) = graph {
        return most_by_nodes(alloc, rule, len, graph, &sums);
    }
    match most_of_lists(alloc, rule, len, sums)? {
        Some(value) => Ok(Some(value)),
        None => Ok(None),
    }
}

/// What the best duty of a shift earns on a day at the prices that the sums are of: the greatest price of the slots in which a
/// duty with a legal break list works. `None` where no list is legal. No list is made, and no other day is priced. The value is found
/// along the shift's graph, or by layers of spots where the instance keeps none or one of very many edges.
pub fn most_on_day(
    alloc: Global,
    instance: &Instance,
    shift: u16,
    day: u8,
    sums: &DaySums,
) -> Result<Option<i64>, NoMemory>
    requires shift { shift < length (shift_list instance.now) }
    requires day { day < instance.now.days }
    requires sums { sums.now.instance ≡ instance.now }
    ensures { IfOk result (λ found. MatchOption found ((list : List Break) → is_list_of instance.now shift list ≡ false) (IsMostOn instance.now shift day sums.now.prices)) }
{
    let rule = instance.rule_of(shift);
    let len = instance.shift(shift).len;
    let lanes = sums.along(instance, shift);
    let day_sums = sums_of_day(alloc, lanes, usize::from(day))?;
    match most_by_sums(alloc, rule, len, walked_graph(instance, shift), day_sums)? {
        Some(value) => Ok(Some(value)),
        None => Ok(None),
    }
}
