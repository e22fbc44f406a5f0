//! The best rest of a list, one break after another.

ghost use Rattle.std.specs.Prelude.{◌≡◌, ◌+ℤ◌, ℤ, List, IfOk, IsTrue, MatchOption, true, false};
ghost use Rattle.break_rules.specs.declared.Break.{Break};
ghost use Rattle.break_rules.specs.Breaks.{is_legal, is_live};
ghost use Rattle.break_rules.specs.Ranges.{IsRule};
ghost use Rattle.break_rules.specs.Walk.{is_walk, nexts_of, spot_of, end_of_all};
ghost use Rattle.break_rules.specs.Lists.{Has};
ghost use Rattle.price_sums.specs.Along.{AreSums, sum_at, resumes};
ghost use Rattle.break_layers.specs.Rests.{IsMostEarned, IsBestFrom, IsBestList, LeadsOn};
ghost use Rattle.break_layers.specs.Layered.{AreLayers, IsReachBy};

use crate::layers::{number_of, value_in};
use crate::numbers::plus;
use break_rules::{Break, Breaks, NoMemory, Rule, Spot, after, nexts};
use price_sums::{resumption, sum_before};
use std::alloc::Global;

/// What a break reaches that may come next at a spot.
fn reach_at(rule: &Rule, len: u16, sums: &[i64], table: &[i64], spot: Spot, next: Break) -> i64
    requires rule { IsRule rule.now }
    requires sums { AreSums len sums.now }
    requires layers { AreLayers rule.now len sums.now table.now }
    ensures { (list : List Break) → IsTrue (is_walk rule.now len list) → spot ≡ spot_of rule.now list → Has (nexts_of rule.now len spot) next → IsReachBy rule.now len sums.now list next result }
{
    plus(
        number_of(rule, len, table, after(rule, spot, next)),
        sum_before(sums, usize::from(next.start)),
    )
}

/// The first break that may come next at a spot and that reaches as much as a best rest.
fn first_reaching(
    rule: &Rule,
    len: u16,
    sums: &[i64],
    table: &[i64],
    spot: Spot,
    whole: i64,
) -> Option<Break>
    requires rule { IsRule rule.now }
    requires sums { AreSums len sums.now }
    requires layers { AreLayers rule.now len sums.now table.now }
    ensures { (list : List Break) (value : ℤ) → IsTrue (is_walk rule.now len list) → spot ≡ spot_of rule.now list → IsMostEarned rule.now len sums.now list value → whole ≡ value +ℤ sum_at sums.now (resumes rule.now (end_of_all list)) → MatchOption result (is_legal rule.now len list ≡ true) (LeadsOn rule.now len sums.now list) }
{
    for next in nexts(rule, len, spot) {
        if reach_at(rule, len, sums, table, spot, next) == whole {
            return Some(next);
        }
    }
    None
}

/// The first break with which the best rests go on from the spot of a list with which some legal list begins, and `None`
/// where the list is legal.
fn next_best(rule: &Rule, len: u16, sums: &[i64], table: &[i64], spot: Spot) -> Option<Break>
    requires rule { IsRule rule.now }
    requires sums { AreSums len sums.now }
    requires layers { AreLayers rule.now len sums.now table.now }
    ensures { (list : List Break) → is_live rule.now len list ≡ true → spot ≡ spot_of rule.now list → MatchOption result (is_legal rule.now len list ≡ true) (LeadsOn rule.now len sums.now list) }
{
    let value = number_of(rule, len, table, spot);
    let before = sum_before(sums, resumption(rule, spot));
    first_reaching(rule, len, sums, table, spot, plus(value, before))
}

/// Adds to breaks with which some legal list begins a best rest.
pub(crate) fn completed(
    rule: &Rule,
    len: u16,
    sums: &[i64],
    table: &[i64],
    list: Vec<Break>,
    spot: Spot,
) -> Result<Vec<Break>, NoMemory>
    requires rule { IsRule rule.now }
    requires sums { AreSums len sums.now }
    requires layers { AreLayers rule.now len sums.now table.now }
    requires live { is_live rule.now len list.items ≡ true }
    requires spot { spot ≡ spot_of rule.now list.items }
    ensures { IfOk result (λ whole. IsBestFrom rule.now len sums.now list.items whole.items) }
{
    let mut whole = list;
    let mut at = spot;
    while let Some(next) = next_best(rule, len, sums, table, at) {
        whole.push(next)?;
        at = after(rule, at, next);
    }
    Ok(whole)
}

/// The legal list that earns most, with what it earns.
pub(crate) fn best_list(
    alloc: Global,
    rule: &Rule,
    len: u16,
    sums: &[i64],
    table: &[i64],
) -> Result<Option<(Breaks, i64)>, NoMemory>
    requires rule { IsRule rule.now }
    requires sums { AreSums len sums.now }
    requires layers { AreLayers rule.now len sums.now table.now }
    ensures { IfOk result (λ found. MatchOption found ((list : List Break) → is_legal rule.now len list ≡ false) (IsBestList rule.now len sums.now)) }
{
    let opening = Spot::opening();
    match value_in(rule, len, table, opening) {
        Some(value) => {
            let list = completed(rule, len, sums, table, Vec::new(alloc), opening)?;
            Ok(Some((Breaks::new(list), value)))
        }
        None => Ok(None),
    }
}
