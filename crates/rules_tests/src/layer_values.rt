//! What rests earn by layers of spots, against a table by the next breaks of each spot, and worked out by hand.
ghost use Rattle.std.specs.Prelude.{◌≡◌, ◌≤◌, IfOk};
ghost use Rattle.std.specs.Int.RustNames.{unsigned_abs};
ghost use Rattle.break_rules.specs.Ranges.{IsRule};
ghost use Rattle.price_sums.specs.Along.{AreSums};
ghost use Rattle.price_sums.specs.Days.{sums_on};

use crate::small_rules::{eighth, judge, short};
use break_layers::{LayerValues, most_by_lane};
use break_rules::{
    Break, Breaks, Lunch, Lunches, NoMemory, Rule, Spot, Totals, after, ends, nexts, place, spot_at,
};
use price_sums::{Lane, resumption, sum_before};
use std::alloc::Global;
use std::process::Abort;
use std::test::Fail;

/// What the rests earn at most from a spot, by those of later spots.
fn value_by_nexts(
    rule: &Rule,
    len: u16,
    sums: &[i64],
    spot: Spot,
    later: &[Option<i64>],
) -> Option<i64>
    requires { IsRule rule.now }
{
    let from = sum_before(sums, resumption(rule, spot));
    if ends(rule, len, spot) {
        return Some(sum_before(sums, usize::from(len)).wrapping_sub(from));
    }
    let mut most = None;
    for next in nexts(rule, len, spot) {
        let behind = place(len, after(rule, spot, next));
        if let Some(Some(value)) = later.get(behind) {
            let before = sum_before(sums, usize::from(next.start)).wrapping_sub(from);
            most = most.max(Some(value.wrapping_add(before)));
        }
    }
    most
}

/// The same for each spot, by place.
fn values_by_nexts(
    alloc: Global,
    rule: &Rule,
    len: u16,
    sums: &[i64],
) -> Result<Vec<Option<i64>>, NoMemory>
    requires { IsRule rule.now }
{
    let mut values = Vec::new(alloc);
    for place in 0..256 * (usize::from(len) + 1) {
        let value = value_by_nexts(rule, len, sums, spot_at(len, place), &values);
        values.push(value)?;
    }
    Ok(values)
}

/// Marks a place.
fn mark(found: &mut [bool], at: usize) {
    if let Some(marked) = found.get_mut(at) {
        *marked = true;
    }
}

/// Marks the places of the spots to which one break leads.
fn mark_nexts(rule: &Rule, len: u16, spot: Spot, found: &mut [bool])
    requires { IsRule rule.now }
{
    for next in nexts(rule, len, spot) {
        mark(found, place(len, after(rule, spot, next)));
    }
}

/// Which spots a walk reaches, by place.
fn reached(alloc: Global, rule: &Rule, len: u16) -> Result<Vec<bool>, NoMemory>
    requires { IsRule rule.now }
{
    let count = 256 * (usize::from(len) + 1);
    let mut found = vec![in alloc; false; count]?;
    mark(&mut found, place(len, Spot::opening()));
    for at in (0..count).rev() {
        if found.get(at) == Some(&true) {
            mark_nexts(rule, len, spot_at(len, at), &mut found);
        }
    }
    Ok(found)
}

/// The next number of a row that looks as if it were drawn by lot.
fn drawn(state: u64) -> u64 {
    state
        .wrapping_mul(6364136223846793005)
        .wrapping_add(1442695040888963407)
}

/// Prices that look as if they were drawn by lot, from -20,000 to 45,535.
fn drawn_prices(alloc: Global, count: u16, seed: u64) -> Result<Vec<i32>, NoMemory> {
    let mut prices = Vec::new(alloc);
    let mut state = seed;
    for _ in 0..count {
        state = drawn(state);
        prices.push(i32::from((state >> 48) as u16) - 20000)?;
    }
    Ok(prices)
}

/// The price of an offset.
fn price_at(prices: &[i32], offset: u16) -> i64
    ensures { unsigned_abs result ≤ 10000000000 }
{
    i64::from(prices.get(usize::from(offset)).copied().unwrap_or(0))
}

/// The sums of the prices before each offset.
fn sums_of(alloc: Global, len: u16, prices: &[i32]) -> Result<Vec<i64>, NoMemory>
    ensures { IfOk result (λ sums. AreSums len sums.items) }
{
    let mut sums = Vec::new(alloc);
    let mut sum = 0;
    sums.push(0)?;
    for offset in 0..len {
        sum += price_at(prices, offset);
        sums.push(sum)?;
    }
    Ok(sums)
}

/// A rule with breaks of 1 to 5 slots, between work of 3 to 11.
fn many_sizes(alloc: Global, total: u16, resettle: u16) -> Result<Rule, NoMemory> {
    let mut rule = Rule::plain(alloc)?;
    (rule.lead, rule.tail) = (4, 3);
    (rule.work_min, rule.work_max, rule.long_work, rule.long_rest) = (3, 11, 7, 3);
    (rule.size_min, rule.size_max, rule.resettle) = (1, 5, resettle);
    rule.totals = Totals::new(Vec::from_slice(alloc, &[(0, total)])?);
    Ok(rule)
}

/// A lunch of two slots from 20 slots on, between two offsets.
fn lunch(first: u16, last: u16) -> Lunch {
    Lunch {
        from_len: 20,
        size: 2,
        first,
        last,
    }
}

/// The rule with breaks of 1 to 5 slots, and with lunches.
fn with_lunches(
    alloc: Global,
    total: u16,
    resettle: u16,
    lunches: &[Lunch],
) -> Result<Rule, NoMemory> {
    let mut rule = many_sizes(alloc, total, resettle)?;
    rule.lunches = Lunches::new(Vec::from_slice(alloc, lunches)?);
    Ok(rule)
}

/// The values by layers at these prices.
fn layer_values<'a>(
    alloc: Global,
    rule: &'a Rule,
    len: u16,
    prices: &[i32],
) -> Result<LayerValues<'a>, NoMemory>
    requires { IsRule rule.now }
{
    LayerValues::new(alloc, rule, len, sums_of(alloc, len, prices)?)
}

/// Counts the spots that a walk reaches, and those of them whose values are other than is wanted.
fn count_differences(
    values: &LayerValues<'_>,
    len: u16,
    wanted: &[Option<i64>],
    walked: &[bool],
) -> (usize, usize) {
    let mut some = 0usize;
    let mut other = 0usize;
    for at in 0..256 * (usize::from(len) + 1) {
        if walked.get(at) == Some(&true) {
            let value = values.value_at(spot_at(len, at));
            some = some.wrapping_add(1);
            other = other.wrapping_add(usize::from(wanted.get(at) != Some(&value)));
        }
    }
    (some, other)
}

/// The same at these prices, where the values by the next breaks are wanted.
fn differences(
    alloc: Global,
    rule: &Rule,
    len: u16,
    prices: &[i32],
) -> Result<(usize, usize), NoMemory>
    requires { IsRule rule.now }
{
    let wanted = values_by_nexts(alloc, rule, len, &sums_of(alloc, len, prices)?)?;
    let walked = reached(alloc, rule, len)?;
    let values = layer_values(alloc, rule, len, prices)?;
    Ok(count_differences(&values, len, &wanted, &walked))
}

/// The same by a rule with two lunches, at prices drawn by its total of breaks.
fn differences_by(
    rt: &impl Abort,
    alloc: Global,
    total: u16,
    resettle: u16,
    len: u16,
) -> Result<(usize, usize), NoMemory> {
    let rule = with_lunches(alloc, total, resettle, &[lunch(9, 20), lunch(21, 30)])?;
    judge(rt, &rule);
    let prices = drawn_prices(alloc, len, u64::from(total))?;
    differences(alloc, &rule, len, &prices)
}

#[test]
fn values_are_those_by_next_breaks(rt: HostRuntime) -> Result<(), Fail> {
    let alloc = rt.alloc();
    for (total, resettle, len) in [(0, 0, 11), (6, 0, 30), (9, 1, 44)] {
        let (some, other) = differences_by(&rt, alloc, total, resettle, len)?;
        assert!(rt; some > 0);
        assert_eq!(rt; other, 0, "at {len} slots");
    }
    Ok(())
}

/// Whether a best list is one short break, and is worth so much.
fn is_one_break(found: Option<(Breaks, i64)>, start: u16, worth: i64) -> bool {
    found.is_some_and(|best| { best.0.as_slice() == [short(start)].as_slice() && best.1 == worth })
}

/// What a rule's best list in a shift of 8 slots is worth at these prices, and whether it is one short break here, worth so
/// much.
fn best_of_eight(
    alloc: Global,
    rule: &Rule,
    prices: &[i32],
    start: u16,
    worth: i64,
) -> Result<(Option<i64>, bool), NoMemory>
    requires { IsRule rule.now }
{
    let values = layer_values(alloc, rule, 8, prices)?;
    let is_best = is_one_break(values.best_list(alloc)?, start, worth);
    Ok((values.value_at(Spot::opening()), is_best))
}

/// One break of one slot has its place at offsets 2 to 5, and costs least where the price is 1.
#[test]
fn the_best_list_skips_the_lowest_price(rt: HostRuntime) -> Result<(), Fail> {
    let alloc = rt.alloc();
    let rule = eighth(alloc)?;
    judge(&rt, &rule);
    for (prices, start, worth) in [([3, 1, 4, 1, 5, 9, 2, 6], 3, 30), ([1; 8], 2, 7)] {
        let found = best_of_eight(alloc, &rule, &prices, start, worth)?;
        assert_eq!(rt; found, (Some(worth), true));
    }
    Ok(())
}

/// Whether some legal list begins with these breaks, and the best of them is this list.
fn leads_to(
    alloc: Global,
    values: &LayerValues<'_>,
    front: &[Break],
    best: &[Break],
) -> Result<bool, NoMemory> {
    match values.spot_behind(front) {
        Some(spot) => {
            let whole = values.completed(Vec::from_slice(alloc, front)?, spot)?;
            Ok(whole.as_slice() == best)
        }
        None => Ok(false),
    }
}

/// Stops the test where the best list has one break at most, or a beginning of it doesn't lead to it.
fn judge_beginnings(
    rt: &impl Abort,
    alloc: Global,
    values: &LayerValues<'_>,
    best: &[Break],
) -> Result<(), NoMemory> {
    assert!(rt; best.len() > 1);
    for last in 0..best.len() {
        assert!(rt; leads_to(alloc, values, &best[..last + 1], best)?);
    }
    Ok(())
}

/// The same of the best list by these values, also where there is none.
fn judge_best_list(
    rt: &impl Abort,
    alloc: Global,
    values: &LayerValues<'_>,
) -> Result<(), NoMemory> {
    let Some((best, _)) = values.best_list(alloc)? else {
        panic!(rt; "no list is legal");
    };
    judge_beginnings(rt, alloc, values, best.as_slice())
}

/// The values by layers in a shift of 44 slots at drawn prices.
fn drawn_values(alloc: Global, rule: &Rule) -> Result<LayerValues<'_>, NoMemory>
    requires { IsRule rule.now }
{
    layer_values(alloc, rule, 44, &drawn_prices(alloc, 44, 5)?)
}

/// The best list is the best one behind each of its own beginnings, and no legal list begins with a break too near to the end.
#[test]
fn beginnings_of_the_best_list_lead_to_it(rt: HostRuntime) -> Result<(), Fail> {
    let alloc = rt.alloc();
    let rule = many_sizes(alloc, 9, 1)?;
    judge(&rt, &rule);
    let values = drawn_values(alloc, &rule)?;
    assert!(rt; values.spot_behind(&[short(41)]).is_none());
    judge_best_list(&rt, alloc, &values)?;
    Ok(())
}

/// Sums of two days side by side: some sums, and the same with the other sign.
fn two_days(alloc: Global, sums: &[i64]) -> Result<Vec<Lane>, NoMemory>
    ensures { IfOk result (λ lanes. sums_on 0 lanes.items ≡ sums.now) }
{
    let mut lanes = Vec::new(alloc);
    for sum in sums {
        lanes.push([*sum, sum.wrapping_neg(), 0, 0, 0, 0, 0, 0])?;
    }
    Ok(lanes)
}

/// The prices with the other sign.
fn negated(alloc: Global, prices: &[i32]) -> Result<Vec<i32>, NoMemory> {
    let mut others = Vec::new(alloc);
    for price in prices {
        others.push(price.wrapping_neg())?;
    }
    Ok(others)
}

/// What a table of all days has for one of them.
fn number_on(found: Option<Lane>, day: usize) -> Option<i64> {
    match found {
        Some(most) => most.get(day).copied(),
        None => None,
    }
}

/// What the rests earn at most on two days side by side, at these prices and at those with the other sign.
fn most_on_two_days(
    alloc: Global,
    rule: &Rule,
    len: u16,
    prices: &[i32],
    table: &mut Vec<Lane>,
) -> Result<Option<Lane>, NoMemory>
    requires { IsRule rule.now }
{
    let sums = sums_of(alloc, len, prices)?;
    let lanes = two_days(alloc, &sums)?;
    most_by_lane(alloc, rule, len, &lanes, table)
}

/// The same in a shift of 44 slots and then, in the same memory, in one of 11 slots.
fn most_side_by_side(
    alloc: Global,
    rule: &Rule,
    prices: &[i32],
) -> Result<(Option<Lane>, Option<Lane>), NoMemory>
    requires { IsRule rule.now }
{
    let mut table = Vec::new(alloc);
    let found = most_on_two_days(alloc, rule, 44, prices, &mut table)?;
    let few = most_on_two_days(alloc, rule, 11, prices, &mut table)?;
    Ok((found, few))
}

/// What the rests earn at most in a shift of 44 slots on a day alone.
fn most_alone(alloc: Global, rule: &Rule, prices: &[i32]) -> Result<Option<i64>, NoMemory>
    requires { IsRule rule.now }
{
    let values = layer_values(alloc, rule, 44, prices)?;
    Ok(values.value_at(Spot::opening()))
}

/// The same at these prices, and at those with the other sign.
fn most_one_by_one(
    alloc: Global,
    rule: &Rule,
    prices: &[i32],
) -> Result<(Option<i64>, Option<i64>), NoMemory>
    requires { IsRule rule.now }
{
    let first = most_alone(alloc, rule, prices)?;
    let second = most_alone(alloc, rule, &negated(alloc, prices)?)?;
    Ok((first, second))
}

/// Stops the test where a day's value side by side isn't that of the day alone, or some list is legal in 11 slots.
fn judge_days(rt: &impl Abort, alloc: Global, rule: &Rule, prices: &[i32]) -> Result<(), NoMemory>
    requires { IsRule rule.now }
{
    let (first, second) = most_one_by_one(alloc, rule, prices)?;
    let (found, few) = most_side_by_side(alloc, rule, prices)?;
    assert!(rt; first.is_some() && few.is_none());
    assert_eq!(rt; (number_on(found, 0), number_on(found, 1)), (first, second));
    Ok(())
}

/// The value of each day is that of the day alone, and memory that was used for it serves where no list is legal.
#[test]
fn days_are_valued_side_by_side(rt: HostRuntime) -> Result<(), Fail> {
    let alloc = rt.alloc();
    let rule = with_lunches(alloc, 9, 1, &[lunch(9, 20)])?;
    judge(&rt, &rule);
    judge_days(&rt, alloc, &rule, &drawn_prices(alloc, 44, 7)?)?;
    Ok(())
}
