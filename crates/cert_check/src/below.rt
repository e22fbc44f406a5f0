//! The most that a duty of a shift on a day is worth at the prices of slots and cuts.

ghost use Rattle.std.specs.Prelude.{◌≡◌, ◌+ℤ◌, ◌<◌, ◌≤◌, ◌+◌, ◌^◌, ◌++◌, ◌∷◌, [], ℕ, ◌-ℤ◌, length, slice_index, IfOk, FitsSigned};
ghost use Rattle.std.specs.Int.{w64};
ghost use Rattle.std.specs.Int.RustNames.{unsigned_abs};
ghost use Rattle.break_rules.specs.declared.Break.{Break};
ghost use Rattle.break_rules.specs.Ranges.{IsRule};
ghost use Rattle.head_splits.specs.Bound.{bonus, signed_price};
ghost use Rattle.price_sums.specs.Along.{sum_at, AreSums, Completes};
ghost use Rattle.price_sums.specs.Days.{sums_on};
ghost use Rattle.cert_check.specs.Rests.{IsGreatest, greater_of};
ghost use Rattle.cert_check.specs.Below.{bonuses, duty_with, goes_further, is_further, whole_worth};

use crate::walks::Walk;
use bound_sums::signed_price;
use break_rules::{Break, NoMemory, Rule};
use head_splits::Cut;
use price_sums::{Lane, lane_at, resumption};
use std::alloc::Global;

/// The cuts of a node with their prices, and the shift and day whose duties are looked at.
#[derive(Drop)]
pub struct Duties<'a> {
    /// The cuts, from the root on.
    pub cuts: &'a [Cut],
    /// The price of each cut.
    pub prices: &'a [u64],
    /// The number of the shift.
    pub shift: u16,
    /// The day.
    pub day: u8,
}

/// The shifts of a rule and a length, and the prices of their work.
#[derive(Drop)]
pub struct PricedWork<'a> {
    /// The break rule of the shift.
    pub rule: &'a Rule,
    /// The length of the shift, in slots.
    pub len: u16,
    /// The sums of the prices of the shift's first offsets, on all days side by side.
    pub sums: &'a [Lane],
}

/// What a cut with its price adds to a duty.
fn bonus(cut: &Cut, price: u64, shift: u16, day: u8, list: &[Break]) -> i128
    requires { price ≤ 1000000000000 }
    ensures bonus { result ≡ bonus (duty_with shift day list.now) (cut.now, price) }
    ensures small { unsigned_abs result ≤ 1000000000000 }
{
    let class = &cut.class;
    let prefix = class.prefix.as_slice();
    if !prefix.is_empty() && shift == class.shift && day == class.day && list.starts_with(prefix) {
        i128::from(signed_price(cut.side, price))
    } else {
        0
    }
}

/// What all cuts add to a duty, which is nothing where it has no break: each prefix that adds something has one.
fn bonuses(duties: &Duties<'_>, list: &[Break]) -> i128
    requires count { length duties.now.prices.now ≡ length duties.now.cuts.now }
    requires few { length duties.now.cuts.now ≤ 2 ^ 33 }
    requires small { (k : ℕ) → slice_index duties.now.prices.now k ≤ 1000000000000 }
    ensures bonuses { result ≡ bonuses duties.now.cuts.now duties.now.prices.now (duty_with duties.now.shift duties.now.day list.now) }
    ensures small { unsigned_abs result ≤ 2 ^ 73 }
{
    if list.is_empty() {
        return 0;
    }
    let mut sum = 0;
    for (k, cut) in duties.cuts.iter().enumerate() {
        sum += bonus(cut, duties.prices[k], duties.shift, duties.day, list);
    }
    sum
}

/// Whether a cut bounds duties of a shift on a day that begin with some breaks and a further one.
fn is_further(cut: &Cut, shift: u16, day: u8, list: &[Break]) -> bool
    ensures { result ≡ is_further shift day list.now cut.now }
{
    let class = &cut.class;
    let prefix = class.prefix.as_slice();
    shift == class.shift
        && day == class.day
        && list.len() < prefix.len()
        && prefix.starts_with(list)
}

/// Whether some cut bounds duties that begin with some breaks and a further one.
fn goes_further(duties: &Duties<'_>, list: &[Break]) -> bool
    ensures { result ≡ goes_further duties.now.cuts.now duties.now.shift duties.now.day list.now }
{
    let shift = duties.shift;
    let day = duties.day;
    duties
        .cuts
        .iter()
        .any(|cut| is_further(cut, shift, day, list))
}

/// Some breaks and one more.
pub fn longer(alloc: Global, list: &[Break], next: Break) -> Result<Vec<Break>, NoMemory>
    ensures { IfOk result (λ longer. longer.items ≡ list.now ++ next ∷ []) }
{
    let mut longer = Vec::with_capacity(alloc, list.len().saturating_add(1))?;
    longer.extend_from_slice(list)?;
    longer.push(next)?;
    Ok(longer)
}

/// The greater of two values, the first of which may be none.
fn greater(best: Option<i128>, value: i128) -> i128
    ensures { result ≡ greater_of best value }
{
    match best {
        Some(best) => best.max(value),
        None => value,
    }
}

/// The number of a day in the lane at a place.
fn number_on(lanes: &[Lane], at: usize, day: u8) -> i64
    requires { day < 8 }
    ensures { result ≡ sum_at (sums_on day lanes.now) at }
{
    lane_at(lanes, at)[usize::from(day)]
}

/// The sum of the prices of a stretch of work on a day.
fn stretch_on(sums: &[Lane], from: usize, to: usize, day: u8) -> i64
    requires { day < 8 }
    ensures { FitsSigned w64 (sum_at (sums_on day sums.now) to -ℤ sum_at (sums_on day sums.now) from) → result ≡ sum_at (sums_on day sums.now) to -ℤ sum_at (sums_on day sums.now) from }
{
    number_on(sums, to, day).wrapping_sub(number_on(sums, from, day))
}

/// What a stretch of work earns, and what is had beside it.
fn earned_and(earned: i64, other: i128) -> i128
    requires { unsigned_abs other ≤ 2 ^ 74 }
    ensures { result ≡ earned +ℤ other }
{
    i128::from(earned) + other
}

/// The most that a duty is worth whose breaks are a legal list that begins with some breaks, which stand at a place of a walk:
/// what it earns behind them, and what all cuts add.
pub fn best_below<W: Walk>(
    alloc: Global,
    duties: &Duties<'_>,
    work: &PricedWork<'_>,
    walk: &W,
    list: &[Break],
    place: W::Place,
) -> Result<i128, NoMemory>
    requires rule { IsRule work.now.rule.now }
    requires day { duties.now.day < 8 }
    requires sums { AreSums work.now.len (sums_on duties.now.day work.now.sums.now) }
    requires count { length duties.now.prices.now ≡ length duties.now.cuts.now }
    requires few { length duties.now.cuts.now ≤ 2 ^ 33 }
    requires small { (k : ℕ) → slice_index duties.now.prices.now k ≤ 1000000000000 }
    requires stands { W.stands walk.now work.now.rule.now work.now.len (sums_on duties.now.day work.now.sums.now) place list.now }
    ensures greatest { IfOk result (λ v. IsGreatest (Completes work.now.rule.now work.now.len list.now) (whole_worth duties.now.cuts.now duties.now.prices.now duties.now.shift duties.now.day (sums_on duties.now.day work.now.sums.now) work.now.rule.now work.now.len list.now) v) }
    ensures size { IfOk result (λ v. unsigned_abs v ≤ 2 ^ 74) }
{
    let day = duties.day;
    let alone = earned_and(walk.value(place), bonuses(duties, list));
    if !goes_further(duties, list) {
        return Ok(alone);
    }
    let from = resumption(work.rule, walk.spot(place));
    let ways = walk.ways(alloc, place)?;
    let mut best = None;
    for way in ways.as_slice() {
        let longer = longer(alloc, list, way.0)?;
        let behind = best_below(alloc, duties, work, walk, &longer, way.1)?;
        let before = stretch_on(work.sums, from, usize::from(way.0.start), day);
        best = Some(greater(best, earned_and(before, behind)));
    }
    match best {
        Some(value) => Ok(value),
        None => Ok(alone),
    }
}
