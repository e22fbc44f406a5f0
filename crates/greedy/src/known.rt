//! The values of shifts on days that are known, and those that are found.
ghost use Rattle.std.specs.Prelude.{◌≡◌, ◌<◌, ℕ, Some, None, IfOk, OnOk, IsFalse, IsTrue, get_or, is_some, length, pos, slice_index_or, ℤ};
ghost use Rattle.shift_instance.specs.Problem.{shift_list};
ghost use Rattle.greedy.specs.Greedy.{day_value};
ghost use Rattle.greedy.specs.Kept.{AreAllKnown, AreKnown};
ghost use Rattle.greedy.specs.Sizes.{ArePrices};
ghost use Rattle.greedy.specs.Values.{AreValuesOf};

use crate::values::day_values;
use break_rules::NoMemory;
use price_sums::{DaySums, LANES, Lane};
use pricing::most_on_day;
use shift_instance::Instance;
use std::alloc::Global;

/// The values of a shift that are known, each at the place of its day.
pub(crate) type KnownDays = [Option<i64>; LANES];

/// The value of a shift on a day at the prices that the sums are of: what a duty with its best list earns, and 0 where no list is
/// legal.
fn value_of_day(
    alloc: Global,
    instance: &Instance,
    sums: &DaySums,
    shift: u16,
    day: u8,
) -> Result<i64, NoMemory>
    requires sums { sums.now.instance ≡ instance.now }
    requires shift { shift < length (shift_list instance.now) }
    requires day { day < instance.now.days }
    ensures { IfOk result (λ value. value ≡ day_value instance.now sums.now.prices shift day) }
{
    match most_on_day(alloc, instance, shift, day, sums)? {
        Some(value) => Ok(value),
        None => Ok(0),
    }
}

/// Finds the values of a shift on the days on which they aren't known.
fn find_unknown(
    alloc: Global,
    instance: &Instance,
    sums: &DaySums,
    shift: u16,
    known: &mut KnownDays,
) -> Result<(), NoMemory>
    requires sums { sums.now.instance ≡ instance.now }
    requires shift { shift < length (shift_list instance.now) }
    requires known { AreKnown instance.now sums.now.prices shift known.old }
    ensures { OnOk result (AreAllKnown instance.now sums.now.prices shift known.new) }
{
    for day in 0..instance.days() {
        if known[usize::from(day)].is_none() {
            let value = value_of_day(alloc, instance, sums, shift, day)?;
            known[usize::from(day)] = Some(value);
        }
    }
    Ok(())
}

/// Whether the value of some day isn't known.
fn has_unknown(instance: &Instance, known: &KnownDays) -> bool
    ensures { IsFalse result → (day : ℕ) → day < instance.now.days → IsTrue (is_some (get_or known.now day None)) }
{
    for day in 0..instance.days() {
        if known[usize::from(day)].is_none() {
            return true;
        }
    }
    false
}

/// Values that are all known.
fn known_days(values: &Lane) -> KnownDays
    ensures { (day : ℕ) → day < 8 → get_or result day None ≡ Some (slice_index_or values.now day (pos 0)) }
{
    let mut known = [None; LANES];
    for day in 0..LANES {
        known[day] = Some(values[day]);
    }
    known
}

/// The values that are known.
fn values_known(known: &KnownDays) -> Lane
    ensures { (day : ℕ) → day < 8 → (value : ℤ) → get_or known.now day None ≡ Some value → slice_index_or result day (pos 0) ≡ value }
{
    let mut values = [0; LANES];
    for day in 0..LANES {
        values[day] = known[day].unwrap_or(0);
    }
    values
}

/// The values of a shift at the prices that the sums are of, one for each day: those that are known, and those that are found,
/// which are known from then on. Where the instance keeps a graph of the shift, all days are valued in one walk, in the memory of the
/// lanes.
pub(crate) fn kept_values(
    alloc: Global,
    instance: &Instance,
    sums: &DaySums,
    shift: u16,
    known: &mut KnownDays,
    lanes: &mut Vec<Lane>,
) -> Result<Lane, NoMemory>
    requires sums { sums.now.instance ≡ instance.now }
    requires prices { ArePrices instance.now sums.now.prices }
    requires shift { shift < length (shift_list instance.now) }
    requires known { AreKnown instance.now sums.now.prices shift known.old }
    ensures values { IfOk result (λ lane. AreValuesOf instance.now sums.now.prices shift lane) }
    ensures known { OnOk result (AreKnown instance.now sums.now.prices shift known.new) }
{
    if instance.graph(shift).is_none() {
        find_unknown(alloc, instance, sums, shift, known)?;
    } else if has_unknown(instance, known) {
        let values = day_values(alloc, instance, sums, shift, lanes)?;
        *known = known_days(&values);
    }
    Ok(values_known(known))
}
