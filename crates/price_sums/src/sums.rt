//! Sums of slot prices along a shift.

ghost use Rattle.std.specs.Prelude.{◌≡◌, ◌+◌, ◌%◌, ◌<◌, length, slice_get, Some, IfOk};
ghost use Rattle.break_rules.specs.declared.Rule.{Rule};
ghost use Rattle.shift_instance.specs.declared.Shift.{Shift};
ghost use Rattle.shift_instance.specs.Problem.{shift_list, slots};
ghost use Rattle.price_sums.specs.Along.{sum_at, resumes, AreSums, ArePricesOf, AreSmallPrices};

use break_rules::{NoMemory, Rule, Spot};
use shift_instance::Instance;
use std::alloc::Global;

/// The slot after one, the first after the last.
fn next_slot(slot: usize, slots: usize) -> usize
    requires { slot < slots }
    ensures { result ≡ (slot + 1) % slots }
{
    if slot + 1 == slots { 0 } else { slot + 1 }
}

/// The sums of the prices of a shift's first offsets on a day: that of none, that of the first, that of the first two, and
/// so on to that of all.
pub fn price_sums(
    alloc: Global,
    instance: &Instance,
    shift: u16,
    day: u8,
    prices: &[i64],
) -> Result<Vec<i64>, NoMemory>
    requires shift { shift < length (shift_list instance.now) }
    requires count { length prices.now ≡ slots instance.now }
    requires prices { AreSmallPrices prices.now }
    ensures prices { IfOk result (λ sums. (x : Shift × Rule) → slice_get (shift_list instance.now) shift ≡ Some x → ArePricesOf instance.now x.0 day prices.now sums.items) }
    ensures small { IfOk result (λ sums. (x : Shift × Rule) → slice_get (shift_list instance.now) shift ≡ Some x → AreSums x.0.len sums.items) }
{
    let len = instance.shift(shift).len;
    let mut sums = Vec::with_capacity(alloc, usize::from(len) + 1)?;
    let mut sum = 0;
    sums.push(0)?;
    let mut slot = instance.slot_of(shift, day, 0);
    for _ in 0..len {
        sum += prices[slot];
        sums.push(sum)?;
        slot = next_slot(slot, prices.len());
    }
    Ok(sums)
}

/// The sum of the prices of the offsets before one.
pub fn sum_before(sums: &[i64], offset: usize) -> i64
    ensures { result ≡ sum_at sums.now offset }
{
    sums.get(offset).copied().unwrap_or(0)
}

/// The first offset that counts as work behind a spot.
pub fn resumption(rule: &Rule, spot: Spot) -> usize
    ensures { result ≡ resumes rule.now spot.offset }
{
    if spot.offset == 0 {
        0
    } else {
        usize::from(spot.offset) + usize::from(rule.resettle)
    }
}
