//! What a shift adds to the total of a price set.
ghost use Rattle.std.specs.Prelude.{◌≡◌, ◌≤◌, ◌<◌, ◌^◌, ◌==◌, ◌||◌, nat_lt, pos, ◌*ℤ◌, ◌-ℤ◌, if◌then◌else◌};
ghost use Rattle.std.specs.List.{list_any};
ghost use Rattle.std.specs.Int.{int_max, int_min};
ghost use Rattle.std.specs.Int.RustNames.{unsigned_abs};
ghost use Rattle.head_splits.specs.Bound.{term};
ghost use Rattle.head_splits.specs.Cuts.{high, low, whole_class};
ghost use Rattle.bound_sums.specs.Values.{AreValues};

use head_splits::{Cuts, Prices, whole_range};
use price_sums::LANES;
use shift_instance::Instance;

/// What so many duties of one value are worth.
fn times(value: i128, count: u16) -> i128
    requires { unsigned_abs value ≤ 2 ^ 74 }
    ensures worth { result ≡ value *ℤ pos count }
    ensures small { unsigned_abs result ≤ 2 ^ 90 }
{
    value * i128::from(count)
}

/// The most that duties of one value are worth, where their number is within a range.
fn ranged_value(value: i128, low: u16, high: u16) -> i128
    requires { unsigned_abs value ≤ 2 ^ 74 }
    ensures value { result ≡ int_max (value *ℤ pos low) (value *ℤ pos high) }
    ensures small { unsigned_abs result ≤ 2 ^ 90 }
{
    times(value, low).max(times(value, high))
}

/// The most that duties of one value are worth, where there may be none.
fn free_value(value: i128, high: u16) -> i128
    requires { unsigned_abs value ≤ 2 ^ 74 }
    ensures value { result ≡ int_max (pos 0) (value *ℤ pos high) }
    ensures small { unsigned_abs result ≤ 2 ^ 90 }
{
    times(value, high).max(0)
}

/// Whether some day needs a duty, by the least number of duties of one more day.
fn needs_duty(is_forced: bool, low: u16) -> bool
    ensures { result ≡ (is_forced || nat_lt 0 low) }
{
    is_forced || 0 < low
}

/// Whether some cut bounds duties of a shift.
fn has_cut(cuts: &Cuts, shift: u16) -> bool
    ensures { result ≡ list_any (λ c. c.class.shift == shift) cuts.now }
{
    cuts.as_slice().iter().any(|cut| cut.class.shift == shift)
}

/// The least and the greatest number of all duties of a shift on a day that cuts leave, by whether one of them bounds duties of the
/// shift at all.
fn range_on(instance: &Instance, cuts: &Cuts, is_cut: bool, shift: u16, day: u8) -> (u16, u16)
    requires cut { is_cut ≡ list_any (λ c. c.class.shift == shift) cuts.now }
    ensures low { result.0 ≡ low cuts.now (whole_class shift day) }
    ensures high { result.1 ≡ high instance.now cuts.now (whole_class shift day) }
{
    if is_cut {
        whole_range(instance, cuts, shift, day)
    } else {
        (0, instance.heads())
    }
}

/// What a used shift costs at a scale, less what its duties are worth; where the shift may stay unused, no more than 0.
fn term_of(paid: u64, is_forced: bool, ranged: i128, free: i128) -> i128
    requires ranged { unsigned_abs ranged ≤ 2 ^ 93 }
    requires free { unsigned_abs free ≤ 2 ^ 93 }
    ensures term { result ≡ (if is_forced then pos paid -ℤ ranged else int_min (pos 0) (pos paid -ℤ free)) }
    ensures small { unsigned_abs result ≤ 2 ^ 94 }
{
    if is_forced {
        i128::from(paid) - ranged
    } else {
        (i128::from(paid) - free).min(0)
    }
}

/// The term of a shift with a legal list, by the values of its days: the greatest reduced values of its duties on each.
pub(crate) fn term(
    instance: &Instance,
    cuts: &Cuts,
    prices: &Prices,
    shift: u16,
    values: &[i128; LANES],
) -> i128
    requires values { AreValues instance.now cuts.now prices.now shift instance.now.days values.now }
    ensures term { result ≡ term instance.now cuts.now prices.now shift }
    ensures small { unsigned_abs result ≤ 2 ^ 94 }
{
    let (_, _, cost) = instance.weights();
    let is_cut = has_cut(cuts, shift);
    let mut is_forced = false;
    let mut ranged = 0;
    let mut free = 0;
    for day in 0..instance.days() {
        let value = values[usize::from(day)];
        let (low, high) = range_on(instance, cuts, is_cut, shift, day);
        is_forced = needs_duty(is_forced, low);
        ranged += ranged_value(value, low, high);
        free += free_value(value, high);
    }
    let paid = u64::from(prices.q) * u64::from(cost);
    term_of(paid, is_forced, ranged, free)
}
