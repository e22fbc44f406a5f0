//! What stands in a row of a table of layers: a number, or one for each of some days side by side.

ghost use Rattle.std.specs.Prelude.{◌≡◌, ◌≢◌, ◌+ℤ◌, ◌-ℤ◌, ◌<◌, ℕ, ℤ, pos, FitsSigned, length};
ghost use Rattle.std.specs.Int.{w64, int_max};
ghost use Rattle.price_sums.specs.Along.{sum_at};

use crate::windows::NOTHING;
use price_sums::{LANES, Lane, raise_lane};

/// The sum of a value and a sum of prices, and [`NOTHING`] where that is the value.
pub(crate) fn plus(value: i64, sum: i64) -> i64
    ensures nothing { value ≡ NOTHING → result ≡ NOTHING }
    ensures total { value ≢ NOTHING → FitsSigned w64 (value +ℤ sum) → result ≡ value +ℤ sum }
{
    if value == NOTHING {
        NOTHING
    } else {
        value.wrapping_add(sum)
    }
}

/// The difference of a value and a sum of prices, and [`NOTHING`] where that is the value.
fn less(value: i64, sum: i64) -> i64
    ensures nothing { value ≡ NOTHING → result ≡ NOTHING }
    ensures difference { value ≢ NOTHING → FitsSigned w64 (value -ℤ sum) → result ≡ value -ℤ sum }
{
    if value == NOTHING {
        NOTHING
    } else {
        value.wrapping_sub(sum)
    }
}

/// A number for each of some days.
pub(crate) trait Number: Copy {
    ghost days: { ℕ };

    ghost on: { ℕ → Self → ℤ };

    /// What stands where nothing is to be earned on any day.
    fn nothing() -> Self
        ensures { (day : ℕ) → day < days → on day result ≡ NOTHING };

    /// Nought on each day.
    fn zero() -> Self
        ensures { (day : ℕ) → day < days → on day result ≡ pos 0 };

    /// The sums of values and sums of prices, and [`NOTHING`] where that is the value.
    fn with(&self, sum: &Self) -> Self
        ensures nothing { (day : ℕ) → day < days → on day self.now ≡ NOTHING → on day result ≡ NOTHING }
        ensures total { (day : ℕ) → day < days → on day self.now ≢ NOTHING → FitsSigned w64 (on day self.now +ℤ on day sum.now) → on day result ≡ on day self.now +ℤ on day sum.now };

    /// The differences of values and sums of prices, and [`NOTHING`] where that is the value.
    fn without(&self, sum: &Self) -> Self
        ensures nothing { (day : ℕ) → day < days → on day self.now ≡ NOTHING → on day result ≡ NOTHING }
        ensures difference { (day : ℕ) → day < days → on day self.now ≢ NOTHING → FitsSigned w64 (on day self.now -ℤ on day sum.now) → on day result ≡ on day self.now -ℤ on day sum.now };

    /// Raises the number of each day to another.
    fn raise(&mut self, other: &Self)
        ensures { (day : ℕ) → day < days → on day self.new ≡ int_max (on day self.old) (on day other.now) };
}

impl Number for i64 {
    ghost days = { 1 };

    ghost on = { λ day number. number };

    fn nothing() -> i64 {
        NOTHING
    }

    fn zero() -> i64 {
        0
    }

    fn with(&self, sum: &i64) -> i64 {
        plus(*self, *sum)
    }

    fn without(&self, sum: &i64) -> i64 {
        less(*self, *sum)
    }

    fn raise(&mut self, other: &i64) {
        *self = (*self).max(*other);
    }
}

impl Number for Lane {
    ghost days = { 8 };

    ghost on = { λ day lane. sum_at lane day };

    fn nothing() -> Lane {
        [NOTHING; LANES]
    }

    fn zero() -> Lane {
        [0; LANES]
    }

    fn with(&self, sum: &Lane) -> Lane {
        let mut total = *self;
        for k in 0..LANES {
            total[k] = plus(self[k], sum[k]);
        }
        total
    }

    fn without(&self, sum: &Lane) -> Lane {
        let mut rest = *self;
        for k in 0..LANES {
            rest[k] = less(self[k], sum[k]);
        }
        rest
    }

    fn raise(&mut self, other: &Lane) {
        raise_lane(self, other);
    }
}
