//! Numbers of several days side by side, which the processor adds, takes from one another and compares several at a time.

ghost use Rattle.std.specs.Prelude.{◌≡◌, ◌+◌, ◌<◌, ◌+ℤ◌, ◌-ℤ◌, ℕ, FitsSigned};
ghost use Rattle.std.specs.Int.{w64, int_max};
ghost use Rattle.price_sums.specs.Along.{sum_at};
ghost use Rattle.price_sums.specs.Days.{sums_on};

use crate::days::{LANES, Lane};

/// The lane that stands where there is none.
static NOTHING: Lane = [0; LANES];

/// Returns the lane that stands at a place of a list, and a lane of zeros where the list ends before that place.
pub fn lane_at(lanes: &[Lane], at: usize) -> &Lane
    ensures { (day : ℕ) → sum_at result.now day ≡ sum_at (sums_on day lanes.now) at }
{
    match lanes.get(at) {
        Some(lane) => lane,
        None => &NOTHING,
    }
}

/// Adds two lanes: for each day, the sum of its two numbers. A sum that an `i64` doesn't hold wraps round, and no other day's
/// number changes by that.
pub fn lane_total(a: &Lane, b: &Lane) -> Lane
    ensures { (day : ℕ) → day < 8 → FitsSigned w64 (sum_at a.now day +ℤ sum_at b.now day) → sum_at result day ≡ sum_at a.now day +ℤ sum_at b.now day }
{
    let mut total = [0; LANES];
    for k in 0..LANES {
        total[k] = a[k].wrapping_add(b[k]);
    }
    total
}

/// Takes a lane from another: for each day, the first number less the second. A difference that an `i64` doesn't hold wraps
/// round, and no other day's number changes by that.
pub fn lane_difference(a: &Lane, b: &Lane) -> Lane
    ensures { (day : ℕ) → day < 8 → FitsSigned w64 (sum_at a.now day -ℤ sum_at b.now day) → sum_at result day ≡ sum_at a.now day -ℤ sum_at b.now day }
{
    let mut less = [0; LANES];
    for k in 0..LANES {
        less[k] = a[k].wrapping_sub(b[k]);
    }
    less
}

/// Raises a lane to another: each day keeps the greater of its two numbers.
pub fn raise_lane(most: &mut Lane, a: &Lane)
    ensures { (day : ℕ) → day < 8 → sum_at most.new day ≡ int_max (sum_at most.old day) (sum_at a.now day) }
{
    for k in 0..LANES {
        most[k] = most[k].max(a[k]);
    }
}
