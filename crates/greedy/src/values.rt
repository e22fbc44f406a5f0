//! The values of a shift on all days at slot prices.
ghost use Rattle.std.specs.Prelude.{◌≡◌, ◌<◌, ◌*◌, pos, IfOk, length, slice_index_or};
ghost use Rattle.shift_instance.specs.Problem.{shift_list};
ghost use Rattle.greedy.specs.Sizes.{ArePrices, IsWithin};
ghost use Rattle.greedy.specs.Values.{AreValuesOf};

use break_rules::NoMemory;
use price_sums::{DaySums, LANES, Lane};
use pricing::most_by_day;
use shift_instance::Instance;
use std::alloc::Global;

/// The values of a shift at the prices that the sums are of, one for each day: what a duty with its best list earns, and 0
/// where no list is legal. They are found in the memory of the lanes.
pub(crate) fn day_values(
    alloc: Global,
    instance: &Instance,
    sums: &DaySums,
    shift: u16,
    lanes: &mut Vec<Lane>,
) -> Result<Lane, NoMemory>
    requires sums { sums.now.instance ≡ instance.now }
    requires prices { ArePrices instance.now sums.now.prices }
    requires shift { shift < length (shift_list instance.now) }
    ensures { IfOk result (λ lane. AreValuesOf instance.now sums.now.prices shift lane) }
{
    match most_by_day(alloc, instance, shift, sums, lanes)? {
        Some(most) => Ok(most),
        None => Ok([0; LANES]),
    }
}

/// The value of a day.
pub(crate) fn value_on(values: &Lane, day: u8) -> i64
    requires day { day < 8 }
    requires small { IsWithin (2016 * 1000000) (slice_index_or values.now day (pos 0)) }
    ensures { result ≡ slice_index_or values.now day (pos 0) }
{
    values[usize::from(day)]
}
