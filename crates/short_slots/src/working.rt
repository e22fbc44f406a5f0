//! In how many slots duties work, and which weight of shortage is enough.
ghost use Rattle.std.specs.Prelude.{◌≡◌, ◌<◌, ◌≤◌, ℕ, pos, length, slice_index_or, unsigned_abs, IfOk};
ghost use Rattle.shift_instance.specs.Problem.{shift_list};
ghost use Rattle.short_slots.specs.Worked.{IsMostOf, IsMostWorked, enough_shortage, ones};

use break_rules::NoMemory;
use price_sums::{DaySums, Lane};
use pricing::most_by_day;
use shift_instance::Instance;
use std::alloc::Global;

/// The greatest of the first numbers of a lane by its size, and 0 where there is none.
fn greatest_of(lane: &Lane, days: u8) -> u64
    requires days { days ≤ 8 }
    requires small { (day : ℕ) → day < days → unsigned_abs (slice_index_or lane.now day (pos 0)) ≤ 2016 }
    ensures each { (day : ℕ) → day < days → unsigned_abs (slice_index_or lane.now day (pos 0)) ≤ result }
    ensures least { (n : ℕ) → ((day : ℕ) → day < days → unsigned_abs (slice_index_or lane.now day (pos 0)) ≤ n) → result ≤ n }
{
    let mut greatest = 0u64;
    for day in 0..days {
        let value = lane[usize::from(day)].unsigned_abs();
        greatest = greatest.max(value);
    }
    greatest
}

/// The most slots in which a duty of a shift works, by the sums of prices of 1 for all slots, and 0 where no break list is
/// legal. It is found in the memory of `lanes`, whatever stood there.
fn most_of_shift(
    alloc: Global,
    instance: &Instance,
    shift: u16,
    sums: &DaySums,
    lanes: &mut Vec<Lane>,
) -> Result<u64, NoMemory>
    requires shift { shift < length (shift_list instance.now) }
    requires sums { sums.now ≡ record { instance = instance.now; prices = ones instance.now } }
    ensures { IfOk result (IsMostOf instance.now shift) }
{
    match most_by_day(alloc, instance, shift, sums, lanes)? {
        Some(most) => Ok(greatest_of(&most, instance.days())),
        None => Ok(0),
    }
}

/// The most slots in which a legal duty works, and 0 where no duty is legal. Breaks don't count, nor do slots behind a break
/// in which whoever comes back doesn't count yet.
pub fn most_worked(alloc: Global, instance: &Instance) -> Result<u64, NoMemory>
    ensures { IfOk result (IsMostWorked instance.now) }
{
    let prices: Vec<i64> = vec![in alloc; 1; instance.slots()]?;
    let sums = DaySums::new(alloc, instance, &prices)?;
    let mut lanes = Vec::new(alloc);
    let mut most = 0u64;
    let shifts = instance.shifts().len() as u16;
    for shift in 0..shifts {
        let of_shift = most_of_shift(alloc, instance, shift, &sums, &mut lanes)?;
        most = most.max(of_shift);
    }
    Ok(most)
}

/// The least weight of shortage from which on no slot stays short in a cheapest rota that one more duty could help, as
/// [`no_slot_stays_short`](crate::laws::no_slot_stays_short) says, where duties work in so many slots at most.
pub fn enough_shortage(instance: &Instance, most: u64) -> u64
    requires { IsMostWorked instance.now most }
    ensures { result ≡ enough_shortage instance.now most }
{
    let (excess, _, shift) = instance.weights();
    u64::from(excess) * most + u64::from(shift) + 1
}
