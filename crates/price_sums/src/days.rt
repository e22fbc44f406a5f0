//! Sums of slot prices for all days side by side.

ghost use Rattle.std.specs.Prelude.{◌≡◌, ℕ, pos, ◌+◌, ◌*◌, ◌%◌, ◌<◌, ◌≤◌, ◌+ℤ◌, length, slice_get, slice_index_or, Some, IfOk};
ghost use Rattle.std.specs.Int.RustNames.{unsigned_abs};
ghost use Rattle.break_rules.specs.declared.Rule.{Rule};
ghost use Rattle.shift_instance.specs.declared.Shift.{Shift};
ghost use Rattle.shift_instance.specs.Problem.{shift_list, slots, day_slots};
ghost use Rattle.shift_instance.specs.Worth.{price_of};
ghost use Rattle.price_sums.specs.Along.{sum_at, AreSmallPrices};
ghost use Rattle.price_sums.specs.Days.{AreSumsByDay, AreDaySums};

use break_rules::NoMemory;
use shift_instance::Instance;
use std::alloc::Global;
use std::marker::Model;
use std::snapshot::Snapshot;

/// How many days stand side by side: as many as a planning period may have, and one more for the sake of the processor.
pub const LANES: usize = 8;

/// A number for each of some days.
pub type Lane = [i64; LANES];

/// The sums of the slot prices of a planning period, those of all days side by side. They are made once for a price set, and
/// every shift reads its own from them.
#[derive(Drop)]
pub struct DaySums {
    lanes: Vec<Lane>,
    prices: Vec<i64>,
    instance: Snapshot<Instance>,
}

impl Model for DaySums {
    ghost use Rattle.price_sums.specs.Days.{Priced, AreDaySums};

    ghost Value = { Priced };

    ghost view = { λ s. record { instance = s.instance.value; prices = s.prices.items } };

    ghost invariant = { λ s. AreDaySums (record { instance = s.instance.value; prices = s.prices.items }) s.lanes.items };
}

/// The slots of a day.
fn slots_of_day(instance: &Instance) -> usize
    ensures exact { result ≡ day_slots instance.now }
    ensures few { result ≤ 288 }
{
    1440 / usize::from(instance.parts().slot_minutes)
}

/// The slot that stands so many slots behind one, round the end of the planning period.
fn slot_behind(slot: usize, by: usize, slots: usize) -> usize
    requires slot { slot < slots }
    requires by { by ≤ slots }
    requires slots { slots ≤ 2016 }
    ensures { result ≡ (slot + by) % slots }
{
    if slot + by < slots {
        slot + by
    } else {
        slot + by - slots
    }
}

/// The sums of the days with a price more: that of a slot on the first day, and those of the slots that stand whole days behind it
/// on the others.
fn next_lane(last: &Lane, prices: &[i64], first: usize, days: usize, day_slots: usize) -> Lane
    requires first { first < length prices.now }
    requires days { days ≤ 7 }
    requires slots { length prices.now ≤ 2016 }
    requires day_slots { day_slots ≤ length prices.now }
    requires prices { AreSmallPrices prices.now }
    requires sizes { (day : ℕ) → day < days → unsigned_abs (sum_at last.now day) ≤ 10000000000 * 65535 }
    ensures { (day : ℕ) → day < days → sum_at result day ≡ sum_at last.now day +ℤ price_of prices.now ((day * day_slots + first) % length prices.now) }
{
    let mut next = [0; LANES];
    let mut slot = first;
    for day in 0..days {
        next[day] = last[day] + prices[slot];
        slot = slot_behind(slot, day_slots, prices.len());
    }
    next
}

/// The sums of the prices of the slots that follow the first slot of each day, round the end of the planning period.
fn day_sums(alloc: Global, instance: &Instance, prices: &[i64]) -> Result<Vec<Lane>, NoMemory>
    requires count { length prices.now ≡ slots instance.now }
    requires prices { AreSmallPrices prices.now }
    ensures { IfOk result (λ lanes. AreDaySums (record { instance = instance.now; prices = prices.now }) lanes.items) }
{
    let days = usize::from(instance.days());
    let day_slots = slots_of_day(instance);
    let mut lanes = Vec::with_capacity(alloc, 3 * day_slots + 1)?;
    let mut last = [0; LANES];
    let mut first = 0;
    lanes.push(last)?;
    for _ in 0..3 * day_slots {
        last = next_lane(&last, prices, first, days, day_slots);
        lanes.push(last)?;
        first = slot_behind(first, 1, prices.len());
    }
    Ok(lanes)
}

impl DaySums {
    /// The sums of the prices of an instance's slots. The only refusal is running out of memory.
    pub fn new(alloc: Global, instance: &Instance, prices: &[i64]) -> Result<DaySums, NoMemory>
        requires count { length prices.now ≡ slots instance.now }
        requires prices { AreSmallPrices prices.now }
        ensures { IfOk result (λ s. s ≡ record { instance = instance.now; prices = prices.now }) }
    {
        let lanes = day_sums(alloc, instance, prices)?;
        Ok(DaySums {
            lanes,
            prices: prices.to_vec(alloc)?,
            instance: Snapshot::of(instance),
        })
    }

    /// The sums along a shift, those of all days side by side: a lane for each offset, and one for the end. They don't begin at 0:
    /// what counts is the difference of two lanes, which has the sum of the prices between them on each day. It takes no memory.
    pub fn along(&self, instance: &Instance, shift: u16) -> &[Lane]
        requires shift { shift < length (shift_list instance.now) }
        requires instance { self.now.instance ≡ instance.now }
        ensures { (x : Shift × Rule) → slice_get (shift_list instance.now) shift ≡ Some x → AreSumsByDay instance.now x.0 self.now.prices result.now }
    {
        let shift = instance.shift(shift);
        let from = usize::from(shift.start);
        &self.lanes[from..from + usize::from(shift.len) + 1]
    }
}
