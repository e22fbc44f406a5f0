//! The day and the time of a slot.
ghost use Rattle.std.specs.Prelude.{◌≡◌, ◌*◌, ◌%◌};
ghost use Rattle.shift_instance.specs.Problem.{day_slots};
ghost use Rattle.plan_tables.specs.Times.{day_of_slot};

use plan_tables::{ClockTime, day_slots};
use shift_instance::Instance;

/// The day of a slot of the planning period, counted from 1.
pub(crate) fn day_of(instance: &Instance, slot: usize) -> usize
    ensures { result ≡ day_of_slot instance.now slot }
{
    let _valid = instance.slots();
    slot / day_slots(instance) + 1
}

/// When a slot of the planning period begins, in minutes from the beginning of its day on.
pub(crate) fn time_of(instance: &Instance, slot: usize) -> ClockTime
    ensures { result.minutes ≡ slot % day_slots instance.now * instance.now.slot_minutes }
{
    let _valid = instance.slots();
    let slot = slot % day_slots(instance);
    ClockTime::of_slot(instance, slot as u32)
}
