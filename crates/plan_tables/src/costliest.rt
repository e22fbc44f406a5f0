//! The slots that cost most.
ghost use Rattle.std.specs.Prelude.{◌≡◌, ◌+◌, ◌*◌, ◌/◌, ◌%◌, ◌<◌, IfOk};
ghost use Rattle.shift_instance.specs.Problem.{day_slots, slots};
ghost use Rattle.plan_tables.specs.Costliest.{AreCostliest, costly_slot, costly_slots};
ghost use Rattle.plan_tables.specs.Times.{day_of_slot};

use crate::tallies::day_slots;
use crate::{Attendance, ClockTime};
use break_rules::NoMemory;
use shift_instance::Instance;
use std::alloc::Global;
use std::cmp::Reverse;

/// A slot with its employees and what it costs.
#[derive(Clone, Copy, PartialEq, Eq, Drop)]
pub struct CostlySlot {
    /// The slot, counted from the beginning of the planning period.
    pub slot: usize,
    /// The least wanted employees.
    pub wanted: u32,
    /// The most wanted employees.
    pub wanted_max: u32,
    /// The employees that work.
    pub working: u32,
    /// What the slot costs.
    pub cost: u64,
}

impl CostlySlot {
    /// The day of the slot, counted from 1. It takes no memory.
    pub fn day(&self, instance: &Instance) -> usize
        ensures { result ≡ day_of_slot instance.now self.now.slot }
    {
        let _valid = instance.slots();
        self.slot / day_slots(instance) + 1
    }

    /// When the slot begins, in minutes from the beginning of its day on. It takes no memory.
    pub fn time(&self, instance: &Instance) -> ClockTime
        ensures { result.minutes ≡ self.now.slot % day_slots instance.now * instance.now.slot_minutes }
    {
        let _valid = instance.slots();
        let slot = self.slot % day_slots(instance);
        ClockTime::of_slot(instance, slot as u32)
    }
}

/// A slot with what it costs.
fn costly_slot(instance: &Instance, attendance: &Attendance, t: usize) -> CostlySlot
    requires instance { attendance.now.instance ≡ instance.now }
    requires slot { t < slots instance.now }
    ensures { result ≡ costly_slot instance.now attendance.now.duties t }
{
    let (excess, shortage, _) = instance.weights();
    let wanted = instance.need(t);
    let wanted_max = instance.need_max(t);
    let working = attendance.working(t);
    let over = working.saturating_sub(wanted_max);
    let under = wanted.saturating_sub(working);
    CostlySlot {
        slot: t,
        wanted,
        wanted_max,
        working,
        cost: u64::from(excess) * u64::from(over) + u64::from(shortage) * u64::from(under),
    }
}

/// The slots that cost something, from the first.
fn costly_slots(
    alloc: Global,
    instance: &Instance,
    attendance: &Attendance,
) -> Result<Vec<CostlySlot>, NoMemory>
    requires { attendance.now.instance ≡ instance.now }
    ensures { IfOk result (λ found. found.items ≡ costly_slots instance.now attendance.now.duties) }
{
    let mut found = Vec::new(alloc);
    for t in 0..instance.slots() {
        let slot = costly_slot(instance, attendance, t);
        if 0 < slot.cost {
            found.push(slot)?;
        }
    }
    Ok(found)
}

/// At most so many of the slots that cost something: those that cost most, and of equal ones the earliest.
pub(crate) fn costliest(
    alloc: Global,
    instance: &Instance,
    attendance: &Attendance,
    most: usize,
) -> Result<Vec<CostlySlot>, NoMemory>
    requires { attendance.now.instance ≡ instance.now }
    ensures { IfOk result (λ found. AreCostliest instance.now attendance.now.duties most found.items) }
{
    let mut found = costly_slots(alloc, instance, attendance)?;
    found.sort_by_key(|slot| Reverse(slot.cost))?;
    found.truncate(most);
    Ok(found)
}
