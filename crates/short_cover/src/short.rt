//! The slots in which fewer employees work than are needed.
ghost use Rattle.std.specs.Prelude.{◌≡◌, ◌*◌, ◌%◌, ◌<◌, IfOk};
ghost use Rattle.shift_instance.specs.Problem.{day_slots, slots};
ghost use Rattle.plan_tables.specs.Times.{day_of_slot};
ghost use Rattle.short_cover.specs.ShortSlots.{AreWorstFirst, missing, short_slot, short_slots};

use crate::moments::{day_of, time_of};
use break_rules::NoMemory;
use plan_tables::{Attendance, ClockTime};
use shift_instance::Instance;
use std::alloc::Global;
use std::cmp::Reverse;

/// A slot in which fewer employees work than its need.
#[derive(Clone, Copy, PartialEq, Eq, Drop)]
pub struct ShortSlot {
    /// The slot, counted from the beginning of the planning period.
    pub slot: usize,
    /// The need of the slot: the least wanted employees.
    pub wanted: u32,
    /// The employees that work.
    pub working: u32,
    /// The employees on break.
    pub on_break: u32,
}

impl ShortSlot {
    /// The day of the slot, counted from 1. It takes no memory.
    pub fn day(&self, instance: &Instance) -> usize
        ensures { result ≡ day_of_slot instance.now self.now.slot }
    {
        day_of(instance, self.slot)
    }

    /// When the slot begins, in minutes from the beginning of its day on. It takes no memory.
    pub fn time(&self, instance: &Instance) -> ClockTime
        ensures { result.minutes ≡ self.now.slot % day_slots instance.now * instance.now.slot_minutes }
    {
        time_of(instance, self.slot)
    }

    /// How many employees the slot lacks to its need. It takes no memory.
    pub fn missing(&self) -> u32
        ensures { result ≡ missing self.now }
    {
        self.wanted.saturating_sub(self.working)
    }
}

/// A slot with its need, who works there and who is on break.
fn short_slot(instance: &Instance, attendance: &Attendance, t: usize) -> ShortSlot
    requires instance { attendance.now.instance ≡ instance.now }
    requires slot { t < slots instance.now }
    ensures { result ≡ short_slot instance.now attendance.now.duties t }
{
    ShortSlot {
        slot: t,
        wanted: instance.need(t),
        working: attendance.working(t),
        on_break: attendance.on_break(t),
    }
}

/// The short slots, from the first.
fn short_in_time(
    alloc: Global,
    instance: &Instance,
    attendance: &Attendance,
) -> Result<Vec<ShortSlot>, NoMemory>
    requires { attendance.now.instance ≡ instance.now }
    ensures { IfOk result (λ found. found.items ≡ short_slots instance.now attendance.now.duties) }
{
    let mut found = Vec::new(alloc);
    for t in 0..instance.slots() {
        let slot = short_slot(instance, attendance, t);
        if slot.working < slot.wanted {
            found.push(slot)?;
        }
    }
    Ok(found)
}

/// The slots in which fewer employees work than their needs: those that lack most employees first, of equal ones those with fewer at
/// work, and of equal ones the earliest.
pub fn short_slots(
    alloc: Global,
    instance: &Instance,
    attendance: &Attendance,
) -> Result<Vec<ShortSlot>, NoMemory>
    requires { attendance.now.instance ≡ instance.now }
    ensures { IfOk result (λ found. AreWorstFirst instance.now attendance.now.duties found.items) }
{
    let mut found = short_in_time(alloc, instance, attendance)?;
    found.sort_by_key(|slot| (Reverse(slot.missing()), slot.working, slot.slot))?;
    Ok(found)
}
