//! The least cover of each day.
ghost use Rattle.std.specs.Prelude.{◌≡◌, ◌+◌, ◌<◌, ◌≤◌, ℕ, IfOk, IsSomeAnd, if◌then◌else◌, length, nat_le, slice_get};
ghost use Rattle.std.specs.Option.{option_map_or};
ghost use Rattle.std.specs.List.{range_with_len};
ghost use Rattle.shift_instance.specs.Problem.{slots};
ghost use Rattle.short_cover.specs.LeastCovers.{IsLeastAmong, IsLeastOn};

use break_rules::NoMemory;
use plan_tables::{Attendance, day_slots};
use shift_instance::Instance;
use std::alloc::Global;

/// The slot of a day that has the fewest employees at work where somebody is wanted.
#[derive(Clone, Copy, PartialEq, Eq, Drop)]
pub struct LeastCover {
    /// The slot, counted from the beginning of the planning period.
    pub slot: usize,
    /// The need of the slot: the least wanted employees.
    pub wanted: u32,
    /// The employees that work.
    pub working: u32,
}

/// The least cover so far, if there is one, or another one where that has fewer employees at work.
fn lesser(least: Option<LeastCover>, other: LeastCover) -> LeastCover
    ensures { result ≡ option_map_or (λ known. if nat_le known.working other.working then known else other) least other }
{
    match least {
        Some(known) if known.working <= other.working => known,
        _ => other,
    }
}

/// The least cover of so many slots from a first one on: the earliest of those with the fewest employees at work, among the slots in
/// which somebody is wanted.
fn least_among(
    instance: &Instance,
    attendance: &Attendance,
    first: usize,
    count: usize,
) -> Option<LeastCover>
    requires instance { attendance.now.instance ≡ instance.now }
    requires within { first + count ≤ slots instance.now }
    ensures { IsLeastAmong instance.now attendance.now.duties (range_with_len first count) result }
{
    let _valid = instance.slots();
    let mut least = None;
    for k in 0..count {
        let slot = first + k;
        let wanted = instance.need(slot);
        let working = attendance.working(slot);
        if 0 < wanted {
            let other = LeastCover {
                slot,
                wanted,
                working,
            };
            least = Some(lesser(least, other));
        }
    }
    least
}

/// The least cover of a day, counted from 0.
fn least_on(instance: &Instance, attendance: &Attendance, day: u8) -> Option<LeastCover>
    requires instance { attendance.now.instance ≡ instance.now }
    requires day { day < instance.now.days }
    ensures { IsLeastOn instance.now attendance.now.duties day result }
{
    let per_day = day_slots(instance);
    least_among(instance, attendance, usize::from(day) * per_day, per_day)
}

/// The least cover of each day: the earliest of its slots with the fewest employees at work, among those in which somebody is wanted,
/// and none on a day on which nobody is.
pub fn least_covers(
    alloc: Global,
    instance: &Instance,
    attendance: &Attendance,
) -> Result<Vec<Option<LeastCover>>, NoMemory>
    requires { attendance.now.instance ≡ instance.now }
    ensures count { IfOk result (λ list. length list.items ≡ instance.now.days) }
    ensures each { IfOk result (λ list. (day : ℕ) → day < instance.now.days → IsSomeAnd (slice_get list.items day) (IsLeastOn instance.now attendance.now.duties day)) }
{
    let mut list = Vec::new(alloc);
    for day in 0..instance.days() {
        list.push(least_on(instance, attendance, day))?;
    }
    Ok(list)
}
