//! The wanted employees of each day.
ghost use Rattle.std.specs.Prelude.{◌≡◌, ◌+◌, ◌*◌, ◌<◌, ◌≤◌, ◌++◌, [], ◌∷◌, ℕ, List, length, slice_get, IfOk, IsSomeAnd};
ghost use Rattle.rule_sentences.specs.Needs.{IsRangeOf, IsNeedOn};

use break_rules::NoMemory;
use shift_instance::Instance;
use std::alloc::Global;

/// The needs of some slots together.
#[derive(Clone, Copy, PartialEq, Eq, Drop)]
pub struct NeedRange {
    /// The least need of a slot.
    pub least: u32,
    /// The greatest need of a slot.
    pub greatest: u32,
    /// The sum of all needs.
    pub wanted: u64,
}

/// The wanted employees of a day.
#[derive(Clone, Copy, PartialEq, Eq, Drop)]
pub struct DayNeed {
    /// The least numbers of wanted employees in its slots.
    pub need: NeedRange,
    /// The greatest numbers of wanted employees in its slots.
    pub need_max: NeedRange,
}

impl NeedRange {
    /// The range of one need.
    fn of_slot(need: u32) -> NeedRange
        ensures { IsRangeOf (need ∷ []) result }
    {
        NeedRange {
            least: need,
            greatest: need,
            wanted: u64::from(need),
        }
    }

    /// The range with one more need.
    fn with(self, need: u32) -> NeedRange
        requires { self.wanted + need < 4294967296 }
        ensures { (needs : List ℕ) → IsRangeOf needs self → IsRangeOf (needs ++ need ∷ []) result }
    {
        NeedRange {
            least: self.least.min(need),
            greatest: self.greatest.max(need),
            wanted: self.wanted + u64::from(need),
        }
    }
}

/// The wanted employees of a day, counted from 0.
fn need_on(instance: &Instance, day: u8) -> DayNeed
    requires { day < instance.now.days }
    ensures { IsNeedOn instance.now day result }
{
    let parts = instance.parts();
    let day_slots = 1440 / usize::from(parts.slot_minutes);
    let first = usize::from(day) * day_slots;
    let mut need = NeedRange::of_slot(instance.need(first));
    let mut need_max = NeedRange::of_slot(instance.need_max(first));
    for offset in 1..day_slots {
        need = need.with(instance.need(first + offset));
        need_max = need_max.with(instance.need_max(first + offset));
    }
    DayNeed { need, need_max }
}

/// The wanted employees of each day, one after another.
pub fn day_needs(alloc: Global, instance: &Instance) -> Result<Vec<DayNeed>, NoMemory>
    ensures count { IfOk result (λ list. length list.items ≡ instance.now.days) }
    ensures each { IfOk result (λ list. (day : ℕ) → day < instance.now.days → IsSomeAnd (slice_get list.items day) (IsNeedOn instance.now day)) }
{
    let mut list = Vec::new(alloc);
    for day in 0..instance.days() {
        list.push(need_on(instance, day))?;
    }
    Ok(list)
}
