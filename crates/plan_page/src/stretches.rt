//! Stretches of slots, and which part of one lies in a day.
ghost use Rattle.std.specs.Prelude.{◌≡◌, ◌^◌, ◌<◌};
ghost use Rattle.plan_page.specs.Bars.{lies_in, part_from};

use plan_tables::day_slots;
use shift_instance::Instance;

/// A stretch of slots.
#[derive(Clone, Copy, Drop)]
pub(crate) struct Stretch {
    /// Its first slot.
    pub(crate) first: u32,
    /// How many slots it has.
    pub(crate) len: u32,
}

/// The part of a stretch of slots that lies within the slots of a day, counted from the first of them.
#[tactic(auto, unfolding(crate::specs::Bars::part_from))]
pub(crate) fn part_from(instance: &Instance, day: u32, stretch: Stretch) -> Option<Stretch>
    requires day { day < 2 ^ 20 }
    requires first { stretch.first < 2 ^ 20 }
    requires len { stretch.len < 2 ^ 20 }
    ensures { result ≡ part_from instance.now day stretch }
{
    let from = stretch.first.max(day);
    let to = (stretch.first + stretch.len).min(day + day_slots(instance) as u32);
    if from < to {
        Some(Stretch {
            first: from - day,
            len: to - from,
        })
    } else {
        None
    }
}

/// Whether some of a stretch of slots lies in a day. Behind the last slot of the planning period comes the first.
#[tactic(auto, unfolding(crate::specs::Bars::lies_in))]
pub(crate) fn lies_in(instance: &Instance, day: u32, stretch: Stretch) -> bool
    requires day { day < 2 ^ 16 }
    requires first { stretch.first < 2 ^ 20 }
    requires len { stretch.len < 2 ^ 20 }
    ensures { result ≡ lies_in instance.now day stretch }
{
    let again = day + instance.slots() as u32;
    let before = part_from(instance, day, stretch).is_some();
    let after = part_from(instance, again, stretch).is_some();
    before || after
}
