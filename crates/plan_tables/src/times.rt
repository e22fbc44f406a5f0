//! Times and spans of time, as people read them.
ghost use Rattle.std.specs.Prelude.{◌≡◌, ◌+◌, ◌*◌};
ghost use Rattle.plan_tables.specs.Times.{span_minutes};

use shift_instance::Instance;
use std::fmt;

/// A time of day, in minutes from the beginning of some day on. It is shown as a clock shows it, so midnight is `00:00`.
#[derive(Clone, Copy, PartialEq, Eq, Drop)]
pub struct ClockTime {
    /// The minutes, which may reach into a later day.
    pub minutes: u64,
}

impl ClockTime {
    /// When a slot begins, counted from the beginning of some day.
    pub fn of_slot(instance: &Instance, slot: u32) -> ClockTime
        ensures { result.minutes ≡ slot * instance.now.slot_minutes }
    {
        let parts = instance.parts();
        ClockTime {
            minutes: u64::from(slot) * u64::from(parts.slot_minutes),
        }
    }
}

impl fmt::Display for ClockTime {
    ghost use Rattle.std.specs.Prelude.{Some};
    ghost use Rattle.rota_writer.specs.Table.{clock};

    ghost output = { λ c. Some (clock c.minutes) };

    fn fmt<W: fmt::Write>(&self, f: &mut fmt::Formatter<W>) -> fmt::Result {
        let time = self.minutes % 1440;
        let hours = time / 60;
        let minutes = time % 60;
        write!(
            f,
            "{}{}:{}{}",
            hours / 10,
            hours % 10,
            minutes / 10,
            minutes % 10
        )
    }
}

/// The time from a beginning to an end, shown as `06:00-15:00`.
#[derive(Clone, Copy, PartialEq, Eq, Drop)]
pub struct Period {
    /// Its beginning.
    pub begin: ClockTime,
    /// Its end.
    pub end: ClockTime,
}

impl Period {
    /// The time of so many slots from a slot on, which is counted from the beginning of some day.
    pub fn of_slots(instance: &Instance, first: u32, len: u16) -> Period
        ensures begin { result.begin.minutes ≡ first * instance.now.slot_minutes }
        ensures end { result.end.minutes ≡ (first + len) * instance.now.slot_minutes }
    {
        let parts = instance.parts();
        let end = u64::from(first) + u64::from(len);
        Period {
            begin: ClockTime::of_slot(instance, first),
            end: ClockTime {
                minutes: end * u64::from(parts.slot_minutes),
            },
        }
    }
}

impl fmt::Display for Period {
    ghost use Rattle.std.specs.Prelude.{Some, ◌++◌, codes};
    ghost use Rattle.rota_writer.specs.Table.{clock};

    ghost output = { λ p. Some (clock p.begin.minutes ++ codes "-" ++ clock p.end.minutes) };

    fn fmt<W: fmt::Write>(&self, f: &mut fmt::Formatter<W>) -> fmt::Result {
        let begin = self.begin;
        let end = self.end;
        write!(f, "{begin}-{end}")
    }
}

/// A span of time, shown as whole hours and the minutes beyond them, as `37:30`.
#[derive(Clone, Copy, PartialEq, Eq, Drop)]
pub struct Hours {
    /// The minutes of the span.
    pub minutes: u64,
}

impl Hours {
    /// How long so many slots are together. Past 2^64 minutes it is as long as that.
    pub fn of_slots(instance: &Instance, slots: u64) -> Hours
        ensures { result.minutes ≡ span_minutes instance.now slots }
    {
        let parts = instance.parts();
        Hours {
            minutes: slots.saturating_mul(u64::from(parts.slot_minutes)),
        }
    }
}

impl fmt::Display for Hours {
    ghost use Rattle.std.specs.Prelude.{Some};
    ghost use Rattle.plan_tables.specs.Times.{hours_text};

    ghost output = { λ h. Some (hours_text h.minutes) };

    fn fmt<W: fmt::Write>(&self, f: &mut fmt::Formatter<W>) -> fmt::Result {
        let hours = self.minutes / 60;
        let minutes = self.minutes % 60;
        write!(f, "{hours}:{}{}", minutes / 10, minutes % 10)
    }
}
