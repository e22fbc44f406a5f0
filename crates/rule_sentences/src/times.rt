//! Spans of time and times of day, as people say them.
ghost use Rattle.std.specs.Prelude.{◌≡◌, ◌*◌};

use plan_tables::{ClockTime, Hours};
use std::fmt;

/// A span of time. It is shown as hours and minutes, as `8:30`, and below an hour as `15 minutes`.
#[derive(Clone, Copy, PartialEq, Eq, Drop)]
pub struct Span {
    /// The minutes of the span.
    pub minutes: u32,
}

impl Span {
    /// How long so many slots are.
    pub fn of_slots(slot_minutes: u16, slots: u16) -> Span
        ensures { result.minutes ≡ slots * slot_minutes }
    {
        Span {
            minutes: u32::from(slots) * u32::from(slot_minutes),
        }
    }
}

impl fmt::Display for Span {
    fn fmt<W: fmt::Write>(&self, f: &mut fmt::Formatter<W>) -> fmt::Result {
        if self.minutes < 60 {
            return write!(f, "{} minutes", self.minutes);
        }
        let hours = Hours {
            minutes: u64::from(self.minutes),
        };
        write!(f, "{hours}")
    }
}

/// Each span from a least to a greatest one in steps of a slot. They are shown as `8:00 or 8:30`, as `15 to 45 minutes`, and as
/// one span where they are one.
#[derive(Clone, Copy, PartialEq, Eq, Drop)]
pub struct Spans {
    /// The least of them.
    pub least: Span,
    /// The greatest of them.
    pub greatest: Span,
    /// The minutes of a slot.
    pub step: u16,
}

impl Spans {
    /// The spans of so many slots and so many.
    pub fn of_slots(slot_minutes: u16, least: u16, greatest: u16) -> Spans
        ensures least { result.least.minutes ≡ least * slot_minutes }
        ensures greatest { result.greatest.minutes ≡ greatest * slot_minutes }
        ensures step { result.step ≡ slot_minutes }
    {
        Spans {
            least: Span::of_slots(slot_minutes, least),
            greatest: Span::of_slots(slot_minutes, greatest),
            step: slot_minutes,
        }
    }

    /// The word between the two.
    fn between(self) -> &'static str {
        let next = u64::from(self.least.minutes) + u64::from(self.step);
        if next == u64::from(self.greatest.minutes) {
            "or"
        } else {
            "to"
        }
    }
}

impl fmt::Display for Spans {
    fn fmt<W: fmt::Write>(&self, f: &mut fmt::Formatter<W>) -> fmt::Result {
        let least = self.least;
        let greatest = self.greatest;
        let between = self.between();
        if least == greatest {
            write!(f, "{least}")
        } else if greatest.minutes < 60 {
            write!(f, "{} {between} {greatest}", least.minutes)
        } else {
            write!(f, "{least} {between} {greatest}")
        }
    }
}

/// When a shift starts, counted from the midnight of its day. It is shown as `06:00`, and where it is on the day behind as
/// `06:00 on the next day`.
#[derive(Clone, Copy, PartialEq, Eq, Drop)]
pub struct StartTime {
    /// The minutes since that midnight.
    pub minutes: u32,
}

impl StartTime {
    /// When a slot begins, counted from that midnight.
    pub fn of_slot(slot_minutes: u16, slot: u16) -> StartTime
        ensures { result.minutes ≡ slot * slot_minutes }
    {
        StartTime {
            minutes: u32::from(slot) * u32::from(slot_minutes),
        }
    }
}

impl fmt::Display for StartTime {
    fn fmt<W: fmt::Write>(&self, f: &mut fmt::Formatter<W>) -> fmt::Result {
        let time = ClockTime {
            minutes: u64::from(self.minutes),
        };
        if self.minutes < 1440 {
            write!(f, "{time}")
        } else {
            write!(f, "{time} on the next day")
        }
    }
}
