//! Times and spans of time as tables have them.

use std::fmt;

/// A span of time, or a time of day that may be on the day after, as whole hours and the minutes beyond them: `6:30`.
#[derive(Clone, Copy, Drop)]
pub(crate) struct HoursMinutes {
    /// Its minutes.
    pub(crate) minutes: u64,
}

impl fmt::Display for HoursMinutes {
    ghost use Rattle.std.specs.Prelude.{Some};
    ghost use Rattle.instance_tables.specs.Times.{time_text};

    ghost output = { λ h. Some (time_text h.minutes) };

    fn fmt<W: fmt::Write>(&self, f: &mut fmt::Formatter<W>) -> fmt::Result {
        let hours = self.minutes / 60;
        let minutes = self.minutes % 60;
        write!(f, "{hours}:{}{}", minutes / 10, minutes % 10)
    }
}
