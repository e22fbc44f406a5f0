//! The weights in words: what costs as much as what.
ghost use Rattle.std.specs.Prelude.{◌≡◌, ◌*◌, ◌/◌, ◌%◌, ◌<◌, ◌↔◌, IsTrue};

use shift_instance::Instance;
use std::alloc::{AllocError, Global};
use std::fmt;

/// How often a number goes into another, in hundredths. It is shown as `4`, as `2.5`, and as `about 2.33` where there are more digits.
#[derive(Clone, Copy, PartialEq, Eq, Drop)]
pub struct Ratio {
    /// The whole hundredths.
    pub hundredths: u64,
    /// Whether there is nothing beyond them.
    pub is_exact: bool,
}

impl Ratio {
    /// How often a number goes into another.
    pub fn of(number: u32, unit: u32) -> Ratio
        requires { 0 < unit }
        ensures hundredths { result.hundredths ≡ number * 100 / unit }
        ensures exact { IsTrue result.is_exact ↔ (number * 100 % unit ≡ 0) }
    {
        let hundredths = u64::from(number) * 100;
        Ratio {
            hundredths: hundredths / u64::from(unit),
            is_exact: hundredths % u64::from(unit) == 0,
        }
    }
}

impl fmt::Display for Ratio {
    fn fmt<W: fmt::Write>(&self, f: &mut fmt::Formatter<W>) -> fmt::Result {
        if self.hundredths == 0 && !self.is_exact {
            return f.write_str("less than 0.01");
        }
        if !self.is_exact {
            f.write_str("about ")?;
        }
        let whole = self.hundredths / 100;
        let tenths = self.hundredths % 100 / 10;
        let last = self.hundredths % 10;
        match (tenths, last) {
            (0, 0) => write!(f, "{whole}"),
            (_, 0) => write!(f, "{whole}.{tenths}"),
            _ => write!(f, "{whole}.{tenths}{last}"),
        }
    }
}

/// What an employee too many and one too few cost, and a shift that is used.
#[derive(Clone, Copy, PartialEq, Eq, Drop)]
struct Weights {
    excess: u32,
    shortage: u32,
    shift: u32,
}

impl Weights {
    /// Writes what employees too few and too many cost.
    fn write_employees<W: fmt::Write>(self, f: &mut fmt::Formatter<W>) -> fmt::Result {
        if self.excess == 0 && self.shortage == 0 {
            return f.write_str("employees too many or too few cost nothing");
        }
        if self.excess == 0 {
            return f.write_str("employees too many cost nothing");
        }
        if self.shortage == 0 {
            return f.write_str("employees too few cost nothing");
        }
        let many = Ratio::of(self.shortage, self.excess);
        write!(f, "one employee too few costs as much as {many} too many")
    }

    /// Writes what a further shift costs.
    fn write_shift<W: fmt::Write>(self, f: &mut fmt::Formatter<W>) -> fmt::Result {
        if self.shift == 0 {
            return f.write_str("a further shift costs nothing");
        }
        if self.excess != 0 {
            let many = Ratio::of(self.shift, self.excess);
            return write!(f, "a further shift costs as much as {many} too many");
        }
        if self.shortage != 0 {
            let few = Ratio::of(self.shift, self.shortage);
            return write!(f, "a further shift costs as much as {few} too few");
        }
        f.write_str("only shifts cost something")
    }
}

impl fmt::Display for Weights {
    fn fmt<W: fmt::Write>(&self, f: &mut fmt::Formatter<W>) -> fmt::Result {
        self.write_employees(f)?;
        f.write_str(", ")?;
        self.write_shift(f)
    }
}

/// The weights of an instance in words.
pub fn weight_sentence(alloc: Global, instance: &Instance) -> Result<String, AllocError> {
    let parts = instance.parts();
    let weights = Weights {
        excess: parts.excess,
        shortage: parts.shortage,
        shift: parts.shift,
    };
    let minutes = parts.slot_minutes;
    format!(in alloc; "{weights}; employees are counted in each slot of {minutes} minutes")
}
