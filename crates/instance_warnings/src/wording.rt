//! How a planner is told of what is odd: types by their names, and times as on a clock.
use crate::breaks::lacks_totals;
use crate::relaxing::Part;
use crate::slots::Slots;
use crate::telling::{Limit, Warning};
use rule_sentences::{Span, Spans, StartTime};
use shift_instance::{Instance, TypeParts};
use std::fmt;

/// The minutes of a day.
const DAY: u32 = 1440;

/// A warning in words for the instance that it is of.
#[derive(Clone, Copy, Drop)]
pub struct WordedWarning<'a> {
    /// The warning.
    pub warning: &'a Warning,
    /// The instance that it is of.
    pub instance: &'a Instance,
}

impl Part {
    /// The fields of the part.
    fn fields(self) -> &'static str {
        match self {
            Part::Ends => "lead and tail leave no room for the breaks",
            Part::Lunches => "lunches can't be met",
            Part::Work => "work_min and work_max don't fit the breaks",
            Part::Rest => "long_work asks for longer breaks than the others allow",
            Part::Sizes => "size_min and size_max don't give the total",
            Part::Totals => "totals has no break time that fits",
        }
    }
}

impl Limit {
    /// The field of the limit.
    fn field(self) -> &'static str {
        match self {
            Limit::WorkMax => "work_max",
            Limit::LongWork => "long_work",
        }
    }
}

/// How much break time there is, in words.
fn write_total<W: fmt::Write>(total: Span, f: &mut fmt::Formatter<W>) -> fmt::Result {
    if total.minutes == 0 {
        f.write_str("no break")
    } else {
        write!(f, "{total} of breaks")
    }
}

impl<'a> WordedWarning<'a> {
    /// A type by its number.
    fn kind(&self, kind: u16) -> Option<&TypeParts> {
        let parts = self.instance.parts();
        parts.types.get(usize::from(kind))
    }

    /// The name of a type.
    fn name(&self, kind: u16) -> &str {
        match self.kind(kind) {
            Some(kind) => kind.name.as_str(),
            None => "?",
        }
    }

    /// Whether no entry of a type's totals holds for its shifts.
    fn is_without_totals(&self, kind: u16) -> bool {
        match self.kind(kind) {
            Some(kind) => lacks_totals(kind),
            None => false,
        }
    }

    /// The span of so many slots.
    fn span(&self, slots: u16) -> Span {
        let parts = self.instance.parts();
        Span::of_slots(parts.slot_minutes, slots)
    }

    /// Writes a warning of a type without a legal break list.
    fn write_no_breaks<W: fmt::Write>(
        &self,
        kind: u16,
        part: Option<Part>,
        f: &mut fmt::Formatter<W>,
    ) -> fmt::Result {
        let name = self.name(kind);
        write!(
            f,
            "type {name} can have no duty: no length of it has a legal list of breaks, "
        )?;
        match part {
            Some(Part::Totals) if self.is_without_totals(kind) => {
                f.write_str("since totals has no entry for its shifts")
            }
            Some(part) => write!(f, "since {}", part.fields()),
            None => f.write_str("and no one part of its rule alone forbids them"),
        }
    }

    /// Writes a warning of slots that no duty can reach.
    fn write_unreached<W: fmt::Write>(
        &self,
        slots: &Slots,
        least: u64,
        f: &mut fmt::Formatter<W>,
    ) -> fmt::Result {
        let parts = self.instance.parts();
        let count = slots.len();
        let first = slots.as_slice().first().copied().unwrap_or(0);
        let minutes = u32::from(first) * u32::from(parts.slot_minutes);
        let day = minutes / DAY + 1;
        let time = StartTime {
            minutes: minutes % DAY,
        };
        write!(
            f,
            "slots with a need in which no duty can work: {count}, the first of them on day {day} at {time}; they cost every plan at least {least}"
        )
    }

    /// Writes a warning of a limit that limits nothing, with what it would be if it was meant in minutes.
    fn write_beyond<W: fmt::Write>(
        &self,
        kind: u16,
        limit: Limit,
        slots: u16,
        longest: u16,
        f: &mut fmt::Formatter<W>,
    ) -> fmt::Result {
        let name = self.name(kind);
        let field = limit.field();
        let span = self.span(slots);
        let length = self.span(longest);
        write!(
            f,
            "type {name}: {field} is {slots} slots, {span}, and its longest shift has {longest}, {length}, so it limits nothing"
        )?;
        self.write_meant(slots, longest, f)
    }

    /// Writes a warning of a greatest length of breaks that limits nothing, with what it would be if it was meant in minutes.
    fn write_size_beyond<W: fmt::Write>(
        &self,
        kind: u16,
        slots: u16,
        most: u16,
        f: &mut fmt::Formatter<W>,
    ) -> fmt::Result {
        let name = self.name(kind);
        let span = self.span(slots);
        let time = self.span(most);
        write!(
            f,
            "type {name}: size_max is {slots} slots, {span}, and no shift has more than {most}, {time}, of breaks, so it limits nothing"
        )?;
        self.write_meant(slots, most, f)
    }

    /// Writes how many slots a number is if it was meant in minutes, where that is at most so many.
    fn write_meant<W: fmt::Write>(
        &self,
        minutes: u16,
        most: u16,
        f: &mut fmt::Formatter<W>,
    ) -> fmt::Result {
        let parts = self.instance.parts();
        let meant = minutes / parts.slot_minutes.max(1);
        if 0 < meant && meant <= most {
            write!(f, "; if minutes are meant, write {meant}")?;
        }
        Ok(())
    }

    /// Writes a warning of a type with times that look like hours.
    fn write_type_hours<W: fmt::Write>(&self, kind: u16, f: &mut fmt::Formatter<W>) -> fmt::Result {
        let Some(kind) = self.kind(kind) else {
            return Ok(());
        };
        let parts = self.instance.parts();
        let minutes = parts.slot_minutes;
        let name = kind.name.as_str();
        let first = StartTime::of_slot(minutes, kind.start_min);
        let last = StartTime::of_slot(minutes, kind.start_max);
        let lengths = Spans::of_slots(minutes, kind.len_min, kind.len_max);
        write!(
            f,
            "starts and lengths of type {name} look like hours: they count slots of {minutes} minutes, so its shifts start "
        )?;
        if first == last {
            write!(f, "{first} and are {lengths} long")
        } else {
            write!(f, "{first} to {last} and are {lengths} long")
        }
    }

    /// Writes a warning of a type without breaks.
    fn write_breakless<W: fmt::Write>(&self, f: &mut fmt::Formatter<W>) -> fmt::Result {
        match self.warning {
            Warning::NoTotals { kind } => write!(
                f,
                "type {} has a break rule, and its shifts have no breaks, since totals has no entry for them",
                self.name(*kind)
            ),
            Warning::Breakless { kind } => write!(
                f,
                "type {} has no breaks, and other types have",
                self.name(*kind)
            ),
            _ => Ok(()),
        }
    }

    /// Writes a warning of lengths with different break times.
    fn write_parted<W: fmt::Write>(
        &self,
        kind: u16,
        len: u16,
        before: u16,
        from: u16,
        f: &mut fmt::Formatter<W>,
    ) -> fmt::Result {
        let name = self.name(kind);
        let shorter = self.span(len.saturating_sub(1));
        let longer = self.span(len);
        write!(f, "type {name}: {shorter} shifts have ")?;
        write_total(self.span(before), f)?;
        write!(f, ", {longer} shifts ")?;
        write_total(self.span(from), f)
    }

    /// Writes a warning of a lunch that only some lengths have.
    fn write_lunch_parted<W: fmt::Write>(
        &self,
        kind: u16,
        len: u16,
        size: u16,
        f: &mut fmt::Formatter<W>,
    ) -> fmt::Result {
        let name = self.name(kind);
        let shorter = self.span(len.saturating_sub(1));
        let longer = self.span(len);
        let size = self.span(size);
        write!(
            f,
            "type {name}: {longer} shifts have a lunch of {size}, and {shorter} shifts don't have to"
        )
    }

    /// Writes a warning of a lunch that no length has.
    fn write_lunch_beyond<W: fmt::Write>(
        &self,
        kind: u16,
        len: u16,
        longest: u16,
        f: &mut fmt::Formatter<W>,
    ) -> fmt::Result {
        let name = self.name(kind);
        let from = self.span(len);
        let longest = self.span(longest);
        write!(
            f,
            "a lunch of type {name} begins at shifts of {from}, and its longest shift has {longest}"
        )
    }

    /// Writes a warning of shifts that go on into the first day.
    fn write_going_round<W: fmt::Write>(
        &self,
        kind: u16,
        end: u32,
        f: &mut fmt::Formatter<W>,
    ) -> fmt::Result {
        let name = self.name(kind);
        let parts = self.instance.parts();
        let end = Span {
            minutes: end.saturating_mul(u32::from(parts.slot_minutes)),
        };
        write!(
            f,
            "type {name}: shifts of the last day may go on {end} into the first day, since the period goes round, and work there"
        )
    }

    /// Writes a warning of a type that is odd.
    fn write_kind<W: fmt::Write>(&self, f: &mut fmt::Formatter<W>) -> fmt::Result {
        match self.warning {
            Warning::Beyond {
                kind,
                limit,
                slots,
                longest,
            } => self.write_beyond(*kind, *limit, *slots, *longest, f),
            Warning::Parted {
                kind,
                len,
                before,
                from,
            } => self.write_parted(*kind, *len, *before, *from, f),
            Warning::LunchParted { kind, len, size } => {
                self.write_lunch_parted(*kind, *len, *size, f)
            }
            Warning::LunchBeyond { kind, len, longest } => {
                self.write_lunch_beyond(*kind, *len, *longest, f)
            }
            Warning::TypeLikeHours { kind } => self.write_type_hours(*kind, f),
            Warning::SizeBeyond { kind, slots, most } => {
                self.write_size_beyond(*kind, *slots, *most, f)
            }
            Warning::GoesRound { kind, end } => self.write_going_round(*kind, *end, f),
            _ => Ok(()),
        }
    }

    /// Writes a warning of weights.
    fn write_weights<W: fmt::Write>(&self, f: &mut fmt::Formatter<W>) -> fmt::Result {
        match self.warning {
            Warning::NoExcess => f.write_str(
                "weights.excess is 0: employees too many cost nothing, so plans may have any number of them",
            ),
            Warning::NoShortage => f.write_str(
                "weights.shortage is 0: employees too few cost nothing, so a plan without duties is a best one",
            ),
            Warning::NoShift => f.write_str(
                "weights.shift is 0: shifts cost nothing, so plans may use all of them",
            ),
            Warning::ExcessAbove { excess, shortage } => write!(
                f,
                "weights.excess is {excess} and shortage {shortage}: one employee too many costs more than one too few, so plans leave slots short sooner than they have one too many"
            ),
            _ => Ok(()),
        }
    }

    /// Writes a warning of the most duties of one shift on one day, or of all lengths.
    fn write_sizes<W: fmt::Write>(&self, f: &mut fmt::Formatter<W>) -> fmt::Result {
        let parts = self.instance.parts();
        let minutes = parts.slot_minutes;
        match self.warning {
            Warning::Nobody => f.write_str(
                "no slot wants anybody, so a plan without duties is a cheapest one",
            ),
            Warning::Heads { most, need } => write!(
                f,
                "max_heads is {most}, and no slot wants more than {need}: each class of duties counts up to {most} times in a bound, so bounds get weak; twice that will do"
            ),
            Warning::HeadsBelow { most, need } => write!(
                f,
                "max_heads is {most}, and a slot needs {need}: no shift alone can cover it"
            ),
            Warning::Short { longest } => write!(
                f,
                "no shift is as long as two hours: the longest has {longest} slots of {minutes} minutes, {}; an hour is {} of them",
                self.span(*longest),
                60 / minutes.max(1)
            ),
            Warning::LikeHours => write!(
                f,
                "starts and lengths look like hours, and a slot has {minutes} minutes: with them a shift that starts at 8 starts at {}",
                StartTime::of_slot(minutes, 8)
            ),
            _ => Ok(()),
        }
    }
}

impl<'a> fmt::Display for WordedWarning<'a> {
    /// Writes a sentence for a planner.
    fn fmt<W: fmt::Write>(&self, f: &mut fmt::Formatter<W>) -> fmt::Result {
        match self.warning {
            Warning::NoBreaks { kind, part } => self.write_no_breaks(*kind, *part, f),
            Warning::Unreached { slots, least } => self.write_unreached(slots, *least, f),
            Warning::NoExcess
            | Warning::NoShortage
            | Warning::NoShift
            | Warning::ExcessAbove { .. } => self.write_weights(f),
            Warning::NoTotals { .. } | Warning::Breakless { .. } => self.write_breakless(f),
            Warning::Nobody
            | Warning::Heads { .. }
            | Warning::HeadsBelow { .. }
            | Warning::Short { .. }
            | Warning::LikeHours => self.write_sizes(f),
            _ => self.write_kind(f),
        }
    }
}
