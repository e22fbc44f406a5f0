//! How what is said of a shift type is put into words.
use crate::kinds::Clause;
use crate::times::{Span, Spans, StartTime};
use std::fmt;

/// A part of what is said of a shift type, in words for slots of so many minutes.
#[derive(Clone, Copy, PartialEq, Eq, Drop)]
pub struct Said {
    /// What is said.
    pub clause: Clause,
    /// The minutes of a slot.
    pub slot_minutes: u16,
}

impl Said {
    /// The span of so many slots.
    fn span(self, slots: u16) -> Span {
        Span::of_slots(self.slot_minutes, slots)
    }

    /// The spans of so many slots and so many.
    fn spans(self, least: u16, greatest: u16) -> Spans {
        Spans::of_slots(self.slot_minutes, least, greatest)
    }

    /// Writes when shifts start.
    fn write_starts<W: fmt::Write>(
        self,
        first: u16,
        last: u16,
        f: &mut fmt::Formatter<W>,
    ) -> fmt::Result {
        let from = StartTime::of_slot(self.slot_minutes, first);
        let to = StartTime::of_slot(self.slot_minutes, last);
        if first == last {
            write!(f, "starts {from}")
        } else {
            write!(f, "starts {from} to {to}")
        }
    }

    /// Writes how much break time there is.
    fn write_total<W: fmt::Write>(self, total: u16, f: &mut fmt::Formatter<W>) -> fmt::Result {
        if total == 0 {
            f.write_str("no break")
        } else {
            write!(f, "{} of breaks", self.span(total))
        }
    }

    /// Writes a lunch.
    fn write_lunch<W: fmt::Write>(
        self,
        size: u16,
        first: u16,
        last: u16,
        f: &mut fmt::Formatter<W>,
    ) -> fmt::Result {
        let size = self.span(size);
        let first = self.span(first);
        let last = self.span(last);
        write!(
            f,
            "a lunch of {size} between {first} and {last} after the start"
        )
    }

    /// Writes where at the ends of a shift there is no break.
    fn write_ends<W: fmt::Write>(
        self,
        lead: u16,
        tail: u16,
        f: &mut fmt::Formatter<W>,
    ) -> fmt::Result {
        let first = self.span(lead);
        let last = self.span(tail);
        if tail == 0 {
            write!(f, "no break in the first {first}")
        } else if lead == 0 {
            write!(f, "no break in the last {last}")
        } else {
            write!(f, "no break in the first {first} and the last {last}")
        }
    }

    /// Writes what is said of a type's times and break time.
    fn write_times<W: fmt::Write>(self, f: &mut fmt::Formatter<W>) -> fmt::Result {
        match self.clause {
            Clause::Starts { first, last } => self.write_starts(first, last, f),
            Clause::Lengths { least, greatest } => {
                write!(f, "{} long", self.spans(least, greatest))
            }
            Clause::Total { total } => self.write_total(total, f),
            Clause::TotalFrom { from, total } => {
                self.write_total(total, f)?;
                write!(f, " from {} long on", self.span(from))
            }
            _ => f.write_str("no breaks"),
        }
    }

    /// Writes what is said of a type's breaks.
    fn write_breaks<W: fmt::Write>(self, f: &mut fmt::Formatter<W>) -> fmt::Result {
        match self.clause {
            Clause::Sizes { least, greatest } => {
                write!(f, "in pieces of {}", self.spans(least, greatest))
            }
            Clause::AnySize => f.write_str("no limit on the length of a break"),
            Clause::LunchBreak { size, first, last } => self.write_lunch(size, first, last, f),
            Clause::LunchBreakFrom {
                from,
                size,
                first,
                last,
            } => {
                self.write_lunch(size, first, last, f)?;
                write!(f, " from {} long on", self.span(from))
            }
            _ => f.write_str("no lunch"),
        }
    }

    /// Writes what is said of a type's work between breaks.
    fn write_work<W: fmt::Write>(self, f: &mut fmt::Formatter<W>) -> fmt::Result {
        match self.clause {
            Clause::MostWork { most } => {
                write!(f, "at most {} of work without a break", self.span(most))
            }
            Clause::AnyMostWork => f.write_str("no limit on work without a break"),
            Clause::LeastWork { least } => write!(
                f,
                "at least {} of work before, between and after breaks",
                self.span(least)
            ),
            Clause::AnyLeastWork => f.write_str("no limit on how short work between breaks is"),
            Clause::Rest { work, rest } => {
                let work = self.span(work);
                let rest = self.span(rest);
                write!(
                    f,
                    "a break of at least {rest} after more than {work} of work"
                )
            }
            Clause::NoRest => f.write_str("no limit on the break after long work"),
            Clause::Ends { lead, tail } => self.write_ends(lead, tail, f),
            Clause::Resettling { slots } => write!(
                f,
                "whoever comes back from a break counts {} later",
                self.span(slots)
            ),
            _ => f.write_str("no limit on breaks near the ends"),
        }
    }
}

impl fmt::Display for Said {
    /// Writes the words, without what stands between them and others.
    fn fmt<W: fmt::Write>(&self, f: &mut fmt::Formatter<W>) -> fmt::Result {
        match self.clause {
            Clause::Starts { .. }
            | Clause::Lengths { .. }
            | Clause::NoBreaks
            | Clause::Total { .. }
            | Clause::TotalFrom { .. } => self.write_times(f),
            Clause::Sizes { .. }
            | Clause::AnySize
            | Clause::LunchBreak { .. }
            | Clause::LunchBreakFrom { .. }
            | Clause::NoLunch => self.write_breaks(f),
            _ => self.write_work(f),
        }
    }
}
