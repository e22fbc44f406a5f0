//! The cells of a table, and what they spell.

ghost use Rattle.std.specs.Prelude.{◌≤◌, IfOk};

use crate::columns::{Column, Table};
use crate::refusal::{ImportRefusal, TableRefusal, shown};
use crate::spans::{digits, span_in};
use crate::why::Why;
use std::alloc::Global;
use table_records::unguarded;

/// The most bytes of a name.
const NAME_MOST: usize = 32;

/// The most digits of a number.
const DIGITS_MOST: usize = 9;

/// The slots of an instance: how long each is, and how many a day has.
#[derive(Clone, Copy, Drop)]
pub(crate) struct Grid {
    /// The minutes of a slot.
    pub(crate) slot_minutes: u16,
    /// The slots of a day.
    pub(crate) day_slots: u16,
}

/// A cell of a table, with its place and its text.
#[derive(Clone, Copy, Drop)]
pub(crate) struct Cell<'a> {
    /// The table.
    pub(crate) table: Table,
    /// The number of its row.
    pub(crate) row: u64,
    /// The column.
    pub(crate) column: Column,
    /// Its text, without blanks before and behind it.
    pub(crate) text: &'a str,
}

impl<'a> Cell<'a> {
    /// The refusal of the cell.
    pub(crate) fn refused(self, alloc: Global, why: Why) -> ImportRefusal {
        match shown(alloc, self.text) {
            Ok(found) => ImportRefusal::Table(TableRefusal {
                table: self.table,
                row: Some(self.row),
                column: Some(self.column),
                found: Some(found),
                why,
            }),
            Err(_) => ImportRefusal::NoMemory,
        }
    }

    /// The whole number that it spells, within these.
    pub(crate) fn number(self, alloc: Global, least: u32, most: u32) -> Result<u32, ImportRefusal>
        ensures least { IfOk result (λ n. least ≤ n) }
        ensures most { IfOk result (λ n. n ≤ most) }
    {
        match digits(self.text, DIGITS_MOST) {
            Some(number) if least <= number && number <= most => Ok(number),
            _ => Err(self.refused(alloc, Why::Number { least, most })),
        }
    }

    /// The minutes that it spells as a time or a span.
    pub(crate) fn minutes(self, alloc: Global) -> Result<u64, ImportRefusal> {
        match span_in(self.text) {
            Some(span) => Ok(span.minutes),
            None => Err(self.refused(alloc, Why::Span)),
        }
    }

    /// The minutes of a part of a break rule, which are spelled with a colon, a decimal point or comma, or are 0.
    pub(crate) fn break_minutes(self, alloc: Global) -> Result<u64, ImportRefusal> {
        match span_in(self.text) {
            Some(span) if !span.is_bare => Ok(span.minutes),
            Some(_) => Err(self.refused(alloc, Why::Bare)),
            None => Err(self.refused(alloc, Why::Span)),
        }
    }

    /// The slots of some minutes that it spells, within these.
    pub(crate) fn slots(
        self,
        alloc: Global,
        grid: Grid,
        minutes: u64,
        least: u16,
        most: u16,
    ) -> Result<u16, ImportRefusal>
        ensures least { IfOk result (λ n. least ≤ n) }
        ensures most { IfOk result (λ n. n ≤ most) }
    {
        let slot_minutes = u64::from(grid.slot_minutes.max(1));
        if minutes % slot_minutes != 0 {
            let slot_minutes = grid.slot_minutes;
            return Err(self.refused(alloc, Why::Slots { slot_minutes }));
        }
        let slots = minutes / slot_minutes;
        match u16::try_from(slots) {
            Ok(slots) if least <= slots && slots <= most => Ok(slots),
            _ => {
                let why = Why::Within {
                    least: u64::from(least).saturating_mul(slot_minutes),
                    most: u64::from(most).saturating_mul(slot_minutes),
                };
                Err(self.refused(alloc, why))
            }
        }
    }

    /// The name that it holds, of 1 to 32 visible bytes of ASCII.
    pub(crate) fn name(self, alloc: Global) -> Result<&'a [u8], ImportRefusal> {
        let name = unguarded(self.text.as_bytes());
        let is_visible = name.iter().all(|byte| byte.is_ascii_graphic());
        if name.is_empty() || NAME_MOST < name.len() || !is_visible {
            return Err(self.refused(alloc, Why::Name));
        }
        Ok(name)
    }
}
