//! How many duties cuts leave to each shift on each day.

use crate::fronts::{FrontCut, front_cuts};
use break_rules::NoMemory;
use head_splits::{Cut, Side};
use shift_tables::ShiftTables;
use std::alloc::Global;

/// The least and the greatest number of duties of each shift on each day, shift by shift, and the cuts on duties of certain
/// breaks.
#[derive(Drop)]
pub struct Ranges {
    low: Vec<u16>,
    high: Vec<u16>,
    fronts: Vec<FrontCut>,
}

/// Raises a number of a list.
fn raise(list: &mut [u16], place: usize, m: u16) {
    if let Some(x) = list.get_mut(place) {
        *x = m.max(*x);
    }
}

/// Lowers a number of a list.
fn lower(list: &mut [u16], place: usize, m: u16) {
    if let Some(x) = list.get_mut(place) {
        *x = m.min(*x);
    }
}

impl Ranges {
    /// The ranges that some cuts leave.
    pub fn new(alloc: Global, tables: &ShiftTables, cuts: &[Cut]) -> Result<Ranges, NoMemory> {
        let places = tables.shift_count().saturating_mul(tables.days);
        let heads = u16::try_from(tables.heads).unwrap_or(u16::MAX);
        let mut ranges = Ranges {
            low: vec![in alloc; 0; places]?,
            high: vec![in alloc; heads; places]?,
            fronts: front_cuts(alloc, cuts)?,
        };
        for cut in cuts {
            if cut.class.prefix.is_empty() {
                ranges.narrow(tables, cut);
            }
        }
        Ok(ranges)
    }

    /// Narrows the range of a cut's shift and day.
    fn narrow(&mut self, tables: &ShiftTables, cut: &Cut) {
        let place = tables.place(cut.class.shift, usize::from(cut.class.day));
        match cut.side {
            Side::AtMost => lower(&mut self.high, place, cut.m),
            Side::AtLeast => raise(&mut self.low, place, cut.m),
        }
    }

    /// The least number of duties of a shift on a day.
    pub fn low(&self, place: usize) -> u16 {
        self.low.get(place).copied().unwrap_or(0)
    }

    /// The greatest number of duties of a shift on a day.
    pub fn high(&self, place: usize) -> u16 {
        self.high.get(place).copied().unwrap_or(0)
    }

    /// The cuts on duties of certain breaks, in the order of the cuts.
    pub fn fronts(&self) -> &[FrontCut] {
        self.fronts.as_slice()
    }

    /// Whether a shift has no duties on a day.
    pub(crate) fn is_closed(&self, place: usize) -> bool {
        self.low(place) == 0 && self.high(place) == 0
    }

    /// Whether a shift must have duties.
    pub fn is_forced(&self, tables: &ShiftTables, shift: u16) -> bool {
        for day in 0..tables.days {
            if 0 < self.low(tables.place(shift, day)) {
                return true;
            }
        }
        false
    }

    /// What a shift earns that must have duties, where `worth` has what a duty of each shift on each day earns.
    pub(crate) fn forced_worth(&self, tables: &ShiftTables, worth: &[f64], shift: u16) -> f64 {
        let mut sum = 0.0;
        for day in 0..tables.days {
            let place = tables.place(shift, day);
            let earned = worth.get(place).copied().unwrap_or(0.0);
            let least = earned * f64::from(self.low(place));
            sum += least.max(earned * f64::from(self.high(place)));
        }
        sum
    }

    /// What a shift earns that needn't have duties, where `worth` has what a duty of each shift on each day earns.
    pub(crate) fn free_worth(&self, tables: &ShiftTables, worth: &[f64], shift: u16) -> f64 {
        let mut sum = 0.0;
        for day in 0..tables.days {
            let place = tables.place(shift, day);
            let earned = worth.get(place).copied().unwrap_or(0.0);
            sum += earned.max(0.0) * f64::from(self.high(place));
        }
        sum
    }

    /// The number of duties of a shift on a day that earns most, where one of them earns `worth`.
    pub(crate) fn best_heads(&self, place: usize, worth: f64, forced: bool) -> f64 {
        if 0.0 < worth {
            f64::from(self.high(place))
        } else if forced {
            f64::from(self.low(place))
        } else {
            0.0
        }
    }
}
