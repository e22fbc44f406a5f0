//! Cuts on duties whose breaks begin with some.

use break_rules::NoMemory;
use head_splits::{Cut, Side};
use shift_tables::Pauses;
use std::alloc::Global;

/// A cut on the duties of a shift on a day whose breaks begin with some.
#[derive(Clone, Copy)]
pub struct FrontCut {
    /// The number of the shift.
    pub shift: u16,
    /// The day.
    pub day: usize,
    /// The breaks.
    pub front: Pauses,
    /// Whether there are at least so many duties, and else at most.
    pub at_least: bool,
    /// The number of duties.
    pub m: f64,
    /// The place of the cut among all.
    pub place: usize,
    /// Whether no such cut before it is on the same shift and day.
    pub is_first: bool,
}

impl FrontCut {
    /// What a duty of the cut's earns at a price of the cut.
    pub(crate) fn earned(&self, price: f64) -> f64 {
        if self.at_least { price } else { -price }
    }

    /// By how much the cut is violated by a number of duties; below 0 where it is met with room.
    pub(crate) fn violation(&self, count: f64) -> f64 {
        if self.at_least {
            self.m - count
        } else {
            count - self.m
        }
    }
}

/// Whether none of some cuts is on the duties of a shift on a day.
fn has_none(fronts: &[FrontCut], shift: u16, day: usize) -> bool {
    for cut in fronts {
        if cut.shift == shift && cut.day == day {
            return false;
        }
    }
    true
}

/// The cuts on duties of certain breaks among some cuts, but for those of too many breaks.
pub(crate) fn front_cuts(alloc: Global, cuts: &[Cut]) -> Result<Vec<FrontCut>, NoMemory> {
    let mut fronts = Vec::new(alloc);
    for (place, cut) in cuts.iter().enumerate() {
        if cut.class.prefix.is_empty() {
            continue;
        }
        if let Some(front) = Pauses::of(cut.class.prefix.as_slice()) {
            let shift = cut.class.shift;
            let day = usize::from(cut.class.day);
            let is_first = has_none(&fronts, shift, day);
            fronts.push(FrontCut {
                shift,
                day,
                front,
                at_least: cut.side == Side::AtLeast,
                m: f64::from(cut.m),
                place,
                is_first,
            })?;
        }
    }
    Ok(fronts)
}
