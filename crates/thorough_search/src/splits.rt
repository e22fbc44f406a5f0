//! The split that promises most.

use crate::tightening::tightened;
use price_climb::Ranges;
use shift_tables::ShiftTables;
use std::num::saturating_f64_to_u16;

/// A split of the duties of a shift on a day: at most `m`, or more.
#[derive(Clone, Copy)]
pub(crate) struct HeadSplit {
    pub(crate) shift: u16,
    pub(crate) day: usize,
    pub(crate) m: u16,
}

/// What is known of a node: its ranges, and of the climb the worth of duties, the averaged duties and the prices.
#[derive(Clone, Copy)]
pub(crate) struct NodeView<'a> {
    pub(crate) ranges: &'a Ranges,
    pub(crate) worth: &'a [f64],
    pub(crate) heads: &'a [f64],
    pub(crate) prices: &'a [f64],
}

/// The split of greatest score so far.
#[derive(Clone, Copy)]
pub(crate) struct Choice {
    score: f64,
    split: Option<HeadSplit>,
}

impl Choice {
    /// Nothing is chosen.
    pub(crate) fn none() -> Choice {
        Choice {
            score: -1.0,
            split: None,
        }
    }

    /// Takes a split where its score is greater.
    pub(crate) fn offer(&mut self, score: f64, split: HeadSplit) {
        if self.score < score {
            self.score = score;
            self.split = Some(split);
        }
    }

    /// The split of greatest score.
    pub(crate) fn split(self) -> Option<HeadSplit> {
        self.split
    }
}

/// A number of a list, and 0 past its end.
fn at(list: &[f64], place: usize) -> f64 {
    list.get(place).copied().unwrap_or(0.0)
}

impl NodeView<'_> {
    /// The averaged duties at a place.
    pub(crate) fn heads_at(&self, place: usize) -> f64 {
        at(self.heads, place)
    }

    /// The averaged duties of a shift on all days.
    pub(crate) fn mass(&self, tables: &ShiftTables, shift: u16) -> f64 {
        let mut sum = 0.0;
        for day in 0..tables.days {
            sum += at(self.heads, tables.place(shift, day));
        }
        sum
    }

    /// What a shift earns with as many duties as gain.
    pub(crate) fn gain(&self, tables: &ShiftTables, shift: u16) -> f64 {
        let mut sum = 0.0;
        for day in 0..tables.days {
            let place = tables.place(shift, day);
            sum += at(self.worth, place).max(0.0) * f64::from(self.ranges.high(place));
        }
        sum
    }
}

/// Offers the splits of a shift that must be used: near the averaged duties, or in the middle of a wide range.
fn offer_opened(tables: &ShiftTables, view: &NodeView<'_>, choice: &mut Choice, shift: u16) {
    for day in 0..tables.days {
        let place = tables.place(shift, day);
        let low = view.ranges.low(place);
        let high = view.ranges.high(place);
        if high <= low {
            continue;
        }
        let heads = view.heads_at(place);
        let width = high.saturating_sub(low);
        let near = saturating_f64_to_u16(heads.floor())
            .min(high.saturating_sub(1))
            .max(low);
        let part = (heads - f64::from(near)).max(0.0).min(1.0);
        let distance = part.min(1.0 - part);
        let own = at(view.worth, place).abs() * f64::from(width);
        let m = if 4 < width {
            low.saturating_add(width / 2)
        } else {
            near
        };
        choice.offer(0.5 * own * (0.1 + distance), HeadSplit { shift, day, m });
    }
}

/// Offers the splits of a shift that needn't be used: none at all on a day, or some.
fn offer_unopened(tables: &ShiftTables, view: &NodeView<'_>, choice: &mut Choice, shift: u16) {
    let score = view.gain(tables, shift) * (0.2 + view.mass(tables, shift));
    for day in 0..tables.days {
        let place = tables.place(shift, day);
        if view.ranges.low(place) < view.ranges.high(place) {
            let more = 0.001 * view.heads_at(place);
            choice.offer(score + more, HeadSplit { shift, day, m: 0 });
        }
    }
}

/// The split that promises most, where `room` is by how much the node's value lacks what would close it. Shifts that may have
/// far more duties than they need are tightened first.
pub(crate) fn best_split(
    tables: &ShiftTables,
    view: &NodeView<'_>,
    room: f64,
) -> Option<HeadSplit> {
    if let Some(split) = tightened(tables, view, 0.05 * room) {
        return Some(split);
    }
    let mut choice = Choice::none();
    for shift in &tables.usable {
        if view.ranges.is_forced(tables, *shift) {
            offer_opened(tables, view, &mut choice, *shift);
        } else {
            offer_unopened(tables, view, &mut choice, *shift);
        }
    }
    choice.split()
}
