//! Splits that lower the most duties of a shift.

use crate::splits::{Choice, HeadSplit, NodeView};
use shift_tables::{DutyPlace, ShiftTables};

/// How loose a day is: the averaged duties of shifts that needn't be used, and how many of these have fewer duties at most
/// than any shift may have.
fn looseness(tables: &ShiftTables, view: &NodeView<'_>, day: usize) -> f64 {
    let mut loose = 0.0;
    let mut lowered = 0.0;
    for shift in &tables.usable {
        if view.ranges.is_forced(tables, *shift) {
            continue;
        }
        let place = tables.place(*shift, day);
        let high = view.ranges.high(place);
        if 0 < high {
            loose += view.heads_at(place);
        }
        if usize::from(high) < tables.heads {
            lowered += 1.0;
        }
    }
    if 0.5 < loose {
        1000.0 + 100.0 * lowered + loose
    } else {
        loose
    }
}

/// The first day that is loosest.
fn focus(tables: &ShiftTables, view: &NodeView<'_>) -> usize {
    let mut best = 0;
    let mut most = -1.0;
    for day in 0..tables.days {
        let loose = looseness(tables, view, day);
        if most * 1.0001 < loose {
            most = loose;
            best = day;
        }
    }
    best
}

/// A window of slots, and the part of it that a duty works.
#[derive(Clone, Copy)]
struct Window {
    base: usize,
    len: usize,
    part: f64,
}

/// What one duty more than `m` costs at least at the prices.
fn cost_above(tables: &ShiftTables, view: &NodeView<'_>, window: Window, m: u16) -> f64 {
    let duties = (f64::from(m) + 1.0) * window.part;
    let mut cost = 0.0;
    for place in window.base..window.base.wrapping_add(window.len) {
        let slot = place.checked_rem(tables.slots).unwrap_or(0);
        let most = tables.need_max.get(slot).copied().unwrap_or(0);
        let price = view.prices.get(slot).copied().unwrap_or(0.0);
        cost += (tables.excess + price) * (duties - f64::from(most)).max(0.0);
    }
    cost
}

/// The part of its slots that a duty works.
fn working_part(place: &DutyPlace) -> f64 {
    1.0 - place.total / f64::from(place.len.max(1))
}

/// The least number, at most half of the greatest, above which duties of a shift on a day cost at least `least`.
fn least_costly(
    tables: &ShiftTables,
    view: &NodeView<'_>,
    shift: u16,
    day: usize,
    least: f64,
) -> Option<u16> {
    let place = tables.shifts.get(usize::from(shift))?;
    let window = Window {
        base: tables.base(shift, day),
        len: usize::from(place.len),
        part: working_part(place),
    };
    let most = view.ranges.high(tables.place(shift, day)) / 2;
    if cost_above(tables, view, window, most) < least {
        return None;
    }
    let mut low = 0;
    let mut high = most;
    for _ in 0..16 {
        if high <= low {
            break;
        }
        let middle = low.saturating_add(high.saturating_sub(low) / 2);
        if least <= cost_above(tables, view, window, middle) {
            high = middle;
        } else {
            low = middle.saturating_add(1);
        }
    }
    Some(low)
}

/// The split that lowers the most duties of a shift that needn't be used, on the loosest day, where more duties would cost at
/// least `least`; the one of greatest score.
pub(crate) fn tightened(
    tables: &ShiftTables,
    view: &NodeView<'_>,
    least: f64,
) -> Option<HeadSplit> {
    let day = focus(tables, view);
    let mut choice = Choice::none();
    for shift in &tables.usable {
        let shift = *shift;
        let place = tables.place(shift, day);
        let high = view.ranges.high(place);
        let heads = view.heads_at(place);
        let mass = view.mass(tables, shift);
        if high == 0 || heads < 0.01 || mass < 0.01 || view.ranges.is_forced(tables, shift) {
            continue;
        }
        if let Some(m) = least_costly(tables, view, shift, day, least) {
            let kept = 1.0 - f64::from(m) / f64::from(high);
            let score = view.gain(tables, shift) * (0.2 + mass) * kept + 0.001 * heads;
            choice.offer(score, HeadSplit { shift, day, m });
        }
    }
    choice.split()
}
