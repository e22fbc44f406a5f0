//! The lists of a break rule, as cells spell them.

use crate::cells::{Cell, Grid};
use crate::refusal::ImportRefusal;
use crate::spans::span_in;
use crate::why::Why;
use break_rules::{Lunch, Lunches, Totals};
use std::alloc::Global;

/// The greatest length of a rule, in slots.
const LENGTH_MOST: u16 = 288;

/// The greatest length of a break, in slots.
const BREAK_MOST: u16 = 48;

/// The most entries of break times.
const TOTALS_MOST: usize = 16;

/// The most lunches.
const LUNCHES_MOST: usize = 2;

/// The slots that a part of an entry spells, at most so many. The cell is refused where it spells none.
fn part_in(
    alloc: Global,
    cell: Cell,
    grid: Grid,
    text: &str,
    most: u16,
    why: Why,
) -> Result<u16, ImportRefusal> {
    match span_in(text) {
        Some(span) if !span.is_bare => cell.slots(alloc, grid, span.minutes, 0, most),
        _ => Err(cell.refused(alloc, why)),
    }
}

/// An entry of break times: `8:00=1:00`.
fn total_in(
    alloc: Global,
    cell: Cell,
    grid: Grid,
    entry: &str,
) -> Result<(u16, u16), ImportRefusal> {
    let Some((from, breaks)) = entry.split_once('=') else {
        return Err(cell.refused(alloc, Why::Totals));
    };
    let from = part_in(alloc, cell, grid, from, LENGTH_MOST, Why::Totals)?;
    let breaks = part_in(alloc, cell, grid, breaks, BREAK_MOST, Why::Totals)?;
    Ok((from, breaks))
}

/// The break times by length that a cell lists.
pub(crate) fn totals_in(alloc: Global, cell: Cell, grid: Grid) -> Result<Totals, ImportRefusal> {
    let mut totals = Vec::new(alloc);
    for entry in cell.text.split_whitespace() {
        if TOTALS_MOST <= totals.len() {
            return Err(cell.refused(alloc, Why::Totals));
        }
        totals.push(total_in(alloc, cell, grid, entry)?)?;
    }
    Ok(Totals::new(totals))
}

/// An entry of lunches: `8:00=0:30@3:00-5:30`.
fn lunch_in(alloc: Global, cell: Cell, grid: Grid, entry: &str) -> Result<Lunch, ImportRefusal> {
    let Some((from, behind)) = entry.split_once('=') else {
        return Err(cell.refused(alloc, Why::Lunches));
    };
    let Some((size, window)) = behind.split_once('@') else {
        return Err(cell.refused(alloc, Why::Lunches));
    };
    let Some((first, last)) = window.split_once('-') else {
        return Err(cell.refused(alloc, Why::Lunches));
    };
    Ok(Lunch {
        from_len: part_in(alloc, cell, grid, from, LENGTH_MOST, Why::Lunches)?,
        size: part_in(alloc, cell, grid, size, BREAK_MOST, Why::Lunches)?,
        first: part_in(alloc, cell, grid, first, LENGTH_MOST, Why::Lunches)?,
        last: part_in(alloc, cell, grid, last, LENGTH_MOST, Why::Lunches)?,
    })
}

/// The lunches by length that a cell lists.
pub(crate) fn lunches_in(alloc: Global, cell: Cell, grid: Grid) -> Result<Lunches, ImportRefusal> {
    let mut lunches = Vec::new(alloc);
    for entry in cell.text.split_whitespace() {
        if LUNCHES_MOST <= lunches.len() {
            return Err(cell.refused(alloc, Why::Lunches));
        }
        lunches.push(lunch_in(alloc, cell, grid, entry)?)?;
    }
    Ok(Lunches::new(lunches))
}
