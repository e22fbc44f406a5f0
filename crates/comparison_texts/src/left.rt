//! The rows of a plan that another instance doesn't take, and why.

use break_rules::NoMemory;
use carried_rows::{Obstacle, obstacle_of};
use plan_tables::Period;
use shift_instance::{Instance, Row, Rows};
use std::alloc::Global;

/// The most rows that are told one by one.
const TOLD: usize = 20;

/// Why a row isn't kept, as the end of a sentence.
fn why(obstacle: Obstacle) -> &'static str {
    match obstacle {
        Obstacle::Slots => "the slots of the two instances aren't equally long",
        Obstacle::Name => "no type has this name any more",
        Obstacle::Start => "its type has no shift any more that starts then",
        Obstacle::Length => "its type has no shift of this length any more",
        Obstacle::Day => "the planning period doesn't have this day any more",
        Obstacle::Breaks => "its breaks aren't legal any more",
    }
}

/// The name of a shift's type.
fn name_of(instance: &Instance, kind: u16) -> &str {
    let parts = instance.parts();
    match parts.types.as_slice().get(usize::from(kind)) {
        Some(kind) => kind.name.as_str(),
        None => "?",
    }
}

/// What is said of so many duties of a row that aren't kept.
fn left_line(
    alloc: Global,
    old: &Instance,
    row: &Row,
    count: u32,
    cause: &str,
) -> Result<Option<String>, NoMemory> {
    let Some(shift) = old.shifts().get(usize::from(row.shift)) else {
        return Ok(None);
    };
    let name = name_of(old, shift.kind);
    let time = Period::of_slots(old, u32::from(shift.start), shift.len);
    let day = u16::from(row.day) + 1;
    let line = format!(in alloc; "{count} of {name} on day {day}, {time}: {cause}")?;
    Ok(Some(line))
}

/// What keeps a row from being kept, if anything does.
fn obstacle_to(old: &Instance, new: &Instance, row: &Row) -> Option<Obstacle> {
    if old.shifts().len() <= usize::from(row.shift) {
        return None;
    }
    obstacle_of(old, new, row)
}

/// How many duties of a row the `max_heads` of the new instance leaves no room for, behind the rows before it.
fn crowded(old: &Instance, new: &Instance, before: &[Row], row: &Row) -> u32 {
    let mut room = u32::from(new.heads());
    for other in before {
        let is_beside = other.shift == row.shift && other.day == row.day;
        if is_beside && obstacle_to(old, new, other).is_none() {
            room = room.saturating_sub(u32::from(other.count));
        }
    }
    u32::from(row.count).saturating_sub(room)
}

/// How many duties of a row aren't kept, and why; 0 where all are.
fn left(old: &Instance, new: &Instance, before: &[Row], row: &Row) -> (u32, &'static str) {
    match obstacle_to(old, new, row) {
        Some(obstacle) => (u32::from(row.count), why(obstacle)),
        None => (
            crowded(old, new, before, row),
            "max_heads leaves no room for more duties of this shift any more",
        ),
    }
}

/// Adds what is said of a row, if it isn't kept whole.
fn add_left(
    alloc: Global,
    lines: &mut Vec<String>,
    old: &Instance,
    new: &Instance,
    before: &[Row],
    row: &Row,
) -> Result<(), NoMemory> {
    let (count, cause) = left(old, new, before, row);
    if count == 0 {
        return Ok(());
    }
    if let Some(line) = left_line(alloc, old, row, count, cause)? {
        lines.push(line)?;
    }
    Ok(())
}

/// What is said of each row of a plan of the old instance that a plan of the new one can't have whole: the first rows one by one, and how
/// many there are beyond.
pub fn left_lines(
    alloc: Global,
    old: &Instance,
    new: &Instance,
    rows: &Rows,
) -> Result<Vec<String>, NoMemory> {
    let mut lines = Vec::new(alloc);
    for (k, row) in rows.as_slice().iter().enumerate() {
        let before = rows.as_slice().get(..k).unwrap_or(&[]);
        add_left(alloc, &mut lines, old, new, before, row)?;
    }
    let beyond = lines.len().saturating_sub(TOLD);
    if beyond != 0 {
        lines.truncate(TOLD);
        lines.push(format!(in alloc; "and {beyond} rows more")?)?;
    }
    Ok(lines)
}
