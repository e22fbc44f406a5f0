//! Which shifts are near one another.

use break_rules::NoMemory;
use shift_tables::ShiftTables;
use std::alloc::Global;

/// The shifts near each shift.
#[derive(Drop)]
pub(crate) struct Nearness {
    lists: Vec<Vec<u16>>,
}

/// Whether both ends of two shifts are within 2 slots, or one end is equal and the other within 6.
fn is_near(tables: &ShiftTables, a: u16, b: u16) -> bool {
    let (Some(x), Some(y)) = (
        tables.shifts.get(usize::from(a)),
        tables.shifts.get(usize::from(b)),
    ) else {
        return false;
    };
    let starts = x.start.abs_diff(y.start);
    let end = x.start.saturating_add(x.len);
    let ends = end.abs_diff(y.start.saturating_add(y.len));
    a != b
        && ((starts <= 2 && ends <= 2) || (starts == 0 && ends <= 6) || (ends == 0 && starts <= 6))
}

/// The usable shifts near one.
fn near_to(alloc: Global, tables: &ShiftTables, shift: u16) -> Result<Vec<u16>, NoMemory> {
    let mut list = Vec::new(alloc);
    for other in &tables.usable {
        if is_near(tables, shift, *other) {
            list.push(*other)?;
        }
    }
    Ok(list)
}

impl Nearness {
    /// Which shifts are near one another.
    pub(crate) fn new(alloc: Global, tables: &ShiftTables) -> Result<Nearness, NoMemory> {
        let mut lists = Vec::new(alloc);
        for shift in 0..tables.shift_count() {
            let shift = u16::try_from(shift).unwrap_or(u16::MAX);
            lists.push(near_to(alloc, tables, shift)?)?;
        }
        Ok(Nearness { lists })
    }

    /// The shifts near one.
    pub(crate) fn of(&self, shift: u16) -> &[u16] {
        match self.lists.get(usize::from(shift)) {
            Some(list) => list.as_slice(),
            None => &[],
        }
    }
}
