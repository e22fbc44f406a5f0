//! Rows as duties of a working plan, and back.

use break_rules::{Breaks, NoMemory};
use shift_instance::{Row, Rows};
use shift_tables::{Pauses, ShiftTables};
use std::alloc::Global;
use working_plan::{Placed, Plan};

/// Adds the duties of a row to a list, and says whether it could: a duty of too many breaks has no place in a working plan.
fn add_row(list: &mut Vec<Placed>, row: &Row) -> Result<bool, NoMemory> {
    let Some(pauses) = Pauses::of(row.breaks.as_slice()) else {
        return Ok(false);
    };
    let placed = Placed {
        shift: row.shift,
        day: usize::from(row.day),
        pauses,
    };
    for _ in 0..row.count {
        list.push(placed)?;
    }
    Ok(true)
}

/// The duties of rows, in their order; none where one of them has too many breaks.
pub fn placed_of(alloc: Global, rows: &Rows) -> Result<Option<Vec<Placed>>, NoMemory> {
    let mut list = Vec::new(alloc);
    for row in rows.as_slice() {
        if !add_row(&mut list, row)? {
            return Ok(None);
        }
    }
    Ok(Some(list))
}

/// The working plan of some duties.
pub fn plan_of(alloc: Global, tables: &ShiftTables, placed: &[Placed]) -> Result<Plan, NoMemory> {
    let mut plan = Plan::new(alloc, tables)?;
    for one in placed {
        plan.put(tables, one)?;
    }
    Ok(plan)
}

/// The row of some duties that are alike.
fn row_of(alloc: Global, placed: &Placed, count: u16) -> Result<Row, NoMemory> {
    Ok(Row {
        shift: placed.shift,
        day: u8::try_from(placed.day).unwrap_or(u8::MAX),
        breaks: Breaks::new(Vec::from_slice(alloc, placed.pauses.as_slice())?),
        count,
    })
}

/// The rows of a working plan, in their order.
pub fn rows_of(alloc: Global, tables: &ShiftTables, plan: &Plan) -> Result<Rows, NoMemory> {
    let mut sorted = Vec::new(alloc);
    plan.list_into(tables, &mut sorted)?;
    sorted.sort_unstable();
    let mut rows = Vec::new(alloc);
    let mut count = 0u16;
    for (k, placed) in sorted.iter().enumerate() {
        count = count.saturating_add(1);
        if sorted.get(k.wrapping_add(1)) != Some(placed) {
            rows.push(row_of(alloc, placed, count)?)?;
            count = 0;
        }
    }
    Ok(Rows::new(rows))
}
