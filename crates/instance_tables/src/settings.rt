//! The settings of an instance, as a table has them.

use crate::cells::{Cell, Grid};
use crate::columns::{Column, Table};
use crate::refusal::{ImportRefusal, TableRefusal};
use crate::sheet::Sheet;
use crate::why::Why;
use std::alloc::Global;

/// The greatest weight.
const WEIGHT_MOST: u32 = 1_000_000;

/// The settings of an instance.
#[derive(Clone, Copy, Drop)]
pub(crate) struct Settings {
    /// The slots of a day.
    pub(crate) grid: Grid,
    /// The days of the planning period.
    pub(crate) days: u16,
    /// The cost of an employee too many in a slot.
    pub(crate) excess: u32,
    /// The cost of an employee too few in a slot.
    pub(crate) shortage: u32,
    /// The cost of a shift that is used.
    pub(crate) shift: u32,
    /// The most duties of one shift on one day.
    pub(crate) max_heads: u16,
}

/// The slots that a cell says how long they are.
fn grid_in(alloc: Global, cell: Cell) -> Result<Grid, ImportRefusal> {
    let (slot_minutes, day_slots) = match cell.text {
        "5" => (5, 288),
        "10" => (10, 144),
        "15" => (15, 96),
        "20" => (20, 72),
        "30" => (30, 48),
        "60" => (60, 24),
        _ => return Err(cell.refused(alloc, Why::SlotMinutes)),
    };
    Ok(Grid {
        slot_minutes,
        day_slots,
    })
}

/// The settings that a table states in its one row.
pub(crate) fn read_settings(alloc: Global, bytes: &[u8]) -> Result<Settings, ImportRefusal> {
    let sheet = Sheet::read(alloc, Table::Settings, bytes)?;
    let rows = sheet.rows(1)?;
    let Some(row) = rows.first() else {
        return Err(ImportRefusal::Table(TableRefusal::of_table(Table::Settings, Why::NoRows)));
    };
    let grid = grid_in(alloc, sheet.cell(row, Column::SlotMinutes))?;
    let days = sheet.cell(row, Column::Days).number(alloc, 1, 7)?;
    let excess = sheet
        .cell(row, Column::Excess)
        .number(alloc, 0, WEIGHT_MOST)?;
    let shortage = sheet
        .cell(row, Column::Shortage)
        .number(alloc, 0, WEIGHT_MOST)?;
    let shift = sheet
        .cell(row, Column::Shift)
        .number(alloc, 0, WEIGHT_MOST)?;
    let max_heads = sheet.cell(row, Column::MaxHeads).number(alloc, 1, 200)?;
    Ok(Settings {
        grid,
        days: days as u16,
        excess,
        shortage,
        shift,
        max_heads: max_heads as u16,
    })
}
