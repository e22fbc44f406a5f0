//! The need of an instance, as a table has it.

use crate::cells::{Cell, Grid};
use crate::columns::{Column, Table};
use crate::refusal::{ImportRefusal, TableRefusal};
use crate::settings::Settings;
use crate::sheet::{Sheet, SheetRow};
use crate::why::Why;
use std::alloc::Global;

/// The greatest need of a slot.
const NEED_MOST: u32 = 10_000;

/// What a row says of the slot from which on it holds.
#[derive(Clone, Copy, Drop)]
struct Said {
    /// The number of the row.
    row: u64,
    /// The wanted employees.
    band: Band,
}

/// The wanted employees of a slot.
#[derive(Clone, Copy, Drop)]
struct Band {
    /// The least.
    need: u32,
    /// The most.
    need_max: u32,
}

/// The wanted employees of each slot of the planning period.
#[derive(Drop)]
pub(crate) struct Bands {
    /// The least of each slot.
    pub(crate) need: Vec<u32>,
    /// The most of each slot.
    pub(crate) need_max: Vec<u32>,
}

/// The wanted employees of a row. The most are the least where their cell is empty.
fn band_in(alloc: Global, sheet: &Sheet, row: &SheetRow) -> Result<Band, ImportRefusal> {
    let need = sheet.cell(row, Column::Need).number(alloc, 0, NEED_MOST)?;
    let most = sheet.cell(row, Column::NeedMax);
    let need_max = if most.text.is_empty() {
        need
    } else {
        most.number(alloc, need, NEED_MOST)?
    };
    Ok(Band { need, need_max })
}

/// The slot of a day at the time that a cell spells, counted from 0.
fn slot_in(alloc: Global, grid: Grid, cell: Cell) -> Result<u16, ImportRefusal> {
    let minutes = cell.minutes(alloc)?;
    cell.slots(alloc, grid, minutes, 0, grid.day_slots.saturating_sub(1))
}

/// Notes what a row says at the slot from which on it holds.
fn note_row(
    alloc: Global,
    said: &mut [Option<Said>],
    settings: &Settings,
    sheet: &Sheet,
    row: &SheetRow,
) -> Result<(), ImportRefusal> {
    let day = sheet
        .cell(row, Column::Day)
        .number(alloc, 1, u32::from(settings.days))?;
    let time = sheet.cell(row, Column::Time);
    let slot = slot_in(alloc, settings.grid, time)?;
    let band = band_in(alloc, sheet, row)?;
    let days = u64::from(day - 1);
    let at = days
        .saturating_mul(u64::from(settings.grid.day_slots))
        .saturating_add(u64::from(slot));
    match said.get_mut(at as usize) {
        Some(place) => {
            if let Some(before) = *place {
                let why = Why::Twice { row: before.row };
                return Err(time.refused(alloc, why));
            }
            *place = Some(Said {
                row: row.number,
                band,
            });
            Ok(())
        }
        // days and slots are within the period
        None => Err(time.refused(alloc, Why::Instance)),
    }
}

/// Whether all rows of a day stand at multiples of so many slots.
fn stand_at(day: &[Option<Said>], step: usize) -> bool {
    let mut left = 0;
    for said in day {
        if said.is_some() && left != 0 {
            return false;
        }
        left = if left == 0 {
            step.saturating_sub(1)
        } else {
            left - 1
        };
    }
    true
}

/// The most slots that divide a day and at whose multiples all its rows stand.
fn step_of(day: &[Option<Said>]) -> usize {
    let slots = day.len();
    for less in 0..slots {
        let step = slots - less;
        if slots % step == 0 && stand_at(day, step) {
            return step;
        }
    }
    1
}

/// Adds the wanted employees of a day, each row's as long as a step lasts. The first step that has no row is refused.
fn add_day(
    bands: &mut Bands,
    grid: Grid,
    number: u16,
    day: &[Option<Said>],
) -> Result<(), ImportRefusal> {
    let step = step_of(day);
    let slot_minutes = u64::from(grid.slot_minutes);
    let mut left = 0;
    let mut wanted = Band {
        need: 0,
        need_max: 0,
    };
    let mut time: u64 = 0;
    for said in day {
        match said {
            Some(said) => wanted = said.band,
            None if left == 0 => {
                let why = Why::Gap {
                    day: number,
                    time,
                    step: (step as u64).saturating_mul(slot_minutes),
                };
                return Err(ImportRefusal::Table(TableRefusal::of_table(Table::Need, why)));
            }
            None => {}
        }
        left = if left == 0 {
            step.saturating_sub(1)
        } else {
            left - 1
        };
        time = time.saturating_add(slot_minutes);
        bands.need.push(wanted.need)?;
        bands.need_max.push(wanted.need_max)?;
    }
    Ok(())
}

/// What the rows of a table say, slot by slot of the planning period.
fn said_by(
    alloc: Global,
    settings: &Settings,
    sheet: &Sheet,
) -> Result<Vec<Option<Said>>, ImportRefusal> {
    let slots = u64::from(settings.days) * u64::from(settings.grid.day_slots);
    let mut said = vec![in alloc; None; slots as usize]?;
    for row in sheet.rows(usize::MAX)? {
        note_row(alloc, said.as_mut_slice(), settings, sheet, row)?;
    }
    Ok(said)
}

/// The wanted employees of each slot that a table states.
///
/// A row holds from its time on for a step, the same for all rows of a day: a slot, or several where rows are farther apart. A day has a
/// row at every step, so that what was forgotten isn't filled in silence. Rows stand in any order.
pub(crate) fn read_need(
    alloc: Global,
    settings: &Settings,
    bytes: &[u8],
) -> Result<Bands, ImportRefusal> {
    let sheet = Sheet::read(alloc, Table::Need, bytes)?;
    let said = said_by(alloc, settings, &sheet)?;
    let per_day = usize::from(settings.grid.day_slots.max(1));
    let mut bands = Bands {
        need: Vec::new(alloc),
        need_max: Vec::new(alloc),
    };
    let mut number: u16 = 0;
    for day in said.as_slice().chunks(per_day) {
        number = number.saturating_add(1);
        add_day(&mut bands, settings.grid, number, day)?;
    }
    Ok(bands)
}
