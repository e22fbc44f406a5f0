//! Shift types, as a table has them.

use crate::cells::{Cell, Grid};
use crate::columns::{Column, Table};
use crate::refusal::{ImportRefusal, TableRefusal};
use crate::rules::{RuleTable, rule_in};
use crate::sheet::{Sheet, SheetRow};
use crate::why::Why;
use shift_instance::{InstanceFault, TypeParts};
use std::alloc::{AllocError, Global};
use std::str::from_utf8;

/// The most types.
const TYPES_MOST: usize = 16;

/// The shift types that a table states.
#[derive(Drop)]
pub(crate) struct TypeTable {
    sheet: Sheet,
}

/// A name as a text.
fn name_text(alloc: Global, name: &[u8]) -> Result<String, AllocError> {
    // names are visible ASCII
    String::from_str(alloc, from_utf8(name).unwrap_or(""))
}

/// The slot of the time that a cell spells, on the day of a duty or the day after.
fn start_in(alloc: Global, grid: Grid, cell: Cell) -> Result<u16, ImportRefusal> {
    let minutes = cell.minutes(alloc)?;
    let most = grid.day_slots.saturating_mul(2).saturating_sub(1);
    cell.slots(alloc, grid, minutes, 0, most)
}

/// The slots of the length that a cell spells.
fn length_in(alloc: Global, grid: Grid, cell: Cell) -> Result<u16, ImportRefusal> {
    let minutes = cell.minutes(alloc)?;
    cell.slots(alloc, grid, minutes, 1, grid.day_slots)
}

impl TypeTable {
    /// The shift types that a table states.
    pub(crate) fn read(alloc: Global, bytes: &[u8]) -> Result<TypeTable, ImportRefusal> {
        let sheet = Sheet::read(alloc, Table::Types, bytes)?;
        let _rows = sheet.rows(TYPES_MOST)?;
        Ok(TypeTable { sheet })
    }

    /// The number of the row, before a row, that has a name.
    fn named_before(&self, row: &SheetRow, name: &[u8]) -> Option<u64> {
        for before in self.sheet.every_row() {
            if before.number == row.number {
                return None;
            }
            let cell = self.sheet.cell(before, Column::Name);
            if table_records::unguarded(cell.text.as_bytes()) == name {
                return Some(before.number);
            }
        }
        None
    }

    /// The name of the type of a row, which no row before it has.
    fn name(&self, alloc: Global, row: &SheetRow) -> Result<String, ImportRefusal> {
        let cell = self.sheet.cell(row, Column::Name);
        let name = cell.name(alloc)?;
        match self.named_before(row, name) {
            Some(before) => Err(cell.refused(alloc, Why::Twice { row: before })),
            None => Ok(name_text(alloc, name)?),
        }
    }

    /// The type of a row.
    fn kind(
        &self,
        alloc: Global,
        grid: Grid,
        rules: Option<&RuleTable>,
        row: &SheetRow,
    ) -> Result<TypeParts, ImportRefusal> {
        let sheet = &self.sheet;
        Ok(TypeParts {
            name: self.name(alloc, row)?,
            start_min: start_in(alloc, grid, sheet.cell(row, Column::FirstStart))?,
            start_max: start_in(alloc, grid, sheet.cell(row, Column::LastStart))?,
            len_min: length_in(alloc, grid, sheet.cell(row, Column::Shortest))?,
            len_max: length_in(alloc, grid, sheet.cell(row, Column::Longest))?,
            rule: rule_in(alloc, rules, sheet.cell(row, Column::Rule))?,
        })
    }

    /// The types, from the first row on.
    pub(crate) fn kinds(
        &self,
        alloc: Global,
        grid: Grid,
        rules: Option<&RuleTable>,
    ) -> Result<Vec<TypeParts>, ImportRefusal> {
        let mut kinds = Vec::new(alloc);
        for row in self.sheet.every_row() {
            kinds.push(self.kind(alloc, grid, rules, row)?)?;
        }
        Ok(kinds)
    }

    /// The refusal of a cell of a type, by its number.
    fn refused(&self, alloc: Global, kind: u16, column: Column, why: Why) -> ImportRefusal {
        match self.sheet.every_row().get(usize::from(kind)) {
            Some(row) => self.sheet.cell(row, column).refused(alloc, why),
            None => ImportRefusal::Table(TableRefusal::of_table(Table::Types, why)),
        }
    }

    /// The refusal for a fault of the instance that the tables make.
    pub(crate) fn refusal_of(&self, alloc: Global, fault: InstanceFault) -> ImportRefusal {
        match fault {
            InstanceFault::NoMemory => ImportRefusal::NoMemory,
            InstanceFault::StartRange { kind } => {
                let other = Column::LastStart;
                self.refused(alloc, kind, Column::FirstStart, Why::Above { other })
            }
            InstanceFault::LengthRange { kind } => {
                let other = Column::Longest;
                self.refused(alloc, kind, Column::Shortest, Why::Above { other })
            }
            InstanceFault::TooManyShifts { found } => {
                let why = Why::TooManyShifts { found };
                ImportRefusal::Table(TableRefusal::of_table(Table::Types, why))
            }
            // all other faults were refused where their cells were read
            _ => ImportRefusal::Table(TableRefusal::of_table(Table::Types, Why::Instance)),
        }
    }
}
