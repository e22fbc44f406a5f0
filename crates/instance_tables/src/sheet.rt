//! A table as it was read: its columns, and its rows as cells.

use crate::cells::Cell;
use crate::columns::{Column, Table};
use crate::refusal::{ImportRefusal, TableRefusal, shown};
use crate::splitting::cells_in;
use crate::why::Why;
use std::alloc::Global;
use std::str::from_utf8;

/// A row of a table.
#[derive(Drop)]
pub(crate) struct SheetRow {
    /// Its number, from 1 on, the names of the columns being row 1.
    pub(crate) number: u64,
    cells: Vec<String>,
}

impl SheetRow {
    /// The text of the cell at a place, which is empty where the row ends before.
    fn text_at(&self, place: usize) -> &str {
        match self.cells.as_slice().get(place) {
            Some(cell) => cell.as_str().trim(),
            None => "",
        }
    }
}

/// A table as it was read.
#[derive(Drop)]
pub(crate) struct Sheet {
    table: Table,
    /// The column of each place of a row, and none where it has no name.
    columns: Vec<Option<Column>>,
    rows: Vec<SheetRow>,
}

/// The text of a file without its byte order mark, and none where it isn't UTF-8 or has zero bytes, as UTF-16 has.
fn text_of(bytes: &[u8]) -> Option<&str> {
    if bytes.contains(&0) {
        return None;
    }
    let text = from_utf8(bytes).ok()?;
    Some(text.strip_prefix('\u{feff}').unwrap_or(text))
}

/// The cells of a line.
fn cells_of(
    alloc: Global,
    table: Table,
    number: u64,
    separator: char,
    line: &str,
) -> Result<Vec<String>, ImportRefusal> {
    match cells_in(alloc, separator, line)? {
        Some(cells) => Ok(cells),
        None => Err(ImportRefusal::Table(TableRefusal::of_row(table, number, Why::Quotes))),
    }
}

/// The text of a cell without blanks before and behind it, and none where it is empty.
fn text_in(cell: &String) -> Option<&str> {
    let text = cell.as_str().trim();
    if text.is_empty() { None } else { Some(text) }
}

/// Whether a cell of some cells holds more than blanks.
fn has_text(cells: &[String]) -> bool {
    for cell in cells {
        if text_in(cell).is_some() {
            return true;
        }
    }
    false
}

/// The column that a cell of the first line names.
fn column_of(alloc: Global, table: Table, cell: &String) -> Result<Option<Column>, ImportRefusal> {
    let Some(name) = text_in(cell) else {
        return Ok(None);
    };
    match table.column_named(name) {
        Some(column) => Ok(Some(column)),
        None => Err(ImportRefusal::Table(TableRefusal {
            table,
            row: Some(1),
            column: None,
            found: Some(shown(alloc, name)?),
            why: Why::UnknownColumn { table },
        })),
    }
}

/// The refusal of a column.
fn column_refused(table: Table, column: Column, why: Why) -> ImportRefusal {
    ImportRefusal::Table(TableRefusal {
        table,
        row: Some(1),
        column: Some(column),
        found: None,
        why,
    })
}

/// The columns that the cells of the first line name, each once.
fn named_columns(
    alloc: Global,
    table: Table,
    cells: &[String],
) -> Result<Vec<Option<Column>>, ImportRefusal> {
    let mut columns: Vec<Option<Column>> = Vec::new(alloc);
    for cell in cells {
        let column = column_of(alloc, table, cell)?;
        match column {
            Some(found) if columns.contains(&column) => {
                return Err(column_refused(table, found, Why::ColumnTwice));
            }
            _ => columns.push(column)?,
        }
    }
    Ok(columns)
}

/// The columns of a table by the cells of its first line: those that it must have are there.
fn columns_of(
    alloc: Global,
    table: Table,
    cells: &[String],
) -> Result<Vec<Option<Column>>, ImportRefusal> {
    let columns = named_columns(alloc, table, cells)?;
    for column in table.columns() {
        if table.must_have(*column) && !columns.contains(&Some(*column)) {
            return Err(column_refused(table, *column, Why::NoColumn));
        }
    }
    Ok(columns)
}

impl Sheet {
    /// The table that a file holds. Its first line has the names of the columns, in any order; cells are separated by semicolons where
    /// that line has one, and else by commas. Empty rows are passed over.
    pub(crate) fn read(alloc: Global, table: Table, bytes: &[u8]) -> Result<Sheet, ImportRefusal> {
        let Some(text) = text_of(bytes) else {
            return Err(ImportRefusal::Table(TableRefusal::of_table(table, Why::Encoding)));
        };
        let mut lines = text.lines();
        let first = lines.next().unwrap_or("");
        if first.is_empty() {
            return Err(ImportRefusal::Table(TableRefusal::of_table(table, Why::NoColumns)));
        }
        let separator = if first.contains(';') { ';' } else { ',' };
        let names = cells_of(alloc, table, 1, separator, first)?;
        let mut sheet = Sheet {
            table,
            columns: columns_of(alloc, table, names.as_slice())?,
            rows: Vec::new(alloc),
        };
        let mut number: u64 = 1;
        for line in lines {
            number = number.saturating_add(1);
            sheet.add_line(alloc, separator, number, line)?;
        }
        Ok(sheet)
    }

    /// Adds the row of a line, unless it is empty.
    fn add_line(
        &mut self,
        alloc: Global,
        separator: char,
        number: u64,
        line: &str,
    ) -> Result<(), ImportRefusal> {
        let cells = cells_of(alloc, self.table, number, separator, line)?;
        if has_text(cells.as_slice()) {
            self.see_places(alloc, number, cells.as_slice())?;
            self.rows.push(SheetRow { number, cells })?;
        }
        Ok(())
    }

    /// Refuses a row with a text in a place that no column has.
    fn see_places(
        &self,
        alloc: Global,
        number: u64,
        cells: &[String],
    ) -> Result<(), ImportRefusal> {
        for (place, cell) in cells.iter().enumerate() {
            let is_named = matches!(self.columns.as_slice().get(place), Some(Some(_)));
            match text_in(cell) {
                Some(text) if !is_named => {
                    return Err(ImportRefusal::Table(TableRefusal {
                        table: self.table,
                        row: Some(number),
                        column: None,
                        found: Some(shown(alloc, text)?),
                        why: Why::Beyond,
                    }));
                }
                _ => {}
            }
        }
        Ok(())
    }

    /// Refuses the first row behind so many, if there is one.
    pub(crate) fn see_most(&self, most: usize) -> Result<(), ImportRefusal> {
        match self.rows.as_slice().get(most) {
            Some(row) => Err(ImportRefusal::Table(TableRefusal::of_row(
                self.table,
                row.number,
                Why::TooManyRows { most: most as u64 },
            ))),
            None => Ok(()),
        }
    }

    /// Its rows, from the first; there is one at least, and there are at most so many.
    pub(crate) fn rows(&self, most: usize) -> Result<&[SheetRow], ImportRefusal> {
        self.see_most(most)?;
        if self.rows.is_empty() {
            return Err(ImportRefusal::Table(TableRefusal::of_table(self.table, Why::NoRows)));
        }
        Ok(self.rows.as_slice())
    }

    /// Its rows, from the first.
    pub(crate) fn every_row(&self) -> &[SheetRow] {
        self.rows.as_slice()
    }

    /// The cell of a row in a column, which is empty where the table hasn't that column or the row ends before.
    pub(crate) fn cell<'a>(&'a self, row: &'a SheetRow, column: Column) -> Cell<'a> {
        let place = self
            .columns
            .as_slice()
            .iter()
            .position(|found| *found == Some(column));
        let text = match place {
            Some(place) => row.text_at(place),
            None => "",
        };
        Cell {
            table: self.table,
            row: row.number,
            column,
            text,
        }
    }
}
