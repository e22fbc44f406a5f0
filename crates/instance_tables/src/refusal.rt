//! Refusals of tables.

use crate::columns::{Column, Table};
use crate::why::Why;
use std::alloc::{AllocError, AllocFailed, Global};
use std::error::Error;
use std::fmt;

/// The most bytes of a cell that a refusal shows.
const SHOWN_MOST: usize = 40;

/// Why a table is refused, and where.
#[derive(Debug, Drop)]
pub struct TableRefusal {
    /// The table.
    pub table: Table,
    /// The row, from 1 on, the names of the columns being row 1; none where it is about the whole table.
    pub row: Option<u64>,
    /// The column; none where it is about a whole row, or the column has no name.
    pub column: Option<Column>,
    /// What stands in the cell, as far as it is shown; none where it is about no cell.
    pub found: Option<String>,
    /// Why it is refused, and what may stand there.
    pub why: Why,
}

/// Why tables make no instance.
#[derive(Debug, Drop)]
pub enum ImportRefusal {
    /// A table is refused.
    Table(TableRefusal),
    /// No memory was left.
    NoMemory,
}

impl From<AllocError> for ImportRefusal {
    fn from(_refused: AllocError) -> ImportRefusal {
        ImportRefusal::NoMemory
    }
}

impl<T: Drop> From<AllocFailed<T>> for ImportRefusal {
    fn from(_refused: AllocFailed<T>) -> ImportRefusal {
        ImportRefusal::NoMemory
    }
}

impl TableRefusal {
    /// The refusal of a whole table.
    pub(crate) fn of_table(table: Table, why: Why) -> TableRefusal {
        TableRefusal {
            table,
            row: None,
            column: None,
            found: None,
            why,
        }
    }

    /// The refusal of a row.
    pub(crate) fn of_row(table: Table, row: u64, why: Why) -> TableRefusal {
        TableRefusal {
            table,
            row: Some(row),
            column: None,
            found: None,
            why,
        }
    }
}

/// A text as a refusal shows it: its first visible characters, with a question mark for every other one.
pub(crate) fn shown(alloc: Global, text: &str) -> Result<String, AllocError> {
    let mut shown = String::new(alloc);
    for letter in text.chars().take(SHOWN_MOST) {
        let visible = letter == ' ' || letter.is_ascii_graphic();
        shown.push(if visible { letter } else { '?' })?;
    }
    Ok(shown)
}

/// Writes what stands in a cell.
fn write_found<W: fmt::Write>(found: &str, f: &mut fmt::Formatter<W>) -> fmt::Result {
    if found.is_empty() {
        f.write_str("nothing stands there; ")
    } else {
        write!(f, "`{found}` stands there; ")
    }
}

impl fmt::Display for TableRefusal {
    /// Writes where it is, what stands there and what may stand there.
    fn fmt<W: fmt::Write>(&self, f: &mut fmt::Formatter<W>) -> fmt::Result {
        write!(f, "{}", self.table)?;
        if let Some(row) = self.row {
            write!(f, ", row {row}")?;
        }
        if let Some(column) = self.column {
            write!(f, ", column {column}")?;
        }
        f.write_str(": ")?;
        if let Some(found) = &self.found {
            write_found(found.as_str(), f)?;
        }
        write!(f, "{}", self.why)
    }
}

impl fmt::Display for ImportRefusal {
    fn fmt<W: fmt::Write>(&self, f: &mut fmt::Formatter<W>) -> fmt::Result {
        match self {
            ImportRefusal::Table(why) => write!(f, "{why}"),
            ImportRefusal::NoMemory => f.write_str("there is not enough memory"),
        }
    }
}

impl Error for TableRefusal {}

impl Error for ImportRefusal {}
