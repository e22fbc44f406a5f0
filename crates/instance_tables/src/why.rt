//! Why a table is refused, and what may stand where it is.

use crate::columns::{Column, Table};
use crate::hours::HoursMinutes;
use std::fmt;

/// Why a table is refused where it is. Times and spans are minutes.
#[derive(Clone, Copy, Debug, Drop)]
pub enum Why {
    /// The file is no text in UTF-8.
    Encoding,
    /// The file has no line of the names of columns.
    NoColumns,
    /// A column is none of the table's.
    UnknownColumn { table: Table },
    /// A column stands twice.
    ColumnTwice,
    /// A column that the table must have isn't there.
    NoColumn,
    /// A cell holds a line end, or its quotation marks don't end.
    Quotes,
    /// A cell stands where no column has a name.
    Beyond,
    /// There is no row below the names of the columns.
    NoRows,
    /// There are more rows than so many.
    TooManyRows { most: u64 },
    /// It is no whole number within these.
    Number { least: u32, most: u32 },
    /// It is no length that slots may have.
    SlotMinutes,
    /// It is no time or span.
    Span,
    /// It is a whole number without a colon, where breaks are spelled in hours and minutes.
    Bare,
    /// It isn't so many whole slots.
    Slots { slot_minutes: u16 },
    /// It isn't within these, as hours and minutes.
    Within { least: u64, most: u64 },
    /// It is no name of a type or a rule.
    Name,
    /// It stands in a row before.
    Twice { row: u64 },
    /// No row of `rules.csv` has this name.
    NoSuchRule,
    /// A day has no row for a time, though its rows come every so many minutes.
    Gap { day: u16, time: u64, step: u64 },
    /// It is more than what stands in another column of its row.
    Above { other: Column },
    /// Another column of its row needs it.
    NeededBy { other: Column },
    /// It is no list of break times by length.
    Totals,
    /// The lengths of the list don't rise.
    TotalsOrder,
    /// It is no list of lunches by length.
    Lunches,
    /// A lunch has no room in its window, or begins before the one before it ends.
    LunchOrder,
    /// It is more than a slot, or than the shortest work without a break.
    Resettle,
    /// The break rule has a part that is too large.
    TooLarge,
    /// All types have more than 1,024 shifts together.
    TooManyShifts { found: u64 },
    /// The numbers make no instance.
    Instance,
}

/// Writes the names of a table's columns.
fn write_columns<W: fmt::Write>(table: Table, f: &mut fmt::Formatter<W>) -> fmt::Result {
    let mut between = "";
    for column in table.columns() {
        write!(f, "{between}{column}")?;
        between = ", ";
    }
    Ok(())
}

/// Writes what is wrong with a file or its columns.
fn write_of_file<W: fmt::Write>(why: Why, f: &mut fmt::Formatter<W>) -> fmt::Result {
    match why {
        Why::Encoding => f.write_str("the file is no text in UTF-8: save it as CSV UTF-8"),
        Why::NoColumns => f.write_str(
            "the file is empty: its first line has the names of the columns",
        ),
        Why::UnknownColumn { table } => {
            f.write_str("the table has no such column; it has ")?;
            write_columns(table, f)
        }
        Why::ColumnTwice => f.write_str("this column stands twice"),
        Why::NoColumn => f.write_str("the first line must name this column"),
        Why::Quotes => f.write_str(
            "a cell holds a line end, or begins with a quotation mark that doesn't end: cells have neither",
        ),
        Why::Beyond => f.write_str("it stands in a column that the first line doesn't name"),
        Why::NoRows => f.write_str("there is no row below the names of the columns"),
        Why::TooManyRows { most: 1 } => f.write_str("the table has one row below the names"),
        Why::TooManyRows { most } => write!(f, "the table has at most {most} rows below the names"),
        _ => f.write_str("the numbers make no instance"),
    }
}

/// Writes what times and spans may stand in a cell.
fn write_of_span<W: fmt::Write>(why: Why, f: &mut fmt::Formatter<W>) -> fmt::Result {
    match why {
        Why::Span => f.write_str(
            "hours and minutes stand here, as 6:30, or hours with a decimal point or comma that are whole minutes, as 6.5",
        ),
        Why::Bare => f.write_str(
            "write it with a colon: 0:30 for half an hour, 30:00 for thirty hours",
        ),
        Why::Slots { slot_minutes } => write!(
            f,
            "a whole number of slots of {slot_minutes} minutes stands here, as 0:{}{} or 6:00",
            slot_minutes / 10 % 6,
            slot_minutes % 10
        ),
        Why::Within { least, most } => {
            let least = HoursMinutes { minutes: least };
            let most = HoursMinutes { minutes: most };
            write!(f, "it may be {least} to {most}")
        }
        _ => write_of_file(why, f),
    }
}

/// Writes what may stand in a cell of a break rule.
fn write_of_rule<W: fmt::Write>(why: Why, f: &mut fmt::Formatter<W>) -> fmt::Result {
    match why {
        Why::Totals => f.write_str(
            "at most 16 entries LENGTH=BREAKS with spaces between them stand here, as 4:00=0:15 8:00=1:00: from shifts of 4 hours on a quarter of an hour of breaks in all, from 8 hours on an hour",
        ),
        Why::TotalsOrder => f.write_str("the lengths must rise from entry to entry"),
        Why::Lunches => f.write_str(
            "one or two entries LENGTH=LUNCH@FROM-TO stand here, as 8:00=0:30@3:00-5:30: in shifts from 8 hours on a lunch of half an hour that begins 3 hours after the start or later and ends 5 hours and a half after it or earlier",
        ),
        Why::LunchOrder => f.write_str(
            "a lunch must fit between its FROM and its TO, and begin when the one before it has ended or later",
        ),
        Why::Resettle => f.write_str("it may be 0:00 or one slot, and no more than work_min"),
        Why::TooLarge => f.write_str("the rule has a part that is too large"),
        _ => write_of_span(why, f),
    }
}

impl fmt::Display for Why {
    /// Writes what may stand there.
    fn fmt<W: fmt::Write>(&self, f: &mut fmt::Formatter<W>) -> fmt::Result {
        match self {
            Why::Number { least, most } => write!(
                f,
                "a whole number from {least} to {most} stands here"
            ),
            Why::SlotMinutes => f.write_str("a slot has 5, 10, 15, 20, 30 or 60 minutes"),
            Why::Name => f.write_str(
                "a name has 1 to 32 visible characters of ASCII, and no space",
            ),
            Why::Twice { row } => write!(f, "it stands in row {row} too"),
            Why::NoSuchRule => f.write_str(
                "no row of rules.csv has this name; a type without breaks leaves the cell empty",
            ),
            Why::Gap { day, time, step } => {
                let time = HoursMinutes { minutes: *time };
                let step = HoursMinutes { minutes: *step };
                write!(
                    f,
                    "day {day} has no row for {time}: a day has a row at every step from 0:00 on (here {step}), with need 0 where nobody is wanted"
                )
            }
            Why::Above { other } => write!(f, "it may not be above {other} of the same row"),
            Why::NeededBy { other } => write!(f, "where {other} isn't empty, this isn't either"),
            Why::TooManyShifts { found } => write!(
                f,
                "the types have {found} shifts together, and may have 1,024: of each type the starts times the lengths, slot by slot"
            ),
            _ => write_of_rule(*self, f),
        }
    }
}
