//! Which rows are legal, and what they cost.
#![tactic(auto)]

ghost use Rattle.std.specs.Prelude.{◌≡◌};
ghost use Rattle.rota_cost.specs.RowFaults.{row_of};

mod costed;
mod cover;
mod covered;
mod judging;
mod laws;
mod recounting;

pub use costed::{Costed, cost_rows};
pub use cover::Cover;
pub use judging::{is_before, legal_rows};
pub use laws::{cost_knows_no_order, costs_below_top};
pub use recounting::recount;
use std::error::Error;
use std::fmt;

/// Why rows aren't legal. A `row` is the number of the bad row, from 0 on.
#[derive(Clone, Copy, Debug, PartialEq, Eq, Drop)]
pub enum RowFault {
    /// The shift isn't in the shift list.
    UnknownShift { row: u64 },
    /// The day isn't one of the planning period.
    Day { row: u64 },
    /// The breaks aren't legal for the shift.
    Breaks { row: u64 },
    /// The count is 0.
    ZeroCount { row: u64 },
    /// The rows up to this one have more duties of its shift and day than one shift may have on one day.
    HeadsOver { row: u64 },
    /// The row doesn't come after the one before it, by shift, then by day, then by break list.
    NotSorted { row: u64 },
}

impl RowFault {
    /// The number of the bad row, from 0 on.
    pub fn row(self) -> u64
        ensures { result ≡ row_of self }
    {
        match self {
            RowFault::UnknownShift { row } => row,
            RowFault::Day { row } => row,
            RowFault::Breaks { row } => row,
            RowFault::ZeroCount { row } => row,
            RowFault::HeadsOver { row } => row,
            RowFault::NotSorted { row } => row,
        }
    }
}

impl fmt::Display for RowFault {
    ghost use Rattle.std.specs.Prelude.{Some};
    ghost use Rattle.rota_cost.specs.FaultText.{row_fault_text};

    ghost output = { λ e. Some (row_fault_text e) };

    /// Writes the fault's number, a space and the row's number.
    fn fmt<W: fmt::Write>(&self, f: &mut fmt::Formatter<W>) -> fmt::Result {
        match self {
            RowFault::UnknownShift { row } => write!(f, "1 {row}"),
            RowFault::Day { row } => write!(f, "2 {row}"),
            RowFault::Breaks { row } => write!(f, "3 {row}"),
            RowFault::ZeroCount { row } => write!(f, "4 {row}"),
            RowFault::HeadsOver { row } => write!(f, "5 {row}"),
            RowFault::NotSorted { row } => write!(f, "6 {row}"),
        }
    }
}

impl Error for RowFault {}
