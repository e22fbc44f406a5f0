//! Plans as people read them: what a plan adds up to, and its duties and its slots as tables of comma-separated values.
#![tactic(auto)]

mod attendance;
mod columns;
mod costliest;
mod duty_lines;
mod starting;
mod summary;
mod summary_lines;
mod tables;
mod tallies;
mod times;

pub use attendance::Attendance;
pub use costliest::CostlySlot;
pub use duty_lines::duties_table;
pub use starting::rows_by_start;
pub use summary::{COSTLIEST, CostPart, DaySummary, Summary};
pub use summary_lines::summary_text;
pub use tables::{cover_csv, day_number, duties_csv};
pub use tallies::{Totals, day_slots};
pub use times::{ClockTime, Hours, Period};
