//! How one plan differs from another, day by day.
#![tactic(auto)]

mod comparing;

pub use comparing::{DayChanges, changes, duties_on, kept_duties, kept_on};
