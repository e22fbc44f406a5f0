//! The rota of a plan, to be hung up: a line of comma-separated values for each duty.
#![tactic(auto)]

mod fields;
mod lines;

pub use lines::rota_csv;
