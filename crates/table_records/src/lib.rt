//! Records of comma-separated values, and texts in them that no spreadsheet calculates.
#![tactic(auto)]

mod guarding;
pub mod laws;
mod records;

pub use guarding::{guarded, unguarded};
pub use records::Records;
