//! The breaks of a plan, planned anew: each shift keeps its number of duties on each day, and no more than their breaks changes.
#![tactic(auto)]

mod planning;

pub use planning::{Anew, planned_anew};
