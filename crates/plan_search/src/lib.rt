//! Plans by annealing over the set of used shifts.
#![tactic(auto)]

mod boundaries;
mod chains;
mod chance;
mod changes;
mod copies;
mod days;
mod guide;
mod legs;
mod mixing;
mod nearness;
mod pool;
mod rows;
mod search;
mod sweeps;

pub use guide::Guide;
pub use search::PlanSearch;
