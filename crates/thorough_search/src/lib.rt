//! The adviser that searches thoroughly: prices by a climb along rays, plans by annealing over the set of used shifts, and the
//! split that promises most.
#![tactic(auto)]

mod adviser;
mod kept;
mod pacing;
mod prices;
mod sharing;
mod splits;
mod tightening;

pub use adviser::Thorough;
pub use pacing::Budget;
