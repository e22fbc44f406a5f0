//! What workers of a search ask an adviser, what they are advised, what every adviser is, and what asks a search to stop.
#![tactic(auto)]

mod advice;
mod adviser;
mod stop;

pub use advice::{Advice, Ask, Splitting};
pub use adviser::{Adviser, Told};
pub use stop::{Never, Stop};
