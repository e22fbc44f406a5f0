//! Cheaper breaks for the duties of a plan, which keep their shifts and days, and the adviser whose plans have such breaks.
//!
//! Nothing is claimed of the plans: whoever takes one judges it.
#![tactic(auto)]

mod adviser;
mod breaking;
mod chance;
mod moves;
mod walk;

pub use adviser::Rebreaking;
