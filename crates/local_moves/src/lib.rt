//! Plans that change move by move, with their cost kept.
#![tactic(auto)]

mod applying;
mod changes;
mod copying;
mod done;
mod draft;
mod judging;
mod keeping;
mod moves;
mod order;
mod places;
mod reshifting;
mod undoing;

pub use changes::Change;
pub use done::Done;
pub use draft::Draft;
pub use moves::{Move, MoveFault};
