//! Parts of a report that were searched apart from one another, joined into it: the further proof lines of each are grafted in turn.
#![tactic(auto)]

mod fault;
mod joining;
mod judging;
mod numbers;
mod parts;
mod plans;
mod same_lines;

pub use fault::PartFault;
pub use joining::Joining;
