//! The breaks of a report's plan, planned anew as the words of a command line ask for it, and what is said of them.
#![tactic(auto)]

mod anew;
mod searching;
mod sentences;

pub use anew::{Rebroken, with_breaks};
pub use searching::{breaks_as_asked, refuse_without_rows};
pub use sentences::breaks_sentence;
