//! A search for a plan as the words of a command line ask for it: its document and its journal, the older plan of which it keeps what it can,
//! its advisers, and what is said of it on standard error.
#![tactic(auto)]

mod advising;
mod before;
mod journals;
mod keeping;
mod reading;
mod refused;
mod searching;
mod telling;

pub use before::Before;
pub use journals::{Journals, locked_journal};
pub use keeping::{Older, older_plan, rows_in};
pub use reading::{Read, judged, plan_for, plan_in, read_instance};
pub use searching::search_as_asked;
pub use telling::{hours_wanted, notes_of, say_rules, tell_notes};
