//! What a search reads of an instance again and again, laid flat: the windows of its shifts, and the graphs of their break
//! lists. Nothing is claimed of it: whoever takes a plan or prices from a search judges them.
#![tactic(auto)]

mod bonuses;
mod lists;
mod tables;

pub use bonuses::{Bonus, Found, begins_with, bonus_of};
pub use lists::{LANES, Lane, ListGraph, PAUSES, Pauses};
pub use tables::{DutyPlace, LostWork, ShiftTables};
