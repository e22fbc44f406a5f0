//! The rules of an instance said back in clock time, as sentences for the planner who wrote them in slots: each type by its
//! name, the need by day, the weights in words, the most employees of one shift, and from which weight of shortage on no slot
//! stays short.
#![tactic(auto)]

mod kinds;
mod needs;
mod saying;
mod telling;
mod times;
mod weights;
mod wrapping;

pub use kinds::{Clause, clauses, has_no_break};
pub use needs::{DayNeed, NeedRange, day_needs};
pub use saying::Said;
pub use telling::{rule_lines, rules_text, type_sentence};
pub use times::{Span, Spans, StartTime};
pub use weights::{Ratio, weight_sentence};
