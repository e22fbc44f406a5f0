//! The sums of a bound: what the prices of slots and cuts and the duties of shifts add to the total of a price set, by the
//! values of the shifts' duties, which whoever bounds finds in a way of its own.
#![tactic(auto)]

mod bounds;
mod changes;
mod kept;
mod prices;
mod terms;
mod totals;

pub use bounds::{DayValues, bound_by, values_of_lane};
pub use kept::{KeptValues, has_prefix_cut};
pub use prices::{is_cut_price, is_slot_price, signed_price};
