//! Sums of slot prices along a shift, by which what a stretch of work earns is the difference of two of them.
#![tactic(auto)]

mod days;
mod lanes;
mod sums;

pub use days::{DaySums, LANES, Lane};
pub use lanes::{lane_at, lane_difference, lane_total, raise_lane};
pub use sums::{price_sums, resumption, sum_before};
