//! The best break list of a duty at given prices.
#![tactic(auto)]

mod anew;
mod around;
mod beginnings;
mod day_lists;
mod day_value;
mod day_values;
mod days;
mod found;
mod layer_rests;
mod layered_days;
mod rests;
mod search;
mod steps;
mod subject;
mod tables;
mod values;

pub use day_lists::best_by_day;
pub use day_value::most_on_day;
pub use days::most_by_day;
pub use search::best_pattern;
pub use steps::Steps;
pub use tables::Tables;
