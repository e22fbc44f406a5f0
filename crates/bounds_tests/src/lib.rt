//! Tests that best lists, sums of prices, bounds and settled nodes of a small day are found, and of climbs of prices on small days, each worked out by hand,
//! and against the bounds that the prices prove.
#![tactic(auto)]

#[cfg(test)]
mod best_lists;
#[cfg(test)]
mod climbs;
#[cfg(test)]
mod days;
#[cfg(test)]
mod price_bounds;
#[cfg(test)]
mod priced_day;
#[cfg(test)]
mod settled_nodes;
