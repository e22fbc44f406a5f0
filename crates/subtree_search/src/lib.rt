//! A search below some cuts, apart from the search to which they belong: its nodes are kept in memory, and its proof lines can be
//! grafted into the report from which the cuts are.
#![tactic(auto)]

mod choosing;
mod closing;
mod hints;
mod node;
mod pricing_nodes;
mod search;
mod solving;
mod stepping;

pub use solving::{solve_below, solve_below_by};
