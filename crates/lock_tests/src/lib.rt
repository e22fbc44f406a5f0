//! Tests of the cell of the best cost and of the lock with turns, by several threads.
#![tactic(auto)]

#[cfg(test)]
mod best_costs;
#[cfg(test)]
mod passes;
