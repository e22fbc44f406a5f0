//! Tests of searches for plans, of what the thorough adviser advises, of greedy plans that are broken off, and of plans that are carried to another instance, compared and kept.
#![tactic(auto)]

#[cfg(test)]
mod advised;
#[cfg(test)]
mod broken_off;
#[cfg(test)]
mod carrying;
#[cfg(test)]
mod comparing;
#[cfg(test)]
mod keeping;
#[cfg(test)]
mod plans;
#[cfg(test)]
mod rows_of_days;
