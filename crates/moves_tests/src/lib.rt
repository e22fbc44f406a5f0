//! Tests of plans that change move by move, of descents, of plans made more even, and of what advisers tell of a small day, each worked out by hand.
#![tactic(auto)]

#[cfg(test)]
mod advised;
#[cfg(test)]
mod descending;
#[cfg(test)]
mod drafts;
#[cfg(test)]
mod drafts_of_days;
#[cfg(test)]
mod evening;
