//! Tests of cuts that are exported from a report, of cuts that pin numbers of duties, of runs that are grafted, of searches below some cuts, and of breaks that are planned anew, each
//! worked out by hand.
#![tactic(auto)]

#[cfg(test)]
mod anew;
#[cfg(test)]
mod exports;
#[cfg(test)]
mod grafts;
#[cfg(test)]
mod searches;
#[cfg(test)]
mod split_morning;
