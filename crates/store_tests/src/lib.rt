//! Tests of disks, journals, what is known of a node before it is searched, the state that many records make, the order in which open nodes are taken,
//! and journals of the first version and their way to the present one, over disks and sinks in memory of which a call fails.
#![tactic(auto)]

#[cfg(test)]
mod disks;
#[cfg(test)]
mod hints;
#[cfg(test)]
mod journals;
#[cfg(test)]
mod many_records;
#[cfg(test)]
mod migrating;
#[cfg(test)]
mod migrations;
#[cfg(test)]
mod taking;
