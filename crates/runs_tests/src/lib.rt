//! Tests of runs of `solve` and of the checker over sources, sinks and disks in memory of which a call fails, of `solve` with advisers that advise nonsense, and of reports
//! that several workers judge.
#![tactic(auto)]

#[cfg(test)]
mod advised;
#[cfg(test)]
mod checking;
#[cfg(test)]
mod each_call;
#[cfg(test)]
mod runs_of_morning;
#[cfg(test)]
mod several;
#[cfg(test)]
mod solving;
