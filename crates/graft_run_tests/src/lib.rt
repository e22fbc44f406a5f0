//! Tests of runs of `graft_run`, and of parts that are joined into a report, over sources and sinks in memory of which a call fails.
#![tactic(auto)]

#[cfg(test)]
mod causes;
#[cfg(test)]
mod grafting;
#[cfg(test)]
mod joining;
#[cfg(test)]
mod joins;
#[cfg(test)]
mod texts;
