//! Tests of runs over a book on a disk in memory: by one worker, with a journal that gets full and with calls that fail; by two that work at the same time, of which one reads
//! the best cost that the other one's commit told; by four on a disk of which a call fails; of runs that are asked to stop;
//! and of runs by turns.
#![tactic(auto)]

#[cfg(test)]
mod by_turns;
#[cfg(test)]
mod crashes;
#[cfg(test)]
mod ends;
#[cfg(test)]
mod full_journals;
#[cfg(test)]
mod newest;
#[cfg(test)]
mod seats;
#[cfg(test)]
mod side_by_side;
#[cfg(test)]
mod stopping;
