//! Tests of the words that ask for a plan, of the files of a plan, of how searches for a plan end, and of sentences for journals, rules, warnings and repeated names.
#![tactic(auto)]

#[cfg(test)]
mod ends;
#[cfg(test)]
mod files;
#[cfg(test)]
mod journals;
#[cfg(test)]
mod names;
#[cfg(test)]
mod rules;
#[cfg(test)]
mod warnings;
#[cfg(test)]
mod words;
