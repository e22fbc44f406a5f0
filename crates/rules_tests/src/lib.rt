//! Tests of what the rules, their graphs and patterns, values by layers, and instances give to callers.
#![tactic(auto)]

#[cfg(test)]
mod break_graphs;
#[cfg(test)]
mod break_lists;
#[cfg(test)]
mod break_patterns;
#[cfg(test)]
mod break_walks;
#[cfg(test)]
mod instances;
#[cfg(test)]
mod layer_values;
#[cfg(test)]
mod small_rules;
