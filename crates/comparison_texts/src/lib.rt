//! Sentences and tables for people on what became of an older plan. Nothing is claimed of them.
#![tactic(auto)]

mod columns;
mod left;
mod tables;

pub use columns::side_by_side;
pub use left::left_lines;
pub use tables::changes_table;
