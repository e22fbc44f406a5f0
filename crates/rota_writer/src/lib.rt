//! Texts of rotas: the report of a search, and a table for people to read.
#![tactic(auto)]

pub mod laws;
mod reports;
mod table_lines;

pub use reports::report;
pub use table_lines::table;
