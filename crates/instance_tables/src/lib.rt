//! The tables of an instance: four files of comma-separated values that a spreadsheet writes, read as an instance, and the tables that an
//! instance is written as.
#![tactic(auto)]

mod cells;
mod columns;
mod export;
mod export_rules;
mod hours;
mod import;
mod need;
mod refusal;
mod rule_lists;
mod rules;
mod settings;
mod sheet;
mod spans;
mod splitting;
mod types;
mod why;

pub use columns::{Column, Table};
pub use export::{TableTexts, exported};
pub use import::{TableBytes, imported};
pub use refusal::{ImportRefusal, TableRefusal};
pub use why::Why;
