//! From which weight of shortage on no slot stays short in a cheapest rota that one more duty could help: the law, and the
//! number for an instance.
#![tactic(auto)]

pub mod laws;
mod working;

pub use working::{enough_shortage, most_worked};
