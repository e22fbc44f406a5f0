//! The words of `solve`: what a command line asks for, and which words are no command.
#![tactic(auto)]

mod command;
mod numbers;
mod texts;

pub use command::{Command, Method, command_of};
