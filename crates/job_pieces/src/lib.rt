//! Jobs by number that several workers do at the same time, a piece of them after another, with the results of one worker.
#![tactic(auto)]

mod jobs;
mod pieces;
mod results;
mod workers;

pub use jobs::Jobs;
pub use workers::do_all;

/// How many jobs a worker takes at once.
pub const PIECE: usize = 64;
