//! What a worker makes of an advice, and the run of workers over a board.
#![tactic(auto)]

mod asking;
mod bench;
mod by_turns;
mod chair;
mod decision;
mod gate;
mod last;
mod noted;
mod passing;
mod run;
mod running;
mod seat;
mod seating;
mod splitting;
mod taking;
mod turn_bench;
mod turn_running;
mod turn_seating;
mod turns;
mod worker;
mod workers;

pub use by_turns::run_turns;
pub use decision::step_of;
pub use gate::{Gate, Open};
pub use run::{RunEnd, run_seat};
pub use seat::Seat;
pub use workers::run_workers;
