//! The book of a search, as its posts make it, and what the hands of workers and crashes may do to it.
#![tactic(auto)]

mod board;
mod class_text;
mod drafting;
mod event;
mod fault;
mod hands;
mod hints;
mod judging;
pub mod laws;
mod outline;
mod posts;
mod refusal;
mod state;
mod step_posts;
mod stepping;

pub use board::{Board, CommitFault, Kept, Origin, Shutting, Taken, keeps_sound};
pub use drafting::StepDraft;
pub use event::Event;
pub use fault::StepFault;
pub use hands::Hands;
pub use outline::NodeState;
pub use posts::Posts;
pub use refusal::Refusal;
pub use state::State;
pub use step_posts::{Close, StepPosts};

/// The most workers of a search.
pub const WORKERS_MAX: u32 = 16;
