//! Events.
use crate::Posts;

/// What may happen to a search. Each event but a crash is of one worker, by its number, from 0 on. It stands in contracts alone; no
/// value of it is made.
#[derive(Drop)]
pub enum Event {
    /// A worker takes an open node, given by its number, into its hand.
    Take { worker: u32, node: u32 },
    /// A worker adds posts that close the node in its hand, and lets go of it.
    Commit { worker: u32, posts: Posts },
    /// A worker lets go of what is in its hand.
    Yield { worker: u32 },
    /// The search ends, and starts again with the first `keep` posts.
    Crash { keep: u64 },
}
