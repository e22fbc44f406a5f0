//! Posts.
use head_splits::{Class, Prices};
use shift_instance::Rows;

/// A change of the book of a search. Each kind has the number of the worker that found it, from 0 on. The nodes of the search
/// tree have numbers from 0, the root, on.
#[derive(Drop)]
pub enum Post {
    /// A better plan: the rows of its rota, and the rota's cost.
    Plan {
        worker: u16,
        rows: Rows,
        cost: u64,
    },
    /// Prices for a node, which bound the cost of every rota below the node's cuts.
    Priced {
        worker: u16,
        node: u32,
        prices: Prices,
    },
    /// A node, split by the number of a class's duties into at most `m` and at least `m + 1`.
    Split {
        worker: u16,
        node: u32,
        class: Class,
        m: u16,
    },
    /// A node whose cuts fix how often each legal duty stands in a rota below them.
    Settled {
        worker: u16,
        node: u32,
    },
}
