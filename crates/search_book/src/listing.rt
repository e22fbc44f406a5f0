//! The open nodes that no worker holds, as a state has them.
ghost use Rattle.std.specs.Prelude.{◌≡◌, ℕ, ◌+◌, ◌<◌, ◌≤◌, ◌^◌, false, true, length, nat_lt, IfOk, IfSome, IsFalse, IsTrue, MatchOption, Some};
ghost use Rattle.std.specs.List.{filter};
ghost use Rattle.std.specs.Option.{option_map_or};
ghost use Rattle.open_nodes.specs.Listed.{has_node, is_listed};
ghost use Rattle.search_core.specs.Book.{is_node_and, is_open};
ghost use Rattle.search_core.specs.Core.{empty_hands, hand};
ghost use Rattle.search_book.specs.Listing.{with_open, HoldsOpen, ListsFree};

use break_rules::NoMemory;
use open_nodes::OpenNodes;
use search_core::{Hands, State, WORKERS_MAX};
use std::alloc::Global;

/// Adds a node, where it is open. It takes no memory.
pub(crate) fn add_where_open(nodes: &mut OpenNodes, state: &State, node: u32)
    requires room { 0 < nodes.old.spare }
    requires new { has_node nodes.old.entries node ≡ false }
    ensures entries { nodes.new.entries ≡ with_open state.now.book nodes.old.entries node }
    ensures spare { nodes.old.spare ≤ nodes.new.spare + 1 }
{
    if state.is_open(node) {
        let (floor, _best) = state.floor_and_best(node);
        nodes.add(floor, node);
    }
}

/// Adds the node that a worker lets go of, if it held one, where it is open. It takes no memory.
pub(crate) fn give_back(nodes: &mut OpenNodes, state: &State, held: Option<u32>)
    requires room { IfSome held (λ _. 0 < nodes.old.spare) }
    requires new { IfSome held (λ k. has_node nodes.old.entries k ≡ false) }
    ensures entries { MatchOption held (nodes.new.entries ≡ nodes.old.entries) (λ k. nodes.new.entries ≡ with_open state.now.book nodes.old.entries k) }
    ensures spare { MatchOption held (nodes.new.spare ≡ nodes.old.spare) (λ _. nodes.old.spare ≤ nodes.new.spare + 1) }
{
    match held {
        Some(node) => add_where_open(nodes, state, node),
        None => {}
    }
}

/// The open nodes of a state, of which no worker holds one.
pub(crate) fn all_open(alloc: Global, state: &State) -> Result<OpenNodes, NoMemory>
    requires few { length state.now.book.nodes ≤ 2 ^ 24 }
    ensures { IfOk result (λ nodes. ListsFree state.now.book empty_hands nodes.entries) }
{
    let count = state.nodes().len() as u32;
    let mut nodes = OpenNodes::new(alloc);
    nodes.reserve(count)?;
    for node in 0..count {
        add_where_open(&mut nodes, state, node);
    }
    Ok(nodes)
}

/// Follows a step for a node in a hand, which made the state from one with so many nodes and that best cost: nodes whose floor
/// isn't below the best cost any more go out, and the open ones of the two that the step split off come in. It takes no memory.
pub(crate) fn follow_step(nodes: &mut OpenNodes, state: &State, count: u32, best: u64)
    requires room { 2 ≤ nodes.old.spare }
    requires few { count < 2 ^ 25 }
    requires cost { state.now.book.cost ≤ best }
    requires listed { (f k : ℕ) → is_listed nodes.old.entries f k ≡ true → (f < best) × (k < count) }
    ensures entries { nodes.new.entries ≡ with_open state.now.book (with_open state.now.book (filter (λ e. nat_lt e.0 state.now.book.cost) nodes.old.entries) count) (count + 1) }
    ensures spare { nodes.old.spare ≤ nodes.new.spare + 2 }
{
    let cost = state.cost();
    if cost < best {
        nodes.drop_from(cost);
    }
    add_where_open(nodes, state, count);
    add_where_open(nodes, state, count + 1);
}

/// Whether a worker holds an open node.
fn holds_open_at(state: &State, hands: &Hands, worker: u32) -> bool
    requires { worker < 16 }
    ensures { result ≡ option_map_or (λ k. is_node_and state.now.book k (is_open state.now.book)) (hand hands.now worker) false }
{
    match hands.held(worker) {
        Some(node) => state.is_open(node),
        None => false,
    }
}

/// Whether any worker holds an open node.
pub(crate) fn holds_open(state: &State, hands: &Hands) -> bool
    requires sixteen { length hands.now ≡ 16 }
    ensures some { IsTrue result → HoldsOpen state.now.book hands.now }
    ensures none { IsFalse result → HoldsOpen state.now.book hands.now → ⊥ }
{
    for worker in 0..WORKERS_MAX {
        if holds_open_at(state, hands, worker) {
            return true;
        }
    }
    false
}
