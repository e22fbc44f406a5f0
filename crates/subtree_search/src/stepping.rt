//! A step of a search below some cuts.
ghost use Rattle.std.specs.Prelude.{◌≡◌, ◌<◌, ◌≤◌, ◌^◌, IfOk, IsSomeAnd, IsTrue, length, slice_get};
ghost use Rattle.std.specs.Option.{option_map};
ghost use Rattle.head_splits.specs.Nodes.{Node};
ghost use Rattle.subtree_search.specs.Searching.{is_open, top, IsNext};
ghost use Rattle.subtree_search.specs.Stepping.{lawful_plan, IsClose, IsOffer, IsStepBy};

use crate::closing::closing_of;
use crate::pricing_nodes::prove_lawful;
use crate::search::Search;
use advice::{Advice, Splitting};
use break_rules::NoMemory;
use dual_bound::{Buffers, Fixing};
use head_splits::Cuts;
use rota_cost::{Costed, cost_rows};
use shift_instance::{Instance, Rows};
use std::alloc::Global;

/// The rows of a plan with their cost, where there are some and they are legal.
fn cost_plan(instance: &Instance, plan: Option<Rows>) -> Option<Costed>
    ensures rows { option_map (λ p. p.rows) result ≡ lawful_plan instance.now plan }
    ensures costed { IsOffer instance.now result }
{
    match cost_rows(instance, plan?) {
        Ok(costed) => {
            // Its clauses say that the cost is the rows' own.
            let _cost = costed.cost();
            Some(costed)
        }
        Err(_) => None,
    }
}

/// Closes an open node with these cuts: it is split, or settled.
fn close_open(
    alloc: Global,
    instance: &Instance,
    search: Search,
    node: usize,
    cuts: Cuts,
    advised: Option<Splitting>,
) -> Result<Search, NoMemory>
    requires there { node < length search.nodes }
    requires number { node < 2 ^ 32 }
    ensures { IfOk result (λ t. IsSomeAnd (slice_get search.nodes node) (λ n. n.cuts ≡ cuts → IsTrue (is_open (top search) n) → IsClose instance.now advised node n search t)) }
{
    let _valid = instance.slots();
    match closing_of(alloc, instance, cuts, advised)? {
        Fixing::Open { class, m } => {
            let search = search.divide(node, class, m)?;
            Ok(search)
        }
        Fixing::Done(settlement) => {
            let search = search.settle(instance, node, settlement)?;
            Ok(search)
        }
    }
}

/// Closes a node with these cuts that was just priced: nothing is left to do where it isn't open. Else it is split, or settled.
fn close(
    alloc: Global,
    instance: &Instance,
    search: Search,
    node: usize,
    cuts: Cuts,
    advised: Option<Splitting>,
) -> Result<Search, NoMemory>
    requires there { node < length search.nodes }
    requires number { node < 2 ^ 32 }
    ensures { IfOk result (λ t. IsSomeAnd (slice_get search.nodes node) (λ n. n.cuts ≡ cuts → IsClose instance.now advised node n search t)) }
{
    if search.is_open(node) {
        let search = close_open(alloc, instance, search, node, cuts, advised)?;
        return Ok(search);
    }
    Ok(search)
}

/// What a search is after its next step, by this advice for that node.
pub(crate) fn step(
    alloc: Global,
    instance: &Instance,
    buffers: &mut Buffers,
    search: Search,
    node: usize,
    advice: Advice,
) -> Result<Search, NoMemory>
    requires next { (n : Node) × IsNext search.nodes (top search) node n }
    requires few { (n : Node) → slice_get search.nodes node ≡ Some n → length n.cuts ≤ 2 ^ 33 }
    requires number { node < 2 ^ 32 }
    requires room { search.taken < 2 ^ 32 }
    requires buffers { buffers.old ≡ instance.now }
    ensures step { IfOk result (λ t. IsSomeAnd (slice_get search.nodes node) (λ n. IsStepBy instance.now node n advice search t)) }
    ensures longer { IfOk result (λ t. length search.nodes ≤ length t.nodes) }
    ensures buffers { buffers.new ≡ buffers.old }
{
    let Advice {
        prices,
        plan,
        split,
    } = advice;
    let cuts = search.cuts_of(node)?;
    let search = search.offer(instance, cost_plan(instance, plan));
    let proved = prove_lawful(alloc, instance, buffers, &cuts, prices)?;
    let search = search.price(node, proved)?;
    let search = close(alloc, instance, search, node, cuts, split)?;
    Ok(search)
}
