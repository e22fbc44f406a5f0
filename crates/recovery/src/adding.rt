//! Posts of a record added to a state, with what workers found of them.
ghost use Rattle.std.specs.Prelude.{◌≡◌, ◌++◌, ℕ, List, Some, slice_get, OnErr, OnOk, IfErr, IfOk, IfSome, IsTrue, MatchResult, not};
ghost use Rattle.post_codec.specs.declared.post.Post.{Post as APost};
ghost use Rattle.post_codec.specs.declared.price_width.PriceWidth.{PriceWidth as AWidth};
ghost use Rattle.search_core.specs.Book.{is_node_and};
ghost use Rattle.search_core.specs.Faults.{step_fault, Refuses, Steps};
ghost use Rattle.search_core.specs.State.{value_of};
ghost use Rattle.search_core.specs.Taking.{Stops, Takes};
ghost use Rattle.search_core.specs.declared.fault.StepFault.TheVariants.{NoMemory};
ghost use Rattle.recovery.specs.Folding.{RecordStops};
ghost use Rattle.recovery.specs.NodeCuts.{nodes_of};
ghost use Rattle.recovery.specs.Findings.{is_ready, AreFoundIn, IsFoundAt};
ghost use Rattle.recovery.specs.Reads.{IsReadOf};

use crate::cut_tree::CutTree;
use crate::fault::Why;
use crate::reads::Outcome;
use post_codec::Post;
use search_core::{Refusal, State, StepFault};
use shift_instance::Instance;

/// Whether a node is there and unsplit.
fn is_unsplit(state: &State, node: u32) -> bool
    ensures { result ≡ is_node_and state.now.book node (λ n. not n.split) }
{
    match state.nodes().get(node as usize) {
        Some(node) => !node.split,
        None => false,
    }
}

/// Whether the node of a post is unsplit, and for a split open. Of a plan it says no.
fn is_ready(state: &State, post: &Post) -> bool
    ensures { result ≡ is_ready state.now.book post.now }
{
    match post {
        Post::Plan {
            worker: _,
            rows: _,
            cost: _,
        } => false,
        Post::Priced {
            worker: _,
            node,
            prices: _,
        } => is_unsplit(state, *node),
        Post::Split {
            worker: _,
            node,
            class: _,
            m: _,
        } => state.is_open(*node),
        Post::Settled { worker: _, node } => is_unsplit(state, *node),
    }
}

/// The number that goes with a post that a state is ready for, of which that was found.
fn value_of(state: &State, post: &Post, found: u64) -> u64
    requires found { IsFoundAt state.now.instance state.now.book post.now found }
    requires ready { IsTrue (is_ready state.now.book post.now) }
    ensures { result ≡ value_of state.now.instance state.now.book post.now }
{
    match post {
        Post::Split {
            worker: _,
            node,
            class: _,
            m: _,
        } => state.floor_and_best(*node).0,
        _ => found,
    }
}

/// Appends a post that a state is ready for, of which that was found.
fn append_found(state: &mut State, post: Post, found: u64) -> Result<(), StepFault>
    requires found { IsFoundAt state.old.instance state.old.book post found }
    requires ready { IsTrue (is_ready state.old.book post) }
    ensures ok { OnOk result (Steps state.old state.new post) }
    ensures unchanged { OnErr result (state.new ≡ state.old) }
    ensures err { IfErr result (λ fault. fault ≡ NoMemory) }
{
    let value = value_of(state, &post, found);
    state.reserve(1)?;
    state.append(post, value);
    Ok(())
}

/// Adds a post to a state, where it is allowed, as [`State::step`] does. Where something was found of it, its node's cuts aren't
/// looked at again.
fn add_post(
    state: &mut State,
    instance: &Instance,
    post: Post,
    found: Option<u64>,
) -> Result<(), StepFault>
    requires instance { instance.now ≡ state.old.instance }
    requires found { IfSome found (IsFoundAt state.old.instance state.old.book post) }
    ensures ok { OnOk result (Steps state.old state.new post) }
    ensures unchanged { OnErr result (state.new ≡ state.old) }
    ensures err { IfErr result (Refuses (step_fault state.old.instance state.old.book post)) }
{
    match found {
        Some(found) if is_ready(state, &post) => append_found(state, post, found),
        _ => state.step(instance, post),
    }
}

/// What was found of the post at a place, where something was.
fn found_at(findings: &[Option<u64>], at: usize) -> Option<u64>
    ensures { IfSome result (λ found. slice_get findings.now at ≡ Some (Some found)) }
{
    *findings.get(at)?
}

/// Adds the posts of a record to a state, up to the first that isn't allowed, with what was found of them below the cuts that a tree
/// has for their nodes: it is the tree of the posts of the state, these and others behind them.
fn add_all(
    state: &mut State,
    instance: &Instance,
    tree: &CutTree,
    posts: Vec<Post>,
    findings: &[Option<u64>],
) -> Result<(), Refusal>
    requires instance { instance.now ≡ state.old.instance }
    requires tree { (rest : List APost) × (tree.now ≡ nodes_of ((state.old.history ++ posts.items) ++ rest)) }
    requires found { AreFoundIn instance.now tree.now posts.items findings.now }
    ensures ok { OnOk result (Takes state.old posts.items state.new) }
    ensures err { IfErr result (Stops instance.now state.old.book posts.items) }
{
    // an instance is valid, and a state's posts make its book
    let _heads = instance.heads();
    let _posts = state.history().len();
    let mut at = 0;
    for post in posts {
        if let Err(why) = add_post(state, instance, post, found_at(findings, at)) {
            return Err(Refusal { at: at as u64, why });
        }
        at += 1;
    }
    Ok(())
}

/// Adds the posts that were read of a record to a state, up to the first that isn't allowed, with what was found of them
/// as [`add_all`] takes it.
pub(crate) fn add_record(
    state: &mut State,
    instance: &Instance,
    tree: &CutTree,
    outcome: Outcome,
    findings: &[Option<u64>],
) -> Result<(), Why>
    requires instance { instance.now ≡ state.old.instance }
    requires tree { IfOk outcome (λ posts. (rest : List APost) × (tree.now ≡ nodes_of ((state.old.history ++ posts.items) ++ rest))) }
    requires found { IfOk outcome (λ posts. AreFoundIn instance.now tree.now posts.items findings.now) }
    ensures ok { OnOk result (MatchResult outcome (λ posts. Takes state.old posts.items state.new) (λ _. ⊥)) }
    ensures err { IfErr result (λ why. (width : AWidth) (bytes : List ℕ) → IsReadOf width bytes outcome → RecordStops width instance.now state.old.book bytes why) }
{
    add_all(state, instance, tree, outcome?, findings)?;
    Ok(())
}
