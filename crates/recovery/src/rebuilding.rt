//! The state that the posts of records make, read and judged by several workers at the same time, a part of the records after another.
ghost use Rattle.std.specs.Prelude.{◌≡◌, ◌+◌, ◌^◌, ◌<◌, ◌≤◌, ◌++◌, drop, fold, length, map, take, List, IfOk, IfErr, OnOk};
ghost use Rattle.post_codec.specs.declared.post.Post.{Post as APost};
ghost use Rattle.search_core.specs.Book.{Book};
ghost use Rattle.recovery.specs.NodeCuts.{nodes_after, nodes_of};
ghost use Rattle.recovery.specs.Reads.{all_posts, posts_in, AreReads, AreAllFound};
ghost use Rattle.recovery.specs.Records.{MakeBook, MakeBookBy};
ghost use Rattle.recovery.specs.Refusals.{Refuses, RefusesBy};
ghost use Rattle.recovery.specs.Folding.{fault_at};

use crate::adding::add_record;
use crate::cut_tree::CutTree;
use crate::fault::{RebuildFault, Why};
use crate::findings::JudgedRecords;
use crate::reads::{Outcome, Records};
use break_rules::NoMemory;
use job_pieces::do_all;
use post_codec::{CodecFault, Post, PriceWidth};
use search_core::{State, StepFault};
use shift_instance::Instance;
use std::alloc::Global;
use std::thread::Threads;

/// How many records are read and judged before their posts are added: what is read of more isn't kept beside the state.
const AT_ONCE: usize = 16_384;

/// Why the records stop at one, by its number, that isn't taken for a reason.
fn fault_at(at_record: u64, why: Why) -> RebuildFault
    ensures { result ≡ fault_at at_record why }
{
    match why {
        Why::Codec(CodecFault::NoMemory) => RebuildFault::NoMemory,
        Why::Step {
            post: _,
            fault: StepFault::NoMemory,
        } => RebuildFault::NoMemory,
        _ => RebuildFault::Rejected { at_record, why },
    }
}

/// Adds the two parts of the node that a post splits to a tree, where it splits one.
fn add_parts(tree: &mut CutTree, post: &Post) -> Result<(), NoMemory>
    ensures { OnOk result (tree.new ≡ nodes_after tree.old post.now) }
{
    match post {
        Post::Split {
            worker: _,
            node,
            class,
            m,
        } => tree.split(*node, class, *m),
        _ => Ok(()),
    }
}

/// Adds the nodes that posts make to a tree.
fn add_nodes(tree: &mut CutTree, posts: &[Post]) -> Result<(), NoMemory>
    ensures { OnOk result (tree.new ≡ fold nodes_after tree.old posts.now) }
{
    for post in posts {
        add_parts(tree, post)?;
    }
    Ok(())
}

/// Adds the nodes that the posts of a record make to a tree, where it spells some.
fn add_nodes_of(tree: &mut CutTree, outcome: &Outcome) -> Result<(), NoMemory>
    ensures { OnOk result (tree.new ≡ fold nodes_after tree.old (posts_in outcome.now)) }
{
    match outcome {
        Ok(posts) => add_nodes(tree, posts),
        Err(_) => Ok(()),
    }
}

/// Adds the nodes that the posts of records make to a tree.
fn add_all_nodes(tree: &mut CutTree, outcomes: &[Outcome]) -> Result<(), NoMemory>
    ensures { OnOk result (tree.new ≡ fold nodes_after tree.old (all_posts outcomes.now)) }
{
    for outcome in outcomes {
        add_nodes_of(tree, outcome)?;
    }
    Ok(())
}

/// Adds the posts of a part of records, as they were read, to the state that the records before it make, one record after another,
/// with what was found of them below the cuts that a tree has for their nodes. The part begins at the record of the number `from`.
fn fold_records(
    state: &mut State,
    instance: &Instance,
    _width: PriceWidth,
    _records: &[Vec<u8>],
    from: usize,
    tree: &CutTree,
    outcomes: Vec<Outcome>,
    findings: &[Vec<Option<u64>>],
) -> Result<(), RebuildFault>
    requires instance { state.old.instance ≡ instance.now }
    requires before { MakeBookBy _width instance.now (map (λ r. r.items) (take from _records.now)) state.old.history state.old.book }
    requires reads { AreReads _width (take (length outcomes.items) (drop from _records.now)) outcomes.items }
    requires numbers { length _records.now < 2 ^ 64 }
    requires tree { tree.now ≡ nodes_of (state.old.history ++ all_posts outcomes.items) }
    requires found { AreAllFound instance.now tree.now outcomes.items findings.now }
    ensures instance { OnOk result (state.new.instance ≡ instance.now) }
    ensures grown { OnOk result (state.new.history ≡ state.old.history ++ all_posts outcomes.items) }
    ensures history { OnOk result (MakeBookBy _width instance.now (map (λ r. r.items) (take (from + length outcomes.items) _records.now)) state.new.history state.new.book) }
    ensures refused { IfErr result (RefusesBy _width instance.now (map (λ r. r.items) _records.now)) }
{
    let mut at = 0;
    for outcome in outcomes {
        let found = &findings[at];
        if let Err(why) = add_record(state, instance, tree, outcome, found) {
            return Err(fault_at((from + at) as u64, why));
        }
        at += 1;
    }
    Ok(())
}

/// What the records up to some number make: the state of their posts, and the nodes of these.
#[derive(Drop)]
struct Front {
    state: State,
    tree: CutTree,
}

/// Adds the posts of the records from a number on, [`AT_ONCE`] of them or those that are left, to what the records before it make,
/// and answers the number of the record behind them.
fn add_part<R: Threads + Sync>(
    rt: &R,
    alloc: Global,
    instance: &Instance,
    width: PriceWidth,
    records: &[Vec<u8>],
    from: usize,
    front: &mut Front,
    workers: usize,
) -> Result<usize, RebuildFault>
    requires workers { 0 < workers }
    requires from { from < length records.now }
    requires numbers { length records.now < 2 ^ 64 }
    requires instance { front.old.state.instance ≡ instance.now }
    requires before { MakeBookBy width instance.now (map (λ r. r.items) (take from records.now)) front.old.state.history front.old.state.book }
    requires tree { front.old.tree ≡ nodes_of front.old.state.history }
    ensures further { IfOk result (λ to. (from < to) × (to ≤ length records.now)) }
    ensures instance { OnOk result (front.new.state.instance ≡ instance.now) }
    ensures made { IfOk result (λ to. MakeBookBy width instance.now (map (λ r. r.items) (take to records.now)) front.new.state.history front.new.state.book) }
    ensures tree { OnOk result (front.new.tree ≡ nodes_of front.new.state.history) }
    ensures refused { IfErr result (RefusesBy width instance.now (map (λ r. r.items) records.now)) }
{
    let (_before, left) = records.split_at(from);
    let (part, _behind) = left.split_at(left.len().min(AT_ONCE));
    let outcomes = do_all(
        rt,
        alloc,
        &Records {
            width,
            records: part,
        },
        workers,
    )?;
    add_all_nodes(&mut front.tree, &outcomes)?;
    let findings = do_all(
        rt,
        alloc,
        &JudgedRecords {
            instance,
            tree: &front.tree,
            outcomes: &outcomes,
        },
        workers,
    )?;
    let Front { state, tree } = front;
    fold_records(
        state, instance, width, records, from, tree, outcomes, &findings,
    )?;
    Ok(from + part.len())
}

/// The state whose history is the posts of the records, as [`rebuild`] makes it of records with prices of that width.
pub(crate) fn rebuild_by<R: Threads + Sync>(
    rt: &R,
    alloc: Global,
    instance: &Instance,
    width: PriceWidth,
    records: &[Vec<u8>],
    workers: u32,
) -> Result<State, RebuildFault>
    requires some { 1 ≤ workers }
    requires most { workers ≤ 16 }
    ensures instance { IfOk result (λ s. s.instance ≡ instance.now) }
    ensures history { IfOk result (λ s. MakeBookBy width instance.now (map (λ r. r.items) records.now) s.history s.book) }
    ensures refused { IfErr result (RefusesBy width instance.now (map (λ r. r.items) records.now)) }
    // Where the records spell posts that make a book, none is rejected.
    ensures only { (posts : List APost) (book : Book) → MakeBookBy width instance.now (map (λ r. r.items) records.now) posts book → IfErr result (λ fault. fault ≡ RebuildFault.NoMemory) }
{
    let mut front = Front {
        state: State::new(alloc, instance)?,
        tree: CutTree::root(alloc),
    };
    let mut from = 0;
    'parts: while from < records.len() {
        from = add_part(
            rt,
            alloc,
            instance,
            width,
            records,
            from,
            &mut front,
            workers as usize,
        )?;
    }
    Ok(front.state)
}

/// The state whose history is the posts of the records, in their order. Up to `workers` workers, 1 to 16, read the records, and find
/// the bounds of prices, what splits ask and the floors of settled nodes at the same time, a piece of the records after another; their number
/// doesn't change the answer. A refusal is that of the first record that is rejected, whatever a worker found in those behind it.
pub fn rebuild<R: Threads + Sync>(
    rt: &R,
    alloc: Global,
    instance: &Instance,
    records: &[Vec<u8>],
    workers: u32,
) -> Result<State, RebuildFault>
    requires some { 1 ≤ workers }
    requires most { workers ≤ 16 }
    ensures instance { IfOk result (λ s. s.instance ≡ instance.now) }
    ensures history { IfOk result (λ s. MakeBook instance.now (map (λ r. r.items) records.now) s.history s.book) }
    ensures refused { IfErr result (Refuses instance.now (map (λ r. r.items) records.now)) }
    // Where the records spell posts that make a book, none is rejected.
    ensures only { (posts : List APost) (book : Book) → MakeBook instance.now (map (λ r. r.items) records.now) posts book → IfErr result (λ fault. fault ≡ RebuildFault.NoMemory) }
{
    rebuild_by(rt, alloc, instance, PriceWidth::Five, records, workers)
}
