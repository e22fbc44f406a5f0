//! What is found of posts below the cuts of their nodes, of those of each record by itself.
ghost use Rattle.std.specs.Prelude.{◌≡◌, ◌≤◌, true, length, slice_get, IfOk, IfSome, IsSomeAnd};
ghost use Rattle.recovery.specs.Findings.{AreFoundIn, Divides, IsBound, IsFoundIn, IsSettledAt};
ghost use Rattle.recovery.specs.NodeCuts.{cuts_at};
ghost use Rattle.recovery.specs.Reads.{posts_in};

use crate::cut_tree::CutTree;
use crate::reads::Outcome;
use break_rules::NoMemory;
use dual_bound::{Buffers, Fixing, PriceFault, settle};
use head_splits::{Class, Cuts, Prices, is_live_class, range};
use job_pieces::Jobs;
use post_codec::Post;
use shift_instance::Instance;
use std::alloc::{AllocError, Global};

/// Posts of records, of which is found what the cuts ask that a tree has for their nodes.
#[derive(Drop)]
pub(crate) struct JudgedRecords<'a> {
    pub(crate) instance: &'a Instance,
    pub(crate) tree: &'a CutTree,
    pub(crate) outcomes: &'a [Outcome],
}

/// The cuts of a node, where it is there.
fn cuts_there(tree: &CutTree, node: u32) -> Result<Option<Cuts>, NoMemory>
    ensures cuts { IfOk result (λ found. IfSome found (λ cuts. cuts ≡ cuts_at tree.now node)) }
    ensures few { IfOk result (λ found. IfSome found (λ cuts. length cuts ≤ node)) }
{
    let node = node as usize;
    if tree.len() <= node {
        return Ok(None);
    }
    Ok(Some(tree.cuts_of(node)?))
}

/// The bound of prices below the cuts of a node, where it is there and they are a price set for its cuts.
fn bound_found(
    instance: &Instance,
    buffers: &mut Buffers,
    tree: &CutTree,
    node: u32,
    prices: &Prices,
) -> Result<Option<u64>, NoMemory>
    requires buffers { buffers.old ≡ instance.now }
    ensures bound { IfOk result (λ found. IfSome found (IsBound instance.now (cuts_at tree.now node) prices.now)) }
    ensures buffers { buffers.new ≡ buffers.old }
{
    let Some(cuts) = cuts_there(tree, node)? else {
        return Ok(None);
    };
    match buffers.prove(instance, cuts, prices.clone()?) {
        Ok(proved) => Ok(Some(proved.bound())),
        Err(PriceFault::NoMemory) => Err(AllocError),
        Err(_) => Ok(None),
    }
}

/// Whether a node is there, a class is live, and the node's cuts leave a number of the class open.
fn divides(
    alloc: Global,
    instance: &Instance,
    tree: &CutTree,
    node: u32,
    class: &Class,
    m: u16,
) -> Result<bool, NoMemory>
    ensures { IfOk result (λ it. it ≡ true → Divides instance.now (cuts_at tree.now node) class.now m) }
{
    let Some(cuts) = cuts_there(tree, node)? else {
        return Ok(false);
    };
    if !is_live_class(alloc, instance, class)? {
        return Ok(false);
    }
    let (low, high) = range(instance, &cuts, class);
    Ok(low <= m && m < high)
}

/// The floor of a node, where it is there and its cuts fix the number of each legal duty.
fn floor_found(
    alloc: Global,
    instance: &Instance,
    tree: &CutTree,
    node: u32,
) -> Result<Option<u64>, NoMemory>
    ensures { IfOk result (λ found. IfSome found (IsSettledAt instance.now (cuts_at tree.now node))) }
{
    let Some(cuts) = cuts_there(tree, node)? else {
        return Ok(None);
    };
    match settle(alloc, instance, cuts)? {
        Fixing::Open { class: _, m: _ } => Ok(None),
        Fixing::Done(settled) => Ok(Some(settled.floor())),
    }
}

/// What is found of a post below the cuts of its node: the bound of its prices, or the floor of its settled node, where it passes
/// what they ask. The number that is found of a split says nothing.
fn found_of(
    alloc: Global,
    instance: &Instance,
    buffers: &mut Buffers,
    tree: &CutTree,
    post: &Post,
) -> Result<Option<u64>, NoMemory>
    requires buffers { buffers.old ≡ instance.now }
    ensures found { IfOk result (λ found. IfSome found (IsFoundIn instance.now tree.now post.now)) }
    ensures buffers { buffers.new ≡ buffers.old }
{
    match post {
        Post::Plan {
            worker: _,
            rows: _,
            cost: _,
        } => Ok(None),
        Post::Priced {
            worker: _,
            node,
            prices,
        } => bound_found(instance, buffers, tree, *node, prices),
        Post::Split {
            worker: _,
            node,
            class,
            m,
        } => {
            if divides(alloc, instance, tree, *node, class, *m)? {
                Ok(Some(0))
            } else {
                Ok(None)
            }
        }
        Post::Settled { worker: _, node } => floor_found(alloc, instance, tree, *node),
    }
}

/// What is found of posts, each at the place of its post.
fn findings_of(
    alloc: Global,
    instance: &Instance,
    buffers: &mut Buffers,
    tree: &CutTree,
    posts: &[Post],
) -> Result<Vec<Option<u64>>, NoMemory>
    requires buffers { buffers.old ≡ instance.now }
    ensures found { IfOk result (λ all. AreFoundIn instance.now tree.now posts.now all.items) }
    ensures buffers { buffers.new ≡ buffers.old }
{
    let mut all = Vec::with_capacity(alloc, posts.len())?;
    for post in posts {
        all.push(found_of(alloc, instance, buffers, tree, post)?)?;
    }
    Ok(all)
}

impl<'a> Jobs<Vec<Option<u64>>, Buffers> for JudgedRecords<'a> {
    ghost count = { λ r. length r.outcomes.now };

    ghost gives = { λ r at all. IsSomeAnd (slice_get r.outcomes.now at) (λ outcome. AreFoundIn r.instance.now r.tree.now (posts_in outcome) all.items) };

    ghost serves = { λ r buffers. buffers ≡ r.instance.now };

    fn count(&self) -> usize {
        self.outcomes.len()
    }

    fn begin(&self, alloc: Global) -> Buffers {
        Buffers::new(alloc, self.instance)
    }

    fn run(
        &self,
        alloc: Global,
        buffers: &mut Buffers,
        at: usize,
    ) -> Result<Vec<Option<u64>>, AllocError> {
        let outcomes = self.outcomes;
        match &outcomes[at] {
            Ok(posts) => findings_of(alloc, self.instance, buffers, self.tree, posts),
            Err(_) => Ok(Vec::new(alloc)),
        }
    }
}
