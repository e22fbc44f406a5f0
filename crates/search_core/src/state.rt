//! The state of a search.
ghost use Rattle.std.specs.Prelude.{◌≡◌, ℕ, ◌+◌, ◌-◌, ◌*◌, ◌^◌, ◌<◌, ◌≤◌, ◌++◌, ◌∷◌, [], ◌==◌, None, Some, map, max, not, length, slice_get, false, true, IfOk, IfErr, IfSome, IsSome, IsSomeAnd, OnOk, OnErr};
ghost use Rattle.shift_instance.specs.Valid.{IsValid};
ghost use Rattle.search_core.specs.Board.{floor_of_node, leaves_open};
ghost use Rattle.search_core.specs.Book.{book_of, floor_of, is_node_and, is_open, opening, step, IsSound};
ghost use Rattle.post_codec.specs.declared.post.Post.TheVariants.{Plan, Priced, Settled, Split};
ghost use Rattle.search_core.specs.Faults.{open_fault, plan_fault, priced_fault, settled_fault, split_fault, step_fault, unsplit_fault, Refuses, Steps};
ghost use Rattle.search_core.specs.declared.step_posts.Close.TheVariants.{ByPrice};
ghost use Rattle.search_core.specs.Book.{Book};
ghost use Rattle.search_core.specs.Drafting.{Drafts, LeavesOpen, Makes};
ghost use Rattle.search_core.specs.Kept.{cuts_in, part_of, rows_in};
ghost use Rattle.search_core.specs.State.{state_of, value_of};
ghost use Rattle.search_core.specs.Steps.{Fits};

use crate::StepPosts;
use crate::drafting::StepDraft;
use crate::fault::StepFault;
use crate::hints::deepened;
use crate::judging::plan_fault;
use crate::outline::{NodeState, Outline, least_floor};
use crate::stepping::{draft_of, stays_open};
use break_rules::NoMemory;
use dual_bound::{Buffers, Fixing, Proved, settle};
use head_splits::{Class, Cut, Cuts, Hint, Prices, Side, is_live_class, range};
use post_codec::Post;
use rota_cost::recount;
use shift_instance::{Instance, Rows};
use std::alloc::Global;
use std::marker::Model;
use std::snapshot::Snapshot;

/// The posts of a search for an instance, and the book that they make.
///
/// Contracts see the instance, the posts in order, the book, and how many posts may be appended without memory.
#[derive(Drop)]
pub struct State {
    alloc: Global,
    instance: Snapshot<Instance>,
    posts: Vec<Post>,
    outline: Outline,
    // the empty rota, which is best where there is no plan
    none: Rows,
    // memory in which the posted prices are judged
    buffers: Buffers,
}

impl Model for State {
    ghost use Rattle.search_core.specs.State.{StateView};

    ghost Value = { StateView };

    ghost use Rattle.std.specs.Prelude.{◌≡◌, ◌+◌, ◌≤◌, vec_len, vec_capacity};
    ghost use Rattle.search_core.specs.State.{book_or_opening};
    ghost use Rattle.search_core.specs.Kept.{IsKept};

    ghost view = { λ s. record { instance = s.instance.value; history = s.posts.items; book = book_or_opening s.instance.value s.posts.items; spare = s.outline.spare } };

    ghost invariant = { λ s. IsKept s.instance.value s.posts.items s.none s.outline (book_or_opening s.instance.value s.posts.items) × (vec_len s.posts + s.outline.spare ≤ vec_capacity s.posts) × (s.buffers ≡ s.instance.value) };
}

/// The rows of a plan.
fn rows_of(post: &Post) -> &Rows
    requires { IsSome (rows_in post.now) }
    ensures { rows_in post.now ≡ Some result.now }
{
    match post {
        Post::Plan {
            worker: _,
            rows,
            cost: _,
        } => rows,
        _ => unreachable!(),
    }
}

/// The node that a post splits, and the cut of its first or second part.
fn part_of(post: &Post, first: bool) -> Result<(usize, Cut), NoMemory>
    requires { IsSomeAnd (part_of first post.now) (λ p. p.1.m < 2 ^ 16) }
    ensures { IfOk result (λ p. part_of first post.now ≡ Some p) }
{
    match post {
        Post::Split {
            worker: _,
            node,
            class,
            m,
        } => {
            let class = class.clone()?;
            let (side, m) = if first {
                (Side::AtMost, *m)
            } else {
                (Side::AtLeast, *m + 1)
            };
            Ok((*node as usize, Cut { class, side, m }))
        }
        _ => unreachable!(),
    }
}

impl State {
    /// The state without posts: the empty rota is best, and the one node has no cuts and the floor 0.
    pub fn new(alloc: Global, instance: &Instance) -> Result<State, NoMemory>
        ensures { IfOk result (λ s. s ≡ record { instance = instance.now; history = []; book = opening instance.now; spare = 0 }) }
    {
        let _days = instance.days();
        let none = Rows::new(Vec::new(alloc));
        let outline = Outline::opening(alloc, recount(instance, &none))?;
        Ok(State {
            alloc,
            instance: Snapshot::of(instance),
            posts: Vec::new(alloc),
            outline,
            none,
            buffers: Buffers::new(alloc, instance),
        })
    }

    /// Makes room for so many posts to be appended. It never lowers the room.
    pub fn reserve(&mut self, posts: u32) -> Result<(), NoMemory>
        ensures ok { OnOk result (self.new ≡ record self.old { spare = max self.old.spare posts }) }
        ensures err { OnErr result (self.new ≡ self.old) }
    {
        self.posts.reserve(posts as usize)?;
        self.outline.reserve(posts)
    }

    /// Appends a post that the book allows, with the number that goes with it: what a plan costs, the bound of prices below
    /// their node's cuts, the floor of a node that is split, or the floor that a settled node gets. It takes no memory.
    pub fn append(&mut self, post: Post, value: u64)
        requires room { 0 < self.old.spare }
        requires allowed { IsSome (step self.old.instance self.old.book post) }
        requires value { value ≡ value_of self.old.instance self.old.book post }
        ensures step { step self.old.instance self.old.book post ≡ Some self.new.book }
        ensures rest { self.new ≡ record self.old { history = self.old.history ++ post ∷ []; book = self.new.book; spare = self.old.spare - 1 } }
    {
        let at = self.posts.len();
        self.outline.act(&post, value, at);
        self.posts.push_reserved(post);
    }

    /// Appends posts that the book allows one after another, with the numbers that go with them, where there is room. It takes
    /// no memory.
    pub fn append_all(&mut self, posts: Vec<Post>, values: &[u64])
        requires room { length posts.items ≤ self.old.spare }
        requires makes { (c : Book) × Makes self.old.instance self.old.book posts.items values.now c }
        ensures makes { Makes self.old.instance self.old.book posts.items values.now self.new.book }
        ensures rest { self.new ≡ record self.old { history = self.old.history ++ posts.items; book = self.new.book; spare = self.old.spare - length posts.items } }
    {
        let mut at = 0;
        for post in posts {
            self.append(post, values[at]);
            at += 1;
        }
    }

    /// The rows of the best rota.
    pub fn best(&self) -> &Rows
        ensures best { result.now ≡ self.now.book.best }
        ensures sound { IsSound self.now.instance self.now.book }
    {
        let posts = &self.posts;
        match self.outline.best_at() {
            Some(at) => rows_of(&posts[at]),
            None => &self.none,
        }
    }

    /// What the best rota costs.
    pub fn cost(&self) -> u64
        ensures cost { result ≡ self.now.book.cost }
        ensures sound { IsSound self.now.instance self.now.book }
    {
        self.outline.cost()
    }

    /// The nodes, by number.
    pub fn nodes(&self) -> &[NodeState]
        ensures nodes { result.now ≡ map state_of self.now.book.nodes }
        ensures count { length result.now ≡ length self.now.book.nodes }
        ensures sound { IsSound self.now.instance self.now.book }
    {
        self.outline.nodes()
    }

    /// The posts, from the first one on.
    pub fn history(&self) -> &[Post]
        ensures history { result.now ≡ self.now.history }
        ensures folds { book_of self.now.instance self.now.history ≡ Some self.now.book }
        ensures few { length self.now.book.nodes ≤ 1 + 2 * length self.now.history }
    {
        self.posts.as_slice()
    }

    /// The least of the best cost and the floors of the unsplit nodes: no legal rota costs less.
    pub fn floor(&self) -> u64
        ensures floor { result ≡ floor_of self.now.book }
        ensures sound { IsSound self.now.instance self.now.book }
    {
        least_floor(self.outline.nodes(), self.outline.cost())
    }

    /// Whether a node, by its number, is there and open: it isn't split, and its floor is below the best cost.
    pub fn is_open(&self, node: u32) -> bool
        ensures { result ≡ is_node_and self.now.book node (is_open self.now.book) }
    {
        let cost = self.outline.cost();
        match self.outline.nodes().get(node as usize) {
            Some(node) => !node.split && node.floor < cost,
            None => false,
        }
    }

    /// How many posts may be appended without memory.
    pub fn spare(&self) -> usize
        ensures { result ≡ self.now.spare }
    {
        self.outline.spare()
    }

    /// The cuts of a node, by its number, from the root on.
    pub fn cuts_of(&self, node: u32) -> Result<Cuts, NoMemory>
        requires { node < length self.now.book.nodes }
        ensures cuts { IfOk result (λ cuts. IsSomeAnd (slice_get self.now.book.nodes node) (λ n. cuts ≡ n.cuts)) }
        ensures few { IfOk result (λ cuts. length cuts ≤ node) }
    {
        let mut list = Vec::new(self.alloc);
        let mut at = node as usize;
        while at > 0 {
            let (above, cut) = self.cut_above(at)?;
            list.push(cut)?;
            at = above;
        }
        list.reverse();
        Ok(Cuts::new(list))
    }

    /// What is known already of a node: the prices last posted for it or above it, and the best rota.
    pub fn hint(&self, node: u32) -> Result<Hint, NoMemory>
        requires { node < length self.now.book.nodes }
    {
        let prices = self.last_prices(node as usize)?;
        let rows = self.best().clone()?;
        Ok(Hint { prices, rows })
    }

    /// The prices last posted for a node, or else for its nearest ancestor that has some, with the price 0 for each cut below that.
    fn last_prices(&self, node: usize) -> Result<Option<Prices>, NoMemory>
        requires { node < length self.now.book.nodes }
    {
        let mut at = node;
        let mut below = 0;
        while at > 0 && self.prices_of(at).is_none() {
            let (above, _cut) = self.cut_above(at)?;
            at = above;
            below += 1;
        }
        match self.prices_of(at) {
            Some(prices) => Ok(Some(deepened(prices, below)?)),
            None => Ok(None),
        }
    }

    /// The prices last posted for a node.
    fn prices_of(&self, node: usize) -> Option<&Prices> {
        match self.posts.as_slice().get(self.outline.priced_at(node)?)? {
            Post::Priced {
                worker: _,
                node: _,
                prices,
            } => Some(prices),
            _ => None,
        }
    }

    /// The posts that a worker's step for an unsplit node makes, with the numbers that go with them, the best cost after them and
    /// the node's floor. The state stays as it is.
    pub fn draft(&self, worker: u16, step: StepPosts) -> Result<StepDraft, NoMemory>
        requires fits { Fits self.now.instance step }
        requires few { length step.proved.cuts < 2 ^ 32 }
        requires cuts { step.proved.cuts ≡ cuts_in self.now.book.nodes step.node }
        requires unsplit { is_node_and self.now.book step.node (λ n. not n.split) ≡ true }
        ensures { IfOk result (Drafts self.now.instance self.now.book worker step) }
    {
        let (floor, best) = self.floor_and_best(step.node);
        draft_of(self.alloc, worker, floor, best, step)
    }

    /// The node's floor and the best cost after a step for an unsplit node, where the node would be open then. Only a step that
    /// is closed by its bound may leave it open.
    pub fn stays_open(&self, step: &StepPosts) -> Option<(u64, u64)>
        requires fits { Fits self.now.instance step.now }
        requires cuts { step.now.proved.cuts ≡ cuts_in self.now.book.nodes step.now.node }
        requires unsplit { is_node_and self.now.book step.now.node (λ n. not n.split) ≡ true }
        ensures open { IfSome result (λ p. (step.now.close ≡ ByPrice) × ((w : ℕ) → LeavesOpen self.now.instance self.now.book w step.now p.0 p.1)) }
        ensures closed { result ≡ None → (w : ℕ) → leaves_open self.now.instance self.now.book w step.now ≡ false }
    {
        let (floor, best) = self.floor_and_best(step.node);
        stays_open(step, floor, best)
    }

    /// The floor of a node that is there, and the cost of the best rota.
    pub fn floor_and_best(&self, node: u32) -> (u64, u64)
        requires { node < length self.now.book.nodes }
        ensures floor { result.0 ≡ floor_of_node self.now.book node }
        ensures best { result.1 ≡ self.now.book.cost }
        ensures valid { IsValid self.now.instance }
        ensures sound { IsSound self.now.instance self.now.book }
    {
        let _ = &self.alloc;
        let nodes = self.nodes();
        (nodes[node as usize].floor, self.cost())
    }

    /// The node of which a node is a part, and the cut that it has beside those of that node.
    fn cut_above(&self, node: usize) -> Result<(usize, Cut), NoMemory>
        requires below { 0 < node }
        requires there { node < length self.now.book.nodes }
        ensures { IfOk result (λ p. (p.0 < node) × (cuts_in self.now.book.nodes node ≡ cuts_in self.now.book.nodes p.0 ++ p.1 ∷ [])) }
    {
        let at = self.outline.splits()[(node - 1) / 2];
        let posts = &self.posts;
        part_of(&posts[at], node % 2 == 1)
    }

    /// Appends a worker's plan, where it is better than the best rota.
    pub(crate) fn step_plan(
        &mut self,
        instance: &Instance,
        worker: u16,
        rows: Rows,
        cost: u64,
    ) -> Result<(), StepFault>
        requires { instance.now ≡ self.old.instance }
        ensures ok { OnOk result (Steps self.old self.new (Plan worker rows cost)) }
        ensures unchanged { OnErr result (self.new ≡ self.old) }
        ensures err { IfErr result (Refuses (plan_fault self.old.instance self.old.book.cost rows cost)) }
    {
        if let Some(fault) = plan_fault(instance, &rows, cost, self.cost()) {
            return Err(fault);
        }
        self.reserve(1)?;
        self.append(Post::Plan { worker, rows, cost }, cost);
        Ok(())
    }

    /// Appends a worker's prices for an unsplit node, where they are a price set for its cuts.
    pub(crate) fn step_priced(
        &mut self,
        instance: &Instance,
        worker: u16,
        node: u32,
        prices: Prices,
    ) -> Result<(), StepFault>
        requires { instance.now ≡ self.old.instance }
        ensures ok { OnOk result (Steps self.old self.new (Priced worker node prices)) }
        ensures unchanged { OnErr result (self.new ≡ self.old) }
        ensures err { IfErr result (Refuses (priced_fault self.old.instance self.old.book node prices)) }
    {
        if let Some(fault) = self.unsplit_fault(node) {
            return Err(fault);
        }
        let cuts = self.cuts_of(node)?;
        let proved = self.buffers.prove(instance, cuts, prices)?;
        self.step_proved(instance, worker, node, proved)
    }

    /// Appends a worker's prices for an unsplit node, with the bound that is proved of them below its cuts, as a step with their
    /// post does. It is refused only where the node isn't there or is split.
    pub fn step_proved(
        &mut self,
        instance: &Instance,
        worker: u16,
        node: u32,
        proved: Proved,
    ) -> Result<(), StepFault>
        requires instance { instance.now ≡ self.old.instance }
        requires proved { proved.instance ≡ instance.now }
        requires cuts { IfSome (slice_get self.old.book.nodes node) (λ n. proved.cuts ≡ n.cuts) }
        ensures ok { OnOk result (Steps self.old self.new (Priced worker node proved.prices)) }
        ensures unchanged { OnErr result (self.new ≡ self.old) }
        ensures err { IfErr result (Refuses (unsplit_fault self.old.book node)) }
        // That is the first cause of a step with the post.
        ensures same { IfErr result (Refuses (step_fault self.old.instance self.old.book (Priced worker node proved.prices))) }
    {
        let _ = instance;
        if let Some(fault) = self.unsplit_fault(node) {
            return Err(fault);
        }
        let bound = proved.bound();
        let (_cuts, prices) = proved.into_parts();
        self.reserve(1)?;
        let post = Post::Priced {
            worker,
            node,
            prices,
        };
        self.append(post, bound);
        Ok(())
    }

    /// Appends a worker's split of an open node by the number of a live class, where the node's cuts leave it open.
    pub(crate) fn step_split(
        &mut self,
        instance: &Instance,
        worker: u16,
        node: u32,
        class: Class,
        m: u16,
    ) -> Result<(), StepFault>
        requires { instance.now ≡ self.old.instance }
        ensures ok { OnOk result (Steps self.old self.new (Split worker node class m)) }
        ensures unchanged { OnErr result (self.new ≡ self.old) }
        ensures err { IfErr result (Refuses (split_fault self.old.instance self.old.book node class m)) }
    {
        if let Some(fault) = self.open_fault(node) {
            return Err(fault);
        }
        if !is_live_class(self.alloc, instance, &class)? {
            return Err(StepFault::NotLive { class });
        }
        let (lo, hi) = range(instance, &self.cuts_of(node)?, &class);
        if m < lo || hi <= m {
            return Err(StepFault::OutOfRange { lo, hi });
        }
        self.reserve(1)?;
        let floor = self.nodes()[node as usize].floor;
        let post = Post::Split {
            worker,
            node,
            class,
            m,
        };
        self.append(post, floor);
        Ok(())
    }

    /// Gives an unsplit node whose cuts fix the number of each legal duty the cost of its plan as its floor, by a worker's post.
    pub(crate) fn step_settled(
        &mut self,
        instance: &Instance,
        worker: u16,
        node: u32,
    ) -> Result<(), StepFault>
        requires { instance.now ≡ self.old.instance }
        ensures ok { OnOk result (Steps self.old self.new (Settled worker node)) }
        ensures unchanged { OnErr result (self.new ≡ self.old) }
        ensures err { IfErr result (Refuses (settled_fault self.old.instance self.old.book node)) }
    {
        if let Some(fault) = self.unsplit_fault(node) {
            return Err(fault);
        }
        match settle(self.alloc, instance, self.cuts_of(node)?)? {
            Fixing::Open { class, m: _ } => Err(StepFault::NotSettled { class }),
            Fixing::Done(settled) => {
                self.reserve(1)?;
                self.append(Post::Settled { worker, node }, settled.floor());
                Ok(())
            }
        }
    }

    /// Appends a post, where it is allowed. Each kind has its causes of refusal: of a plan its rows, their cost, and a best
    /// rota that costs no more; of prices, splits and settled nodes a node that isn't there or is split, and then prices that
    /// aren't a price set for its cuts; a node that isn't open, a class that isn't live, and a number outside the range that
    /// the cuts leave; and cuts that leave some number open. The first that applies is answered.
    pub fn step(&mut self, instance: &Instance, post: Post) -> Result<(), StepFault>
        requires { instance.now ≡ self.old.instance }
        ensures ok { OnOk result (Steps self.old self.new post) }
        ensures unchanged { OnErr result (self.new ≡ self.old) }
        ensures err { IfErr result (Refuses (step_fault self.old.instance self.old.book post)) }
    {
        match post {
            Post::Plan { worker, rows, cost } => self.step_plan(instance, worker, rows, cost),
            Post::Priced {
                worker,
                node,
                prices,
            } => self.step_priced(instance, worker, node, prices),
            Post::Split {
                worker,
                node,
                class,
                m,
            } => self.step_split(instance, worker, node, class, m),
            Post::Settled { worker, node } => self.step_settled(instance, worker, node),
        }
    }

    /// Why a node isn't unsplit, if it isn't.
    fn unsplit_fault(&self, node: u32) -> Option<StepFault>
        ensures { result ≡ unsplit_fault self.now.book node }
    {
        match self.outline.nodes().get(node as usize) {
            None => Some(StepFault::NoNode { node }),
            Some(state) => {
                if state.split {
                    Some(StepFault::IsSplit { node })
                } else {
                    None
                }
            }
        }
    }

    /// Why a node isn't open, if it isn't.
    fn open_fault(&self, node: u32) -> Option<StepFault>
        ensures { result ≡ open_fault self.now.book node }
    {
        let best = self.outline.cost();
        match self.outline.nodes().get(node as usize) {
            None => Some(StepFault::NoNode { node }),
            Some(state) => {
                if state.split {
                    Some(StepFault::IsSplit { node })
                } else if best <= state.floor {
                    Some(StepFault::NotOpen {
                        floor: state.floor,
                        best,
                    })
                } else {
                    None
                }
            }
        }
    }
}
