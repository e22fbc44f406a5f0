//! What a state keeps of its book beside the posts.
ghost use Rattle.std.specs.Prelude.{◌≡◌, ◌<◌, ◌∷◌, [], None, false, length, max, fold, min, if◌then◌else◌, IfOk, OnOk, OnErr};
ghost use Rattle.search_core.specs.Outline.{acted, floor_at, with_best, with_floor, with_split, IsThere};

use break_rules::NoMemory;
use post_codec::Post;
use std::alloc::Global;
use std::marker::Model;

/// A node of a search, without its cuts.
#[derive(Clone, Copy, PartialEq, Eq, Drop)]
pub struct NodeState {
    /// What every legal rota below the node's cuts is known to cost at least.
    pub floor: u64,
    /// Whether the node is split, so that the rotas below it lie below younger nodes.
    pub split: bool,
}

/// The nodes of a book without their cuts, the places of the posts that split nodes and of the one with the best rota,
/// and what that rota costs. Beside them, for hints alone, the place of the last post of prices for each node.
#[derive(Drop)]
pub(crate) struct Outline {
    nodes: Vec<NodeState>,
    splits: Vec<usize>,
    priced: Vec<Option<usize>>,
    best_at: Option<usize>,
    cost: u64,
    spare: usize,
}

impl Model for Outline {
    ghost use Rattle.search_core.specs.Outline.{OutlineView};

    ghost Value = { OutlineView };

    ghost use Rattle.std.specs.Prelude.{◌+◌, ◌*◌, ◌≤◌, vec_len, vec_capacity};

    ghost view = { λ o. record { nodes = o.nodes.items; splits = o.splits.items; best_at = o.best_at; cost = o.cost; spare = o.spare } };

    ghost invariant = { λ o. (vec_len o.nodes + 2 * o.spare ≤ vec_capacity o.nodes) × (vec_len o.splits + o.spare ≤ vec_capacity o.splits) × (vec_len o.priced + 2 * o.spare ≤ vec_capacity o.priced) };
}

impl Outline {
    /// The outline of a book with one node of floor 0, of which the empty rota is best and costs so much.
    pub(crate) fn opening(alloc: Global, cost: u64) -> Result<Outline, NoMemory>
        ensures { IfOk result (λ o. o ≡ record { nodes = record { floor = 0; split = false } ∷ []; splits = []; best_at = None; cost = cost; spare = 0 }) }
    {
        let mut nodes = Vec::new(alloc);
        nodes.push(NodeState {
            floor: 0,
            split: false,
        })?;
        let mut priced = Vec::new(alloc);
        priced.push(None)?;
        Ok(Outline {
            nodes,
            splits: Vec::new(alloc),
            priced,
            best_at: None,
            cost,
            spare: 0,
        })
    }

    /// Makes room for so many posts.
    pub(crate) fn reserve(&mut self, posts: u32) -> Result<(), NoMemory>
        ensures ok { OnOk result (self.new ≡ record self.old { spare = max self.old.spare posts }) }
        ensures err { OnErr result (self.new ≡ self.old) }
    {
        let posts = posts as usize;
        if posts <= self.spare {
            return Ok(());
        }
        self.nodes.reserve(2 * posts)?;
        self.splits.reserve(posts)?;
        self.priced.reserve(2 * posts)?;
        self.spare = posts;
        Ok(())
    }

    /// The nodes, by number.
    pub(crate) fn nodes(&self) -> &[NodeState]
        ensures { result.now ≡ self.now.nodes }
    {
        self.nodes.as_slice()
    }

    /// The places of the posts that split nodes.
    pub(crate) fn splits(&self) -> &[usize]
        ensures { result.now ≡ self.now.splits }
    {
        self.splits.as_slice()
    }

    /// The place of the post with the best rota.
    pub(crate) fn best_at(&self) -> Option<usize>
        ensures { result ≡ self.now.best_at }
    {
        self.best_at
    }

    /// What the best rota costs.
    pub(crate) fn cost(&self) -> u64
        ensures { result ≡ self.now.cost }
    {
        self.cost
    }

    /// For how many posts there is room.
    pub(crate) fn spare(&self) -> usize
        ensures { result ≡ self.now.spare }
    {
        self.spare
    }

    /// Follows a post at a place, with the number that goes with it.
    pub(crate) fn act(&mut self, post: &Post, value: u64, at: usize)
        requires room { 0 < self.old.spare }
        requires there { IsThere self.old.nodes post.now }
        ensures { self.new ≡ acted self.old post.now value at }
    {
        match post {
            Post::Plan {
                worker: _,
                rows: _,
                cost: _,
            } => self.set_best(at, value),
            Post::Priced {
                worker: _,
                node,
                prices: _,
            } => {
                self.raise_floor(*node as usize, value);
                self.keep_prices(*node as usize, at);
            }
            Post::Split {
                worker: _,
                node,
                class: _,
                m: _,
            } => self.split(*node as usize, value, at),
            Post::Settled { worker: _, node } => self.set_floor(*node as usize, value),
        }
    }

    /// The rota of the post at a place becomes best.
    fn set_best(&mut self, at: usize, cost: u64)
        requires { 0 < self.old.spare }
        ensures { self.new ≡ with_best self.old at cost }
    {
        self.spare -= 1;
        self.best_at = Some(at);
        self.cost = cost;
    }

    /// An unsplit node gets a floor.
    fn set_floor(&mut self, node: usize, floor: u64)
        requires room { 0 < self.old.spare }
        requires there { node < length self.old.nodes }
        ensures { self.new ≡ with_floor self.old node floor }
    {
        self.spare -= 1;
        self.nodes[node] = NodeState {
            floor,
            split: false,
        };
    }

    /// An unsplit node gets a floor, where that is higher.
    fn raise_floor(&mut self, node: usize, floor: u64)
        requires room { 0 < self.old.spare }
        requires there { node < length self.old.nodes }
        ensures { self.new ≡ with_floor self.old node (max (floor_at self.old.nodes node) floor) }
    {
        let nodes = &self.nodes;
        let old = nodes[node].floor;
        self.set_floor(node, old.max(floor));
    }

    /// The place of the last post of prices for a node.
    pub(crate) fn priced_at(&self, node: usize) -> Option<usize> {
        *self.priced.as_slice().get(node)?
    }

    /// The last post of prices for a node is at a place.
    fn keep_prices(&mut self, node: usize, at: usize)
        ensures { self.new ≡ self.old }
    {
        if node < self.priced.len() {
            self.priced[node] = Some(at);
        }
    }

    /// A node with that floor is split by the post at a place.
    fn split(&mut self, node: usize, floor: u64, at: usize)
        requires room { 0 < self.old.spare }
        requires there { node < length self.old.nodes }
        ensures { self.new ≡ with_split self.old node floor at }
    {
        self.spare -= 1;
        self.nodes[node] = NodeState { floor, split: true };
        let at_most = NodeState {
            floor,
            split: false,
        };
        let at_least = at_most;
        self.nodes.push_reserved(at_most);
        self.nodes.push_reserved(at_least);
        self.priced.push_reserved(None);
        self.priced.push_reserved(None);
        self.splits.push_reserved(at);
    }
}

/// The least of a cost and the floors of the unsplit nodes.
pub(crate) fn least_floor(nodes: &[NodeState], cost: u64) -> u64
    ensures { result ≡ fold (λ f n. if n.split then f else min f n.floor) cost nodes.now }
{
    let mut floor = cost;
    for node in nodes {
        if !node.split {
            floor = floor.min(node.floor);
        }
    }
    floor
}
