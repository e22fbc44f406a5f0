//! Nodes of a search below some cuts.
ghost use Rattle.std.specs.Prelude.{◌≡◌, false, true};
ghost use Rattle.head_splits.specs.Nodes.{new_node};
ghost use Rattle.subtree_search.specs.Searching.{is_open};

use head_splits::Cuts;
use std::marker::Model;

/// A node: its cuts, what every legal rota that meets them costs at least, and whether it is split.
#[derive(Drop)]
pub(crate) struct SearchNode {
    cuts: Cuts,
    floor: u64,
    split: bool,
    /// The proof line that priced the node or, where none did, the nearest node above it: for hints alone.
    priced_by: Option<usize>,
}

impl Model for SearchNode {
    ghost use Rattle.head_splits.specs.Nodes.{Node};

    ghost Value = { Node };

    ghost view = { λ n. record { cuts = n.cuts; floor = n.floor; split = n.split } };
}

impl SearchNode {
    /// The node with these cuts of which nothing is known.
    pub(crate) fn new(cuts: Cuts) -> SearchNode
        ensures { result ≡ new_node cuts }
    {
        SearchNode {
            cuts,
            floor: 0,
            split: false,
            priced_by: None,
        }
    }

    /// A part of a node: it has one cut more, the same floor, and isn't split.
    pub(crate) fn part(cuts: Cuts, floor: u64, priced_by: Option<usize>) -> SearchNode
        ensures { result ≡ record { cuts = cuts; floor = floor; split = false } }
    {
        SearchNode {
            cuts,
            floor,
            split: false,
            priced_by,
        }
    }

    /// The cuts.
    pub(crate) fn cuts(&self) -> &Cuts
        ensures { result.now ≡ self.now.cuts }
    {
        &self.cuts
    }

    /// What every legal rota that meets the cuts costs at least.
    pub(crate) fn floor(&self) -> u64
        ensures { result ≡ self.now.floor }
    {
        self.floor
    }

    /// Whether the node is split.
    pub(crate) fn is_split(&self) -> bool
        ensures { result ≡ self.now.split }
    {
        self.split
    }

    /// The proof line that priced the node or, where none did, the nearest node above it.
    pub(crate) fn priced_by(&self) -> Option<usize> {
        self.priced_by
    }

    /// Whether the node is open below a cost: it is unsplit, and its floor is less.
    pub(crate) fn is_open(&self, cost: u64) -> bool
        ensures { result ≡ is_open cost self.now }
    {
        !self.split && self.floor < cost
    }

    /// Gives the node a floor.
    pub(crate) fn set_floor(&mut self, floor: u64)
        ensures { self.new ≡ record self.old { floor = floor } }
    {
        self.floor = floor;
    }

    /// Gives the node the floor that a proof line shows which prices it.
    pub(crate) fn price(&mut self, floor: u64, line: usize)
        ensures { self.new ≡ record self.old { floor = floor } }
    {
        self.floor = floor;
        self.priced_by = Some(line);
    }

    /// Splits the node.
    pub(crate) fn split(&mut self)
        ensures { self.new ≡ record self.old { split = true } }
    {
        self.split = true;
    }
}
