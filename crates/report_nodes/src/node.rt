//! Nodes of a report.
ghost use Rattle.std.specs.Prelude.{◌≡◌, true, IfOk, length};
ghost use Rattle.head_splits.specs.Nodes.{child, new_node};
ghost use Rattle.report_nodes.specs.Listed.{is_open};

use break_rules::NoMemory;
use head_splits::{Class, Cut, Cuts, Side};
use std::marker::Model;

/// A node: its cuts, what every legal rota that meets them costs at least, and whether it is split.
#[derive(Drop)]
pub(crate) struct TreeNode {
    cuts: Cuts,
    floor: u64,
    split: bool,
}

impl Model for TreeNode {
    ghost use Rattle.head_splits.specs.Nodes.{Node};

    ghost Value = { Node };

    ghost view = { λ n. record { cuts = n.cuts; floor = n.floor; split = n.split } };
}

impl TreeNode {
    /// The node with these cuts of which nothing is known.
    pub(crate) fn new(cuts: Cuts) -> TreeNode
        ensures { result ≡ new_node cuts }
    {
        TreeNode {
            cuts,
            floor: 0,
            split: false,
        }
    }

    /// The part of the node that has one cut more.
    pub(crate) fn part(&self, class: Class, side: Side, m: u16) -> Result<TreeNode, NoMemory>
        ensures { IfOk result (λ part. part ≡ child self.now class side m) }
    {
        let mut cuts = self.copy_of_cuts()?.into_vec();
        cuts.push(Cut { class, side, m })?;
        Ok(TreeNode {
            cuts: Cuts::new(cuts),
            floor: self.floor,
            split: false,
        })
    }

    /// The node once more.
    pub(crate) fn copy(&self) -> Result<TreeNode, NoMemory>
        ensures { IfOk result (λ copy. copy ≡ self.now) }
    {
        Ok(TreeNode {
            cuts: self.copy_of_cuts()?,
            floor: self.floor,
            split: self.split,
        })
    }

    /// How many cuts the node has.
    pub(crate) fn cut_count(&self) -> usize
        ensures { result ≡ length self.now.cuts }
    {
        self.cuts.len()
    }

    /// The cuts once more.
    pub(crate) fn copy_of_cuts(&self) -> Result<Cuts, NoMemory>
        ensures { IfOk result (λ copy. copy ≡ self.now.cuts) }
    {
        let copy = self.cuts.clone()?;
        Ok(copy)
    }

    /// What every legal rota that meets the cuts costs at least.
    pub(crate) fn floor(&self) -> u64
        ensures { result ≡ self.now.floor }
    {
        self.floor
    }

    /// Whether the node is split.
    pub(crate) fn is_split(&self) -> bool
        ensures { result ≡ self.now.split }
    {
        self.split
    }

    /// Whether the node is open below a cost: it is unsplit, and its floor is less.
    pub(crate) fn is_open(&self, cost: u64) -> bool
        ensures { result ≡ is_open cost self.now }
    {
        !self.split && self.floor < cost
    }

    /// Gives the node a floor.
    pub(crate) fn set_floor(&mut self, floor: u64)
        ensures { self.new ≡ record self.old { floor = floor } }
    {
        self.floor = floor;
    }

    /// Splits the node.
    pub(crate) fn split(&mut self)
        ensures { self.new ≡ record self.old { split = true } }
    {
        self.split = true;
    }
}
