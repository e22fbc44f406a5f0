//! The nodes that proof lines make, and what further lines make of one of them alone.
ghost use Rattle.std.specs.Prelude.{◌≡◌, ◌<◌, ◌≤◌, ◌^◌, ◌∷◌, ◌++◌, [], false, IfOk, IsSomeAnd, length, slice_get, slice_set};
ghost use Rattle.std.specs.Option.{option_map_or};
ghost use Rattle.head_splits.specs.Nodes.{new_node};
ghost use Rattle.certificate.specs.Accepted.{nodes_after};
ghost use Rattle.report_grafts.specs.Run.{floor_up_to};
ghost use Rattle.report_nodes.specs.Made.{HasRoom, with_below};

use crate::growing::{lines_after, nodes_below};
use crate::node::TreeNode;
use break_rules::NoMemory;
use certificate::Lines;
use head_splits::Cuts;
use shift_instance::Instance;
use std::alloc::Global;
use std::marker::Model;

/// The least of a cost and the floors of the unsplit nodes.
fn least_floor(nodes: &[TreeNode], cost: u64) -> u64
    ensures { result ≡ floor_up_to cost nodes.now }
{
    let mut floor = cost;
    for node in nodes {
        if !node.is_split() {
            floor = floor.min(node.floor());
        }
    }
    floor
}

/// Nodes with copies of others behind them.
fn with_copies(nodes: Vec<TreeNode>, more: &[TreeNode]) -> Result<Vec<TreeNode>, NoMemory>
    ensures { IfOk result (λ all. all.items ≡ nodes.items ++ more.now) }
{
    let mut nodes = nodes;
    for node in more {
        nodes.push(node.copy()?)?;
    }
    Ok(nodes)
}

/// A node once more, alone.
fn alone(alloc: Global, node: &TreeNode) -> Result<Vec<TreeNode>, NoMemory>
    ensures { IfOk result (λ nodes. nodes.items ≡ node.now ∷ []) }
{
    let copy = node.copy()?;
    let nodes = vec![in alloc; copy]?;
    Ok(nodes)
}

/// Nodes after one of them is written over.
fn with_node(nodes: Vec<TreeNode>, k: usize, node: TreeNode) -> Vec<TreeNode>
    requires { k < length nodes.items }
    ensures { result.items ≡ slice_set nodes.items k node }
{
    let mut nodes = nodes;
    nodes[k] = node;
    nodes
}

/// The nodes that proof lines made, by their numbers.
#[derive(Drop)]
pub struct NodeTree {
    nodes: Vec<TreeNode>,
}

impl Model for NodeTree {
    ghost use Rattle.std.specs.Prelude.{List};
    ghost use Rattle.head_splits.specs.Nodes.{Node};

    ghost Value = { List Node };

    ghost view = { λ tree. tree.nodes.items };
}

impl NodeTree {
    /// The nodes that proof lines make of one with these cuts, and nothing where one of them isn't good.
    pub fn below(
        alloc: Global,
        instance: &Instance,
        base: Cuts,
        lines: &Lines,
    ) -> Result<Option<NodeTree>, NoMemory>
        requires base { length base ≤ 2 ^ 32 }
        requires lines { length lines.now ≤ 2 ^ 32 }
        ensures { IfOk result (λ tree. tree ≡ nodes_after instance.now (new_node base ∷ []) lines.now) }
    {
        match nodes_below(alloc, instance, base, lines)? {
            Some(nodes) => Ok(Some(NodeTree { nodes })),
            None => Ok(None),
        }
    }

    /// The nodes after further proof lines, and nothing where one of them isn't good.
    pub fn after(
        self,
        alloc: Global,
        instance: &Instance,
        lines: &Lines,
    ) -> Result<Option<NodeTree>, NoMemory>
        requires room { HasRoom self }
        requires lines { length lines.now ≤ 2 ^ 32 }
        ensures { IfOk result (λ tree. tree ≡ nodes_after instance.now self lines.now) }
    {
        match lines_after(alloc, instance, self.nodes, lines)? {
            Some(nodes) => Ok(Some(NodeTree { nodes })),
            None => Ok(None),
        }
    }

    /// The nodes once more.
    pub fn copy(&self, alloc: Global) -> Result<NodeTree, NoMemory>
        ensures { IfOk result (λ copy. copy ≡ self.now) }
    {
        let nodes = with_copies(Vec::new(alloc), &self.nodes)?;
        Ok(NodeTree { nodes })
    }

    /// A node once more, alone.
    pub fn at(&self, alloc: Global, node: usize) -> Result<NodeTree, NoMemory>
        requires { node < length self.now }
        ensures { IfOk result (λ tree. IsSomeAnd (slice_get self.now node) (λ n. tree ≡ n ∷ [])) }
    {
        let nodes = &self.nodes;
        let nodes = alone(alloc, &nodes[node])?;
        Ok(NodeTree { nodes })
    }

    /// The nodes with those that were made of one of them alone.
    pub fn with_below(self, node: usize, below: &NodeTree) -> Result<NodeTree, NoMemory>
        requires { node < length self }
        ensures { IfOk result (λ tree. tree ≡ with_below self node below.now) }
    {
        match below.nodes.as_slice() {
            [] => Ok(self),
            [first, rest @ ..] => {
                let nodes = with_node(self.nodes, node, first.copy()?);
                let nodes = with_copies(nodes, rest)?;
                Ok(NodeTree { nodes })
            }
        }
    }

    /// How many nodes there are.
    pub fn len(&self) -> usize
        ensures { result ≡ length self.now }
    {
        self.nodes.len()
    }

    /// Whether a node of that number is there and split.
    pub fn is_split(&self, node: usize) -> bool
        ensures { result ≡ option_map_or (λ n. n.split) (slice_get self.now node) false }
    {
        let nodes = &self.nodes;
        node < nodes.len() && nodes[node].is_split()
    }

    /// The cuts of a node.
    pub fn cuts_of(&self, node: usize) -> Result<Cuts, NoMemory>
        requires { node < length self.now }
        ensures { IfOk result (λ cuts. IsSomeAnd (slice_get self.now node) (λ n. cuts ≡ n.cuts)) }
    {
        let nodes = &self.nodes;
        nodes[node].copy_of_cuts()
    }

    /// The least of a cost and the floors of the unsplit nodes.
    pub fn least_floor(&self, cost: u64) -> u64
        ensures { result ≡ floor_up_to cost self.now }
    {
        least_floor(&self.nodes, cost)
    }
}
