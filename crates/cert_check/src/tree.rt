//! The nodes that the proof lines make, as a checker keeps them: each node but the root with the one cut that it has beside
//! those of the node of which it is a part.

ghost use Rattle.std.specs.Prelude.{◌≡◌, ◌<◌, ◌≤◌, ◌∷◌, [], not, false, max, length, slice_get, Some, IfOk, OnOk, IsSomeAnd};
ghost use Rattle.std.specs.Option.{option_map, option_map_or};
ghost use Rattle.head_splits.specs.Nodes.{new_node, with_floor, with_split};
ghost use Rattle.certificate.specs.Accepted.{least_floor};
ghost use Rattle.cert_check.specs.Tree.{IsCutAbove};

use break_rules::NoMemory;
use head_splits::{Class, Cut, Cuts, Side};
use shift_instance::TOP;
use std::alloc::Global;
use std::marker::Model;

/// A node as one part of an older node.
#[derive(Drop)]
pub struct Part {
    /// The number of the older node.
    pub above: usize,
    /// The cut that the part has beside those of the older node.
    pub cut: Cut,
}

/// A node, whose cuts are found by its part and those above it.
#[derive(Drop)]
pub struct KeptNode {
    /// The part that the node is, and none for the root.
    pub part: Option<Part>,
    /// What every legal rota below the node's cuts costs at least.
    pub floor: u64,
    /// Whether the node is split.
    pub split: bool,
}

/// The nodes, by number. Node 0 is the root, which has no cut.
#[derive(Drop)]
pub struct Tree {
    alloc: Global,
    kept: Vec<KeptNode>,
}

impl Model for Tree {
    ghost use Rattle.std.specs.Prelude.{List};
    ghost use Rattle.head_splits.specs.Nodes.{Node};
    ghost use Rattle.cert_check.specs.Tree.{ArePartsOlder, nodes_in};

    ghost Value = { List Node };

    ghost view = { λ t. nodes_in t.kept.items };

    ghost invariant = { λ t. ArePartsOlder t.kept.items };
}

/// The part of an older node by a cut on a class.
fn part_of(above: usize, class: &Class, side: Side, m: u16) -> Result<Part, NoMemory>
    ensures { IfOk result (λ part. part ≡ record { above = above; cut = record { class = class.now; side = side; m = m } }) }
{
    let class = class.clone()?;
    Ok(Part {
        above,
        cut: Cut { class, side, m },
    })
}

/// A part that isn't split, with a floor.
fn new_part(part: Part, floor: u64) -> KeptNode
    ensures { result ≡ record { part = Some part; floor = floor; split = false } }
{
    KeptNode {
        part: Some(part),
        floor,
        split: false,
    }
}

/// The number of the node of which a node is a part with the cut that it has beside those of that node, and none for the root.
fn cut_of(node: &KeptNode) -> Result<Option<(usize, Cut)>, NoMemory>
    ensures { IfOk result (λ above. above ≡ option_map (λ p. (p.above, p.cut)) node.now.part) }
{
    match &node.part {
        Some(part) => Ok(Some((part.above, part.cut.clone()?))),
        None => Ok(None),
    }
}

impl Tree {
    /// The root alone.
    pub fn root(alloc: Global) -> Result<Tree, NoMemory>
        ensures { IfOk result (λ tree. tree ≡ new_node [] ∷ []) }
    {
        let mut kept = Vec::new(alloc);
        kept.push(KeptNode {
            part: None,
            floor: 0,
            split: false,
        })?;
        Ok(Tree { alloc, kept })
    }

    /// How many nodes there are.
    pub fn len(&self) -> usize
        ensures { result ≡ length self.now }
    {
        self.kept.len()
    }

    /// Whether a node of that number is there and unsplit.
    pub fn is_unsplit(&self, node: usize) -> bool
        ensures { result ≡ option_map_or (λ n. not n.split) (slice_get self.now node) false }
    {
        let kept = &self.kept;
        node < kept.len() && !kept[node].split
    }

    /// The same of the node of that number.
    fn cut_above(&self, node: usize) -> Result<Option<(usize, Cut)>, NoMemory>
        requires { node < length self.now }
        ensures { IfOk result (λ above. IsCutAbove self.now node above) }
    {
        let kept = &self.kept;
        cut_of(&kept[node])
    }

    /// The cuts of a node, from the root on.
    pub fn cuts_of(&self, node: usize) -> Result<Cuts, NoMemory>
        requires { node < length self.now }
        ensures cuts { IfOk result (λ cuts. IsSomeAnd (slice_get self.now node) (λ n. cuts ≡ n.cuts)) }
        ensures few { IfOk result (λ cuts. length cuts ≤ node) }
    {
        let mut list = Vec::new(self.alloc);
        let mut at = node;
        while let Some((above, cut)) = self.cut_above(at)? {
            list.push(cut)?;
            at = above;
        }
        list.reverse();
        Ok(Cuts::new(list))
    }

    /// Gives a node a floor.
    pub fn set_floor(&mut self, node: usize, floor: u64)
        requires { node < length self.old }
        ensures { IsSomeAnd (slice_get self.old node) (λ n. self.new ≡ with_floor self.old node n floor) }
    {
        self.kept[node].floor = floor;
    }

    /// Gives a node a floor, where that is greater than the one that it has.
    pub fn raise_floor(&mut self, node: usize, floor: u64)
        requires { node < length self.old }
        ensures { IsSomeAnd (slice_get self.old node) (λ n. self.new ≡ with_floor self.old node n (max n.floor floor)) }
    {
        let kept = &self.kept;
        let old = kept[node].floor;
        self.set_floor(node, old.max(floor));
    }

    /// Splits a node by the number of a class's duties: into at most `m`, and at least `m + 1`.
    pub fn split(&mut self, node: usize, class: &Class, m: u16) -> Result<(), NoMemory>
        requires there { node < length self.old }
        requires number { m ≤ 200 }
        ensures { OnOk result (IsSomeAnd (slice_get self.old node) (λ n. self.new ≡ with_split self.old node n class.now m)) }
    {
        let at_most = part_of(node, class, Side::AtMost, m)?;
        let at_least = part_of(node, class, Side::AtLeast, m + 1)?;
        let kept = &self.kept;
        let floor = kept[node].floor;
        self.kept.reserve(2)?;
        self.kept[node].split = true;
        self.kept.push_reserved(new_part(at_most, floor));
        self.kept.push_reserved(new_part(at_least, floor));
        Ok(())
    }

    /// The least floor of the unsplit nodes, and `TOP` where that is less.
    pub fn least_floor(&self) -> u64
        ensures { result ≡ least_floor self.now }
    {
        let mut least = TOP;
        for node in &self.kept {
            if !node.split {
                least = least.min(node.floor);
            }
        }
        least
    }
}
