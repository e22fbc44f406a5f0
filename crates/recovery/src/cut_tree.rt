//! The cuts of the nodes that splits make, for workers that look at the same time.
ghost use Rattle.std.specs.Prelude.{◌≡◌, ◌≤◌, ◌<◌, ◌∷◌, ◌++◌, [], length, IfOk, OnOk};
ghost use Rattle.recovery.specs.CutTree.{cut_of};
ghost use Rattle.recovery.specs.NodeCuts.{cuts_at, divided};

use break_rules::NoMemory;
use head_splits::{Class, Cut, Cuts, Side};
use std::alloc::Global;
use std::marker::Model;

/// A node that is split in two by the number of a class: its duties are at most `m`, or at least one more.
#[derive(Drop)]
struct Division {
    node: usize,
    class: Class,
    m: u16,
}

/// The nodes of a search without their floors. Node 0 is the root, which has no cut, and the two parts of a split stand behind all
/// nodes before it.
#[derive(Drop)]
pub(crate) struct CutTree {
    alloc: Global,
    divisions: Vec<Division>,
}

impl Model for CutTree {
    ghost use Rattle.std.specs.Prelude.{List};
    ghost use Rattle.head_splits.specs.declared.Cut.{Cut};
    ghost use Rattle.recovery.specs.CutTree.{nodes_in, AreOlder};

    ghost Value = { List (List Cut) };

    ghost view = { λ t. nodes_in t.divisions.items };

    ghost invariant = { λ t. AreOlder t.divisions.items };
}

/// The cut of one of the two parts of a division.
fn cut_of(division: &Division, first: bool) -> Result<Cut, NoMemory>
    requires { division.now.m < 65535 }
    ensures { IfOk result (λ cut. cut ≡ cut_of division.now first) }
{
    let class = division.class.clone()?;
    if first {
        return Ok(Cut {
            class,
            side: Side::AtMost,
            m: division.m,
        });
    }
    Ok(Cut {
        class,
        side: Side::AtLeast,
        m: division.m + 1,
    })
}

impl CutTree {
    /// The root alone.
    pub(crate) fn root(alloc: Global) -> CutTree
        ensures { result ≡ [] ∷ [] }
    {
        CutTree {
            alloc,
            divisions: Vec::new(alloc),
        }
    }

    /// How many nodes there are.
    pub(crate) fn len(&self) -> usize
        ensures { result ≡ length self.now }
    {
        1 + 2 * self.divisions.len()
    }

    /// Splits a node by the number of a class, where it is there and one more than the number is a number too. Nothing else is
    /// looked at.
    pub(crate) fn split(&mut self, node: u32, class: &Class, m: u16) -> Result<(), NoMemory>
        ensures { OnOk result (self.new ≡ divided self.old node class.now m) }
    {
        let node = node as usize;
        if self.len() <= node || m == u16::MAX {
            return Ok(());
        }
        let class = class.clone()?;
        self.divisions.push(Division { node, class, m })?;
        Ok(())
    }

    /// The node of which a node is a part, and the cut that it has beside those of that node.
    fn cut_above(&self, node: usize) -> Result<(usize, Cut), NoMemory>
        requires below { 0 < node }
        requires there { node < length self.now }
        ensures { IfOk result (λ p. (p.0 < node) × (cuts_at self.now node ≡ cuts_at self.now p.0 ++ p.1 ∷ [])) }
    {
        let divisions = &self.divisions;
        let division = &divisions[(node - 1) / 2];
        let cut = cut_of(division, node % 2 == 1)?;
        Ok((division.node, cut))
    }

    /// The cuts of a node, from the root on.
    pub(crate) fn cuts_of(&self, node: usize) -> Result<Cuts, NoMemory>
        requires { node < length self.now }
        ensures cuts { IfOk result (λ cuts. cuts ≡ cuts_at self.now node) }
        ensures few { IfOk result (λ cuts. length cuts ≤ node) }
    {
        let mut list = Vec::new(self.alloc);
        let mut at = node;
        while at > 0 {
            let (above, cut) = self.cut_above(at)?;
            list.push(cut)?;
            at = above;
        }
        list.reverse();
        Ok(Cuts::new(list))
    }
}
