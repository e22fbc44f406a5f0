//! The splits of proof lines, by which the cuts of each node are found.
ghost use Rattle.std.specs.Prelude.{◌≡◌, ◌≤◌, ◌*◌, ◌==◌, [], List, length, IfOk, if◌then◌else◌};
ghost use Rattle.std.specs.List.{list_any};
ghost use Rattle.head_splits.specs.Nodes.{Node};
ghost use Rattle.report_grafts.specs.Branches.{at_least, at_most, branches_of, cuts_at, AreBranches, MakeNodes};

use break_rules::NoMemory;
use certificate::{Line, Lines};
use head_splits::{Class, Cut, Cuts, Side};
use std::alloc::Global;

/// A split of a node by the number of a class's duties, into at most `m` and at least `m + 1`.
#[derive(Drop)]
pub(crate) struct Branch {
    /// The number of the node that is split.
    pub(crate) node: u32,
    /// The class.
    pub(crate) class: Class,
    /// The most of its duties in the first part.
    pub(crate) m: u16,
}

/// The splits of proof lines, in their order.
pub(crate) fn branches_of(alloc: Global, lines: &Lines) -> Result<Vec<Branch>, NoMemory>
    ensures { IfOk result (λ branches. branches.items ≡ branches_of lines.now) }
{
    let mut branches = Vec::new(alloc);
    let mut reader = lines.reader();
    while let Some(line) = reader.next_line(alloc)? {
        if let Line::Split { node, class, m } = line {
            branches.push(Branch { node, class, m })?;
        }
    }
    Ok(branches)
}

/// Whether some split is of the node of that number.
pub(crate) fn is_split(branches: &[Branch], node: u32) -> bool
    ensures { result ≡ list_any (λ b. b.node == node) branches.now }
{
    branches.iter().any(|branch| branch.node == node)
}

/// The cut of one of the parts of a split.
fn part_of(branch: &Branch, is_first: bool) -> Result<Cut, NoMemory>
    requires { branch.now.m ≤ 200 }
    ensures { IfOk result (λ cut. cut ≡ (if is_first then at_most branch.now else at_least branch.now)) }
{
    let class = branch.class.clone()?;
    Ok(if is_first {
        Cut {
            class,
            side: Side::AtMost,
            m: branch.m,
        }
    } else {
        Cut {
            class,
            side: Side::AtLeast,
            m: branch.m + 1,
        }
    })
}

/// The cuts of the node of that number, from the root on, where the root has none.
pub(crate) fn cuts_of(alloc: Global, branches: &[Branch], node: usize) -> Result<Cuts, NoMemory>
    requires made { AreBranches branches.now }
    requires there { node ≤ 2 * length branches.now }
    ensures { IfOk result (λ cuts. (nodes : List Node) → MakeNodes [] branches.now nodes → cuts ≡ cuts_at nodes node) }
{
    let mut list = Vec::new(alloc);
    let mut at = node;
    while at > 0 {
        let branch = &branches[(at - 1) / 2];
        list.push(part_of(branch, at % 2 == 1)?)?;
        at = branch.node as usize;
    }
    list.reverse();
    Ok(Cuts::new(list))
}
