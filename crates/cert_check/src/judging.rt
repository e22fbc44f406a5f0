//! Whether proof lines are good, one after another.

ghost use Rattle.std.specs.Prelude.{◌≡◌, ◌≤◌, ◌<◌, ◌&&◌, ◌∷◌, [], None, Some, true, length, slice_get, IfOk, IfErr, IsSomeAnd, if◌then◌else◌};
ghost use Rattle.head_splits.specs.Nodes.{new_node, with_floor};
ghost use Rattle.certificate.specs.declared.proof_lines.Line.TheVariants.{Split};
ghost use Rattle.certificate.specs.Accepted.{is_split, node_of, nodes_after, nodes_of};
ghost use Rattle.cert_check.specs.Floors.{given_floor, gives_floor, IsFindingOf};
ghost use Rattle.cert_check.specs.Judged.{bad_line, line_cause, IsFirstBad};

use crate::findings::{Finding, floor_by};
use crate::judged::Refused;
use crate::terms::WalkMemory;
use crate::tree::Tree;
use break_rules::NoMemory;
use certificate::{Line, Lines};
use head_splits::Class;
use shift_instance::Instance;
use std::alloc::Global;

/// Whether a node may be split by the number of a class's duties into at most `m` and at least `m + 1`. It doesn't matter
/// whether any duty is in the class.
fn is_split(instance: &Instance, class: &Class, m: u16) -> bool
    ensures split { result ≡ is_split instance.now class.now m }
    ensures number { result ≡ true → m ≤ 200 }
{
    usize::from(class.shift) < instance.shifts().len()
        && class.day < instance.days()
        && class.prefix.as_slice().len() <= 48
        && m <= 200
}

/// Whether a node is there and unsplit and may be split so. If so, it is.
pub(crate) fn split_node(
    instance: &Instance,
    tree: &mut Tree,
    node: u32,
    class: &Class,
    m: u16,
) -> Result<bool, NoMemory>
    ensures { IfOk result (λ good. nodes_after instance.now tree.old (Split node class.now m ∷ []) ≡ (if good then Some tree.new else None)) }
{
    let node = node as usize;
    if !tree.is_unsplit(node) || !is_split(instance, class, m) {
        return Ok(false);
    }
    tree.split(node, class, m)?;
    Ok(true)
}

/// Gives a node the floor that a proof line gives it: that of prices where it is greater than the one that it has, and that of a
/// settled node.
fn give_floor(tree: &mut Tree, node: usize, line: &Line, floor: u64)
    requires { node < length tree.old }
    ensures { IsSomeAnd (slice_get tree.old node) (λ n. tree.new ≡ with_floor tree.old node n (given_floor n line.now floor)) }
{
    match line {
        Line::Priced { node: _, prices: _ } => tree.raise_floor(node, floor),
        _ => tree.set_floor(node, floor),
    }
}

/// Whether a node is there and unsplit and a proof line gives it a floor. If so, it has it.
fn lift_node(
    alloc: Global,
    instance: &Instance,
    memory: &mut WalkMemory,
    tree: &mut Tree,
    node: u32,
    line: &Line,
    found: &Option<Finding>,
) -> Result<bool, NoMemory>
    requires memory { memory.old ≡ instance.now }
    requires found { IsFindingOf instance.now line.now found.now }
    requires names { node_of line.now ≡ node }
    requires gives { gives_floor line.now ≡ true }
    ensures nodes { IfOk result (λ good. nodes_after instance.now tree.old (line.now ∷ []) ≡ (if good then Some tree.new else None)) }
    ensures memory { memory.new ≡ memory.old }
{
    let node = node as usize;
    if !tree.is_unsplit(node) {
        return Ok(false);
    }
    let cuts = tree.cuts_of(node)?;
    match floor_by(alloc, instance, memory, &cuts, line, found)? {
        Some(floor) => {
            give_floor(tree, node, line, floor);
            Ok(true)
        }
        None => Ok(false),
    }
}

/// Whether a proof line is good for the nodes that those before it make. If so, the nodes become what it makes of them. What was
/// found of the line before serves where it was found for the cuts of the line's node.
pub(crate) fn judge_line(
    alloc: Global,
    instance: &Instance,
    memory: &mut WalkMemory,
    tree: &mut Tree,
    line: &Line,
    found: &Option<Finding>,
) -> Result<bool, NoMemory>
    requires memory { memory.old ≡ instance.now }
    requires found { IsFindingOf instance.now line.now found.now }
    ensures nodes { IfOk result (λ good. nodes_after instance.now tree.old (line.now ∷ []) ≡ (if good then Some tree.new else None)) }
    ensures memory { memory.new ≡ memory.old }
{
    match line {
        Line::Split { node, class, m } => split_node(instance, tree, *node, class, *m),
        Line::Priced { node, prices: _ } => {
            lift_node(alloc, instance, memory, tree, *node, line, found)
        }
        Line::Settled { node } => lift_node(alloc, instance, memory, tree, *node, line, found),
    }
}

/// What is answered of a proof line that isn't good.
pub(crate) fn bad_line(line: &Line, number: u64) -> Refused
    ensures { result ≡ bad_line line.now number }
{
    match line {
        Line::Split {
            node: _,
            class: _,
            m: _,
        } => Refused::BadSplit { line: number },
        Line::Priced { node: _, prices: _ } => Refused::BadPrice { line: number },
        Line::Settled { node: _ } => Refused::NotSettled { line: number },
    }
}

/// The nodes that proof lines make of the root, where each line is good.
pub fn judge_lines(alloc: Global, instance: &Instance, lines: &Lines) -> Result<Tree, Refused>
    ensures good { IfOk result (λ tree. nodes_of instance.now lines.now ≡ Some tree) }
    ensures causes { IfOk result (λ tree. line_cause instance.now (new_node [] ∷ []) 1 lines.now ≡ None) }
    ensures bad { IfErr result (IsFirstBad instance.now lines.now) }
{
    let mut tree = Tree::root(alloc)?;
    let mut memory = WalkMemory::new(alloc, instance);
    let mut reader = lines.reader();
    while let Some(line) = reader.next_line(alloc)? {
        if !judge_line(alloc, instance, &mut memory, &mut tree, &line, &None)? {
            let number = lines.len() - reader.len();
            return Err(bad_line(&line, number as u64));
        }
    }
    Ok(tree)
}
