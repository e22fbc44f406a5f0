//! The nodes that proof lines make below some cuts.
ghost use Rattle.std.specs.Prelude.{◌<◌, ◌≤◌, ◌≡◌, ◌^◌, ◌∷◌, ◌++◌, [], false, true, not, IfOk, IsSomeAnd, None, Some, length, max, slice_get, slice_set, if◌then◌else◌};
ghost use Rattle.std.specs.Option.{option_map, option_map_or};
ghost use Rattle.head_splits.specs.Bound.{are_prices, bound_of};
ghost use Rattle.head_splits.specs.Nodes.{child, new_node, settled_floor, with_floor, with_split};
ghost use Rattle.head_splits.specs.Settled.{is_settled};
ghost use Rattle.certificate.specs.declared.proof_lines.Line.TheVariants.{Priced, Settled, Split};
ghost use Rattle.certificate.specs.Accepted.{is_split, nodes_after};
ghost use Rattle.report_nodes.specs.Made.{HasFewCuts, HasRoom};

use crate::node::TreeNode;
use break_rules::NoMemory;
use certificate::{Line, Lines};
use dual_bound::{Buffers, Fixing, PriceFault, settle};
use head_splits::{Class, Cuts, Prices, Side};
use shift_instance::Instance;
use std::alloc::{AllocError, Global};

/// Whether a node of that number is there and unsplit.
fn is_unsplit(nodes: &[TreeNode], k: usize) -> bool
    ensures { result ≡ option_map_or (λ n. not n.split) (slice_get nodes.now k) false }
{
    k < nodes.len() && !nodes[k].is_split()
}

/// Whether a node may be split by the number of a class's duties into at most `m` and at least `m + 1`.
fn is_split(instance: &Instance, class: &Class, m: u16) -> bool
    ensures split { result ≡ is_split instance.now class.now m }
    ensures number { result ≡ true → m ≤ 200 }
{
    usize::from(class.shift) < instance.shifts().len()
        && class.day < instance.days()
        && class.prefix.as_slice().len() <= 48
        && m <= 200
}

/// The part of a node that has one cut more.
fn part_of(
    nodes: &[TreeNode],
    k: usize,
    class: &Class,
    side: Side,
    m: u16,
) -> Result<TreeNode, NoMemory>
    requires { k < length nodes.now }
    ensures { IfOk result (λ part. IsSomeAnd (slice_get nodes.now k) (λ n. part ≡ child n class.now side m)) }
{
    let class = class.clone()?;
    nodes[k].part(class, side, m)
}

/// The nodes after one of them is marked as split.
fn marked(nodes: Vec<TreeNode>, k: usize) -> Vec<TreeNode>
    requires { k < length nodes.items }
    ensures { IsSomeAnd (slice_get nodes.items k) (λ n. result.items ≡ slice_set nodes.items k (record n { split = true })) }
{
    let mut nodes = nodes;
    nodes[k].split();
    nodes
}

/// The nodes with one more.
fn with_part(nodes: Vec<TreeNode>, part: TreeNode) -> Result<Vec<TreeNode>, NoMemory>
    ensures { IfOk result (λ more. more.items ≡ nodes.items ++ part ∷ []) }
{
    let mut nodes = nodes;
    nodes.push(part)?;
    Ok(nodes)
}

/// The nodes after one of them is split by the number of a class's duties.
fn divided(nodes: Vec<TreeNode>, k: usize, class: Class, m: u16) -> Result<Vec<TreeNode>, NoMemory>
    requires there { k < length nodes.items }
    requires small { m ≤ 200 }
    ensures { IfOk result (λ next. IsSomeAnd (slice_get nodes.items k) (λ n. next.items ≡ with_split nodes.items k n class m)) }
{
    let at_most = part_of(&nodes, k, &class, Side::AtMost, m)?;
    let at_least = part_of(&nodes, k, &class, Side::AtLeast, m + 1)?;
    let longer = with_part(marked(nodes, k), at_most)?;
    let whole = with_part(longer, at_least)?;
    Ok(whole)
}

/// The nodes after one of them gets a floor.
fn lifted(nodes: Vec<TreeNode>, k: usize, floor: u64) -> Vec<TreeNode>
    requires { k < length nodes.items }
    ensures { IsSomeAnd (slice_get nodes.items k) (λ n. result.items ≡ with_floor nodes.items k n floor) }
{
    let mut nodes = nodes;
    nodes[k].set_floor(floor);
    nodes
}

/// The floor of a node after it is priced by these prices, where they are a price set for its cuts.
fn priced_floor(
    instance: &Instance,
    buffers: &mut Buffers,
    node: &TreeNode,
    prices: Prices,
) -> Result<Option<u64>, NoMemory>
    requires few { length node.now.cuts ≤ 2 ^ 33 }
    requires buffers { buffers.old ≡ instance.now }
    ensures floor { IfOk result (λ floor. floor ≡ (if are_prices instance.now node.now.cuts prices then Some (max node.now.floor (bound_of instance.now node.now.cuts prices)) else None)) }
    ensures buffers { buffers.new ≡ buffers.old }
{
    match buffers.prove(instance, node.copy_of_cuts()?, prices) {
        Ok(proved) => Ok(Some(node.floor().max(proved.bound()))),
        Err(fault) => match fault {
            PriceFault::NoMemory => Err(AllocError),
            _ => Ok(None),
        },
    }
}

/// The cuts of a node.
fn cuts_of(nodes: &[TreeNode], k: usize) -> Result<Cuts, NoMemory>
    requires { k < length nodes.now }
    ensures { IfOk result (λ cuts. IsSomeAnd (slice_get nodes.now k) (λ n. cuts ≡ n.cuts)) }
{
    nodes[k].copy_of_cuts()
}

/// The floor of a node with these cuts after it is settled, where they fix the number of each legal duty.
fn fixed_floor(alloc: Global, instance: &Instance, cuts: Cuts) -> Result<Option<u64>, NoMemory>
    ensures { IfOk result (λ floor. floor ≡ (if is_settled instance.now cuts then Some (settled_floor instance.now cuts) else None)) }
{
    match settle(alloc, instance, cuts)? {
        Fixing::Done(settled) => Ok(Some(settled.floor())),
        Fixing::Open { class: _, m: _ } => Ok(None),
    }
}

/// The nodes after one of them is split, where it is there and unsplit and may be split so.
fn split_at(
    instance: &Instance,
    nodes: Vec<TreeNode>,
    node: u32,
    class: Class,
    m: u16,
) -> Result<Option<Vec<TreeNode>>, NoMemory>
    ensures { IfOk result (λ next. option_map (λ v. v.items) next ≡ nodes_after instance.now nodes.items (Split node class m ∷ [])) }
{
    let k = node as usize;
    if !is_unsplit(&nodes, k) || !is_split(instance, &class, m) {
        return Ok(None);
    }
    Ok(Some(divided(nodes, k, class, m)?))
}

/// The nodes after one of them is priced, where it is there and unsplit and the prices are a price set for its cuts.
fn price_at(
    instance: &Instance,
    buffers: &mut Buffers,
    nodes: Vec<TreeNode>,
    node: u32,
    prices: Prices,
) -> Result<Option<Vec<TreeNode>>, NoMemory>
    requires few { HasFewCuts nodes.items }
    requires buffers { buffers.old ≡ instance.now }
    ensures made { IfOk result (λ next. option_map (λ v. v.items) next ≡ nodes_after instance.now nodes.items (Priced node prices ∷ [])) }
    ensures buffers { buffers.new ≡ buffers.old }
{
    let k = node as usize;
    if !is_unsplit(&nodes, k) {
        return Ok(None);
    }
    match priced_floor(instance, buffers, &nodes[k], prices)? {
        Some(floor) => Ok(Some(lifted(nodes, k, floor))),
        None => Ok(None),
    }
}

/// The nodes after one of them is settled, where it is there and unsplit and its cuts fix the number of each legal duty.
fn settle_at(
    alloc: Global,
    instance: &Instance,
    nodes: Vec<TreeNode>,
    node: u32,
) -> Result<Option<Vec<TreeNode>>, NoMemory>
    ensures { IfOk result (λ next. option_map (λ v. v.items) next ≡ nodes_after instance.now nodes.items (Settled node ∷ [])) }
{
    let k = node as usize;
    if !is_unsplit(&nodes, k) {
        return Ok(None);
    }
    let cuts = cuts_of(&nodes, k)?;
    match fixed_floor(alloc, instance, cuts)? {
        Some(floor) => Ok(Some(lifted(nodes, k, floor))),
        None => Ok(None),
    }
}

/// The nodes after a proof line, where it is good for them.
fn grown(
    alloc: Global,
    instance: &Instance,
    buffers: &mut Buffers,
    nodes: Vec<TreeNode>,
    line: Line,
) -> Result<Option<Vec<TreeNode>>, NoMemory>
    requires few { HasFewCuts nodes.items }
    requires buffers { buffers.old ≡ instance.now }
    ensures made { IfOk result (λ next. option_map (λ v. v.items) next ≡ nodes_after instance.now nodes.items (line ∷ [])) }
    ensures buffers { buffers.new ≡ buffers.old }
{
    match line {
        Line::Split { node, class, m } => split_at(instance, nodes, node, class, m),
        Line::Priced { node, prices } => price_at(instance, buffers, nodes, node, prices),
        Line::Settled { node } => settle_at(alloc, instance, nodes, node),
    }
}

/// The nodes after proof lines, where each is good for those before it.
pub(crate) fn lines_after(
    alloc: Global,
    instance: &Instance,
    nodes: Vec<TreeNode>,
    lines: &Lines,
) -> Result<Option<Vec<TreeNode>>, NoMemory>
    requires room { HasRoom nodes.items }
    requires lines { length lines.now ≤ 2 ^ 32 }
    ensures { IfOk result (λ last. option_map (λ v. v.items) last ≡ nodes_after instance.now nodes.items lines.now) }
{
    let mut buffers = Buffers::new(alloc, instance);
    let mut nodes = nodes;
    let mut reader = lines.reader();
    while let Some(line) = reader.next_line(alloc)? {
        let Some(next) = grown(alloc, instance, &mut buffers, nodes, line)? else {
            return Ok(None);
        };
        nodes = next;
    }
    Ok(Some(nodes))
}

/// The node with these cuts alone.
fn root_of(alloc: Global, base: Cuts) -> Result<Vec<TreeNode>, NoMemory>
    requires { length base ≤ 2 ^ 32 }
    ensures root { IfOk result (λ nodes. nodes.items ≡ new_node base ∷ []) }
    ensures room { IfOk result (λ nodes. HasRoom nodes.items) }
{
    let nodes = vec![in alloc; TreeNode::new(base)]?;
    Ok(nodes)
}

/// The nodes that proof lines make of one with these cuts, where each is good.
pub(crate) fn nodes_below(
    alloc: Global,
    instance: &Instance,
    base: Cuts,
    lines: &Lines,
) -> Result<Option<Vec<TreeNode>>, NoMemory>
    requires base { length base ≤ 2 ^ 32 }
    requires lines { length lines.now ≤ 2 ^ 32 }
    ensures { IfOk result (λ last. option_map (λ v. v.items) last ≡ nodes_after instance.now (new_node base ∷ []) lines.now) }
{
    let nodes = root_of(alloc, base)?;
    let last = lines_after(alloc, instance, nodes, lines)?;
    Ok(last)
}
