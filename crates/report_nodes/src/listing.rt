//! Which nodes of a report are open.
ghost use Rattle.std.specs.Prelude.{◌≡◌, ◌≤◌, ◌^◌, ◌∷◌, ◌++◌, [], IfErr, IfOk, length};
ghost use Rattle.report_nodes.specs.Listed.{listed, open_from, top_of, AreFirst, IsRefusal};

use crate::growing::nodes_below;
use crate::node::TreeNode;
use break_rules::NoMemory;
use cert_check::{Refused, check};
use certificate::Cert;
use head_splits::Cuts;
use report_grafts::GraftFault;
use shift_instance::{Instance, TOP};
use std::alloc::Global;

/// An open node of a report: it isn't split, and its floor is below what the report's plan costs.
#[derive(Clone, Copy, PartialEq, Eq, Drop)]
pub struct OpenNode {
    /// Its number.
    pub node: u32,
    /// What every legal rota below its cuts is shown to cost at least.
    pub floor: u64,
    /// How many cuts it has.
    pub cuts: u64,
}

/// What the plan of a certificate costs, and `TOP` where it has none.
fn top_of(cert: &Cert) -> u64
    ensures { result ≡ top_of cert.now }
{
    match &cert.plan {
        Some((cost, _)) => *cost,
        None => TOP,
    }
}

/// A node as it is listed.
fn listed(k: u32, node: &TreeNode) -> OpenNode
    ensures { result ≡ listed k node.now }
{
    OpenNode {
        node: k,
        floor: node.floor(),
        cuts: node.cut_count() as u64,
    }
}

/// Listed nodes, and then a further one where it is open below a cost.
#[tactic(auto, using(crate::proofs::Grown::opened, crate::proofs::Grown::closed))]
fn with_open(
    list: Vec<OpenNode>,
    k: u32,
    node: &TreeNode,
    cost: u64,
) -> Result<Vec<OpenNode>, NoMemory>
    ensures { IfOk result (λ more. more.items ≡ list.items ++ open_from cost k (node.now ∷ [])) }
{
    if !node.is_open(cost) {
        return Ok(list);
    }
    let mut list = list;
    list.push(listed(k, node))?;
    Ok(list)
}

/// The nodes of some that are open below a cost, by their numbers.
fn open_of(alloc: Global, nodes: &[TreeNode], cost: u64) -> Result<Vec<OpenNode>, NoMemory>
    requires { length nodes.now ≤ 2 ^ 31 }
    ensures { IfOk result (λ list. list.items ≡ open_from cost 0 nodes.now) }
{
    let mut list = Vec::new(alloc);
    for (k, node) in nodes.iter().enumerate() {
        list = with_open(list, k as u32, node, cost)?;
    }
    Ok(list)
}

/// The open nodes of a report, those of least floor first, and of those the ones of least number; no more than so many.
///
/// The report is judged first: `Refused` says why the checker refuses it. `NoMemory` comes only where it was out of memory, and no other
/// fault comes.
pub fn open_nodes(
    alloc: Global,
    instance: &Instance,
    whole: &Cert,
    most: usize,
) -> Result<Vec<OpenNode>, GraftFault>
    requires { length whole.now.lines ≤ 2 ^ 28 }
    ensures first { IfOk result (λ list. AreFirst instance.now whole.now most list.items) }
    ensures fault { IfErr result (IsRefusal instance.now whole.now) }
{
    match check(alloc, instance, whole) {
        Ok(_) => {}
        Err(Refused::NoMemory) => return Err(GraftFault::NoMemory),
        Err(why) => return Err(GraftFault::Refused(why)),
    }
    let root = Cuts::new(Vec::new(alloc));
    let Some(nodes) = nodes_below(alloc, instance, root, &whole.lines)? else {
        unreachable!()
    };
    let mut list = open_of(alloc, nodes.as_slice(), top_of(whole))?;
    list.sort_by_key(|open| (open.floor, open.node))?;
    list.truncate(most);
    Ok(list)
}
