//! The cuts of a node of a report, below which a run elsewhere may search.
ghost use Rattle.std.specs.Prelude.{◌≡◌, ℕ, List, [], IfOk, IfErr, IsTrue};
ghost use Rattle.certificate.specs.Accepted.{is_accepted};
ghost use Rattle.head_splits.specs.Nodes.{Node};
ghost use Rattle.report_grafts.specs.Branches.{branches_of, AreBranches, MakeNodes};
ghost use Rattle.report_grafts.specs.Faults.{HasEnd, HasOpenEnd, IsEndFault, IsExportFault};
ghost use Rattle.report_grafts.specs.Grafted.{nodes_made};

use crate::branches::{Branch, branches_of, cuts_of, is_split};
use crate::fault::GraftFault;
use cert_check::{Refused, check};
use certificate::Cert;
use head_splits::Cuts;
use shift_instance::Instance;
use std::alloc::Global;

/// The splits of a certificate that the checker accepts.
pub(crate) fn judged_branches(
    alloc: Global,
    instance: &Instance,
    whole: &Cert,
) -> Result<Vec<Branch>, GraftFault>
    ensures accepted { IfOk result (λ _. IsTrue (is_accepted instance.now whole.now)) }
    ensures splits { IfOk result (λ branches. branches.items ≡ branches_of whole.now.lines) }
    ensures made { IfOk result (λ branches. MakeNodes [] branches.items (nodes_made instance.now whole.now.lines)) }
    ensures fault { IfErr result (λ why. (node : ℕ) → IsExportFault instance.now whole.now node why) }
{
    match check(alloc, instance, whole) {
        Ok(_) => Ok(branches_of(alloc, &whole.lines)?),
        Err(Refused::NoMemory) => Err(GraftFault::NoMemory),
        Err(why) => Err(GraftFault::Refused(why)),
    }
}

/// The cuts of an unsplit node of a tree with these splits.
pub(crate) fn end_cuts(alloc: Global, branches: &[Branch], node: u32) -> Result<Cuts, GraftFault>
    requires { AreBranches branches.now }
    ensures cuts { IfOk result (λ cuts. (nodes : List Node) → MakeNodes [] branches.now nodes → HasEnd nodes node cuts) }
    ensures fault { IfErr result (λ why. (nodes : List Node) → MakeNodes [] branches.now nodes → IsEndFault nodes node why) }
{
    let at = node as usize;
    if at.div_ceil(2) > branches.len() {
        return Err(GraftFault::NoNode { node });
    }
    if is_split(branches, node) {
        return Err(GraftFault::IsSplit { node });
    }
    Ok(cuts_of(alloc, branches, at)?)
}

/// The cuts of an unsplit node of a report, from the root on. A search below them finds what lies below that node, and what it
/// proves can be grafted into the report.
///
/// [`GraftFault`] says why there are none, each cause in its order. `NoMemory` comes only where it was out of memory.
pub fn export(
    alloc: Global,
    instance: &Instance,
    whole: &Cert,
    node: u32,
) -> Result<Cuts, GraftFault>
    ensures cuts { IfOk result (HasOpenEnd instance.now whole.now node) }
    ensures fault { IfErr result (IsExportFault instance.now whole.now node) }
{
    let branches = judged_branches(alloc, instance, whole)?;
    end_cuts(alloc, &branches, node)
}
