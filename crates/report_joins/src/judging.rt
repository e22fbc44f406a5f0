//! The judgement of a report whose nodes are kept.
ghost use Rattle.std.specs.Prelude.{◌≡◌, ◌⊎◌, ◌≤◌, ◌^◌, IfErr, IfOk, IsFalse, IsTrue, Some, length};
ghost use Rattle.certificate.specs.Accepted.{is_accepted, is_plan, nodes_of};
ghost use Rattle.report_joins.specs.Faults.{IsRefusal};

use crate::fault::PartFault;
use crate::plans::copy_of_plan;
use break_rules::NoMemory;
use cert_check::{Refused, check};
use certificate::{Cert, CertStatus, Lines};
use head_splits::Cuts;
use report_nodes::NodeTree;
use shift_instance::{Instance, Rows, TOP};
use std::alloc::{AllocError, Global};

/// Whether the rows of a plan, where it has any, are legal and cost what it says.
pub(crate) fn is_plan(
    alloc: Global,
    instance: &Instance,
    plan: &Option<(u64, Rows)>,
) -> Result<bool, NoMemory>
    ensures { IfOk result (λ is. is ≡ is_plan instance.now plan.now) }
{
    let cert = Cert {
        status: CertStatus::Bound,
        plan: copy_of_plan(plan)?,
        bound: 0,
        lines: Lines::new(alloc),
    };
    match check(alloc, instance, &cert) {
        Ok(_) => Ok(true),
        Err(Refused::NoMemory) => Err(AllocError),
        Err(_) => Ok(false),
    }
}

/// Why the checker refuses a report.
pub(crate) fn refusal_of(alloc: Global, instance: &Instance, cert: &Cert) -> PartFault
    requires { IsFalse (is_accepted instance.now cert.now) }
    ensures { IsRefusal instance.now cert.now result }
{
    match check(alloc, instance, cert) {
        Ok(_) => unreachable!(),
        Err(Refused::NoMemory) => PartFault::NoMemory,
        Err(why) => PartFault::Refused(why),
    }
}

/// A fault of a report, where the checker doesn't refuse it.
pub(crate) fn fault_or_refusal(
    alloc: Global,
    instance: &Instance,
    cert: &Cert,
    fault: PartFault,
) -> PartFault
    ensures { IsRefusal instance.now cert.now result ⊎ (IsTrue (is_accepted instance.now cert.now) × (result ≡ fault)) }
{
    match check(alloc, instance, cert) {
        Ok(_) => fault,
        Err(Refused::NoMemory) => PartFault::NoMemory,
        Err(why) => PartFault::Refused(why),
    }
}

/// The nodes that an accepted report's proof lines make, or why the checker refuses it.
pub(crate) fn accepted_nodes(
    alloc: Global,
    instance: &Instance,
    cert: &Cert,
) -> Result<NodeTree, PartFault>
    requires { length cert.now.lines ≤ 2 ^ 28 }
    ensures accepted { IfOk result (λ _. IsTrue (is_accepted instance.now cert.now)) }
    ensures nodes { IfOk result (λ tree. nodes_of instance.now cert.now.lines ≡ Some tree) }
    ensures fault { IfErr result (IsRefusal instance.now cert.now) }
{
    let root = Cuts::new(Vec::new(alloc));
    let Some(tree) = NodeTree::below(alloc, instance, root, &cert.lines)? else {
        return Err(refusal_of(alloc, instance, cert));
    };
    if tree.least_floor(TOP) < cert.bound || !is_plan(alloc, instance, &cert.plan)? {
        return Err(refusal_of(alloc, instance, cert));
    }
    Ok(tree)
}
