//! A report that is grown below one of its nodes.
ghost use Rattle.std.specs.Prelude.{ℕ, ◌≤◌, ◌≡◌, ◌^◌, IfErr, IfOk, length};
ghost use Rattle.certificate.specs.Text.{Agrees};
ghost use Rattle.report_grafts.specs.Faults.{HasOpenEnd, IsExportFault};
ghost use Rattle.subtree_search.specs.Stepping.{IsSearched};
ghost use Rattle.graft_runs.specs.Runs.{limit_of, GrowsBelow, GrowsGreedily, IsGrown, IsGrownText};

use advice::{Adviser, Stop};
use certificate::Cert;
use report_grafts::{GraftFault, SubRun, export, graft};
use rota_writer::report;
use shift_instance::{Instance, TOP};
use std::alloc::Global;
use subtree_search::{solve_below, solve_below_by};

/// What the plan of a certificate costs, and `TOP` where it has none.
fn limit_of(cert: &Cert) -> u64
    ensures { result ≡ limit_of cert.now }
{
    match &cert.plan {
        Some((cost, _)) => *cost,
        None => TOP,
    }
}

/// A report with the run of a search below one of its nodes.
fn grown(
    alloc: Global,
    instance: &Instance,
    whole: &Cert,
    node: u32,
    run: &SubRun,
) -> Result<Cert, GraftFault>
    requires few { length whole.now.lines ≤ 2 ^ 28 }
    requires end { HasOpenEnd instance.now whole.now node run.now.base }
    requires searched { (steps : ℕ) × (steps ≤ 10 ^ 9) × IsSearched instance.now run.now.base (limit_of whole.now) steps run.now }
    ensures grown { IfOk result (IsGrown instance.now whole.now node run.now) }
    ensures agrees { IfOk result Agrees }
    ensures fault { IfErr result (IsExportFault instance.now whole.now node) }
{
    let _valid = instance.slots();
    let cert = graft(alloc, instance, whole, node, run)?;
    Ok(cert)
}

/// The text of that report.
fn text_with(
    alloc: Global,
    instance: &Instance,
    whole: &Cert,
    node: u32,
    run: &SubRun,
) -> Result<Vec<u8>, GraftFault>
    requires few { length whole.now.lines ≤ 2 ^ 28 }
    requires end { HasOpenEnd instance.now whole.now node run.now.base }
    requires searched { (steps : ℕ) × (steps ≤ 10 ^ 9) × IsSearched instance.now run.now.base (limit_of whole.now) steps run.now }
    ensures text { IfOk result (λ text. IsGrownText instance.now whole.now node run.now text.items) }
    ensures fault { IfErr result (IsExportFault instance.now whole.now node) }
{
    let cert = grown(alloc, instance, whole, node, run)?;
    Ok(report(alloc, &cert)?)
}

/// The text of a report after a search of so many steps below one of its nodes for rotas that are cheaper than its plan.
pub(crate) fn grown_text(
    alloc: Global,
    instance: &Instance,
    whole: &Cert,
    node: u32,
    steps: u64,
) -> Result<Vec<u8>, GraftFault>
    requires few { length whole.now.lines ≤ 2 ^ 28 }
    requires steps { steps ≤ 10 ^ 9 }
    ensures text { IfOk result (λ text. GrowsGreedily instance.now whole.now node steps text.items) }
    ensures fault { IfErr result (IsExportFault instance.now whole.now node) }
{
    let _valid = instance.slots();
    let base = export(alloc, instance, whole, node)?;
    let run = solve_below(alloc, instance, base, limit_of(whole), steps)?;
    let _sound = run.lines();
    text_with(alloc, instance, whole, node, &run)
}

/// The same by an adviser, for so many steps or until the stop asks.
pub(crate) fn grown_text_by<A: Adviser, P: Stop>(
    alloc: Global,
    instance: &Instance,
    whole: &Cert,
    node: u32,
    steps: u64,
    adviser: &mut A,
    stop: &P,
) -> Result<Vec<u8>, GraftFault>
    requires few { length whole.now.lines ≤ 2 ^ 28 }
    requires steps { steps ≤ 10 ^ 9 }
    ensures text { IfOk result (λ text. GrowsBelow instance.now whole.now node steps (P.can_ask stop.now) text.items) }
    ensures fault { IfErr result (IsExportFault instance.now whole.now node) }
{
    let _valid = instance.slots();
    let base = export(alloc, instance, whole, node)?;
    let run = solve_below_by(alloc, instance, base, limit_of(whole), steps, adviser, stop)?;
    let _sound = run.lines();
    text_with(alloc, instance, whole, node, &run)
}
