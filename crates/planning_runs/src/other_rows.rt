//! Other rows in the place of a plan's own.

ghost use Rattle.std.specs.Prelude.{◌≡◌, IfOk, IsTrue};
ghost use Rattle.shift_instance.specs.Rota.{are_legal_rows};
ghost use Rattle.planning_runs.specs.Reports.{status_beside, with_rows};

use crate::plan::JudgedPlan;
use break_rules::NoMemory;
use certificate::{Cert, CertStatus};
use rota_cost::recount;
use rota_writer::report;
use shift_instance::Rows;
use std::alloc::Global;

/// What is said of a plan of that cost beside a bound.
fn status_beside(bound: u64, cost: u64) -> CertStatus
    ensures { result ≡ status_beside bound cost }
{
    if cost <= bound {
        CertStatus::Optimal
    } else {
        CertStatus::Stopped
    }
}

/// A plan with other legal rows, at what they cost, and with the bound and the proof that it has. Its report is written anew; it is accepted as
/// the one before was. `NoMemory` is the only refusal.
pub fn with_rows(alloc: Global, plan: JudgedPlan, rows: Rows) -> Result<JudgedPlan, NoMemory>
    requires legal { IsTrue (are_legal_rows plan.instance rows) }
    ensures instance { IfOk result (λ new. new.instance ≡ plan.instance) }
    ensures cert { IfOk result (λ new. new.cert ≡ with_rows plan.instance plan.cert rows) }
{
    let JudgedPlan { instance, cert, .. } = plan;
    // an instance is valid
    let _heads = instance.heads();
    let cost = recount(&instance, &rows);
    let Cert { bound, lines, .. } = cert;
    let cert = Cert {
        status: status_beside(bound, cost),
        plan: Some((cost, rows)),
        bound,
        lines,
    };
    let text = report(alloc, &cert)?;
    Ok(JudgedPlan {
        instance,
        cert,
        report: text,
    })
}
