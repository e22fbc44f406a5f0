//! The rows of a report, judged and counted again.

ghost use Rattle.std.specs.Prelude.{◌≡◌, Some, true, IfOk, string_bytes, codes};
ghost use Rattle.check_runs.specs.Recount.{are_accepted, recount_text};
ghost use Rattle.check_runs.specs.Verdict.{plan_rows};

use crate::verdict::Verdict;
use certificate::Cert;
use rota_cost::{legal_rows, recount};
use shift_instance::{Instance, Rows};
use std::alloc::{AllocError, Global};

/// What is said of the rows of a report: the cost of legal rows by the definition, whatever the report claims, or the first
/// bad row.
fn judge_rows(alloc: Global, instance: &Instance, rows: &Rows) -> Result<Verdict, AllocError>
    ensures said { IfOk result (λ v. string_bytes v.line ≡ recount_text instance.now (Some rows.now)) }
    ensures accepted { IfOk result (λ v. v.accepted ≡ are_accepted instance.now (Some rows.now)) }
{
    match legal_rows(instance, rows) {
        Ok(()) => {
            let cost = recount(instance, rows);
            let line = format!(in alloc; "cost {cost}")?;
            Ok(Verdict {
                line,
                accepted: true,
            })
        }
        Err(fault) => {
            let row = fault.row();
            let line = format!(in alloc; "refused 5 {row}")?;
            Ok(Verdict {
                line,
                accepted: false,
            })
        }
    }
}

/// What is said of a report without rows.
fn judge_none(alloc: Global) -> Result<Verdict, AllocError>
    ensures said { IfOk result (λ v. string_bytes v.line ≡ codes "cost -") }
    ensures accepted { IfOk result (λ v. v.accepted ≡ true) }
{
    let line = String::from_str(alloc, "cost -")?;
    Ok(Verdict {
        line,
        accepted: true,
    })
}

/// What a recount says of a report: its rows are judged, where it has any.
pub(crate) fn judge_plan(
    alloc: Global,
    instance: &Instance,
    cert: &Cert,
) -> Result<Verdict, AllocError>
    ensures said { IfOk result (λ v. string_bytes v.line ≡ recount_text instance.now (plan_rows cert.now)) }
    ensures accepted { IfOk result (λ v. v.accepted ≡ are_accepted instance.now (plan_rows cert.now)) }
{
    match &cert.plan {
        Some((_, rows)) => judge_rows(alloc, instance, rows),
        None => judge_none(alloc),
    }
}
