//! The proof of a report, judged.

ghost use Rattle.std.specs.Prelude.{◌≡◌, IfOk, string_bytes, true};
ghost use Rattle.certificate.specs.Accepted.{is_accepted};
ghost use Rattle.check_runs.specs.Verdict.{accepted_text, check_text, refused_text, BoundIsTrue, IsCause, PlanIsTrue};

use crate::verdict::Verdict;
use cert_check::{Accepted, Refused, check};
use certificate::Cert;
use shift_instance::Instance;
use std::alloc::{AllocError, Global};

/// What is said of an accepted certificate.
fn accepted_line(alloc: Global, accepted: &Accepted) -> Result<String, AllocError>
    ensures { IfOk result (λ line. string_bytes line ≡ accepted_text accepted.now.cost accepted.now.bound) }
{
    let bound = accepted.bound;
    match accepted.cost {
        Some(cost) => format!(in alloc; "accepted cost {cost} bound {bound}"),
        None => format!(in alloc; "accepted cost - bound {bound}"),
    }
}

/// What is said of a certificate that isn't accepted. Nothing is said where it was out of memory.
fn refused_line(alloc: Global, why: Refused) -> Result<String, AllocError>
    ensures said { IfOk result (λ line. string_bytes line ≡ refused_text why) }
    ensures caused { IfOk result (λ _. IsCause why) }
{
    match why {
        Refused::BadSplit { line } => format!(in alloc; "refused 1 {line}"),
        Refused::BadPrice { line } => format!(in alloc; "refused 2 {line}"),
        Refused::NotSettled { line } => format!(in alloc; "refused 3 {line}"),
        Refused::BoundTooHigh { claimed, found } => {
            format!(in alloc; "refused 4 {claimed} {found}")
        }
        Refused::BadPlan { row } => format!(in alloc; "refused 5 {row}"),
        Refused::WrongCost { claimed, found } => format!(in alloc; "refused 6 {claimed} {found}"),
        Refused::NoMemory => Err(AllocError),
    }
}

/// What a check says of a certificate: its proof lines, its bound, its rows and their cost are judged.
#[tactic(auto, using(crate::proofs::Refusals::is_cause, crate::proofs::Refusals::not_accepted))]
pub(crate) fn judge_cert(
    alloc: Global,
    instance: &Instance,
    cert: &Cert,
) -> Result<Verdict, AllocError>
    ensures said { IfOk result (λ v. string_bytes v.line ≡ check_text instance.now cert.now) }
    ensures accepted { IfOk result (λ v. v.accepted ≡ is_accepted instance.now cert.now) }
    ensures shown { IfOk result (λ v. v.accepted ≡ true → BoundIsTrue instance.now cert.now × PlanIsTrue instance.now cert.now) }
{
    match check(alloc, instance, cert) {
        Ok(accepted) => {
            let line = accepted_line(alloc, &accepted)?;
            Ok(Verdict {
                line,
                accepted: true,
            })
        }
        Err(why) => {
            let line = refused_line(alloc, why)?;
            Ok(Verdict {
                line,
                accepted: false,
            })
        }
    }
}
