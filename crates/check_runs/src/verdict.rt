//! What a command says of a report.

ghost use Rattle.std.specs.Prelude.{◌≡◌, IfOk, string_bytes, true};
ghost use Rattle.check_runs.specs.Check.{verdict_line};
ghost use Rattle.check_runs.specs.Verdict.{accepts, verdict_text, Shows};

use crate::certifying::judge_cert;
use crate::recounting::judge_plan;
use crate::words::Command;
use certificate::Cert;
use shift_instance::Instance;
use std::alloc::{AllocError, Global};

/// What is said of a report, and whether it is accepted.
#[derive(Drop)]
pub(crate) struct Verdict {
    /// The line that says it.
    pub line: String,
    /// Whether the report is accepted.
    pub accepted: bool,
}

/// What a command says of a report.
fn say(
    alloc: Global,
    command: Command,
    instance: &Instance,
    cert: &Cert,
) -> Result<Verdict, AllocError>
    ensures said { IfOk result (λ v. string_bytes v.line ≡ verdict_text command instance.now cert.now) }
    ensures accepted { IfOk result (λ v. v.accepted ≡ accepts command instance.now cert.now) }
    ensures shown { IfOk result (λ v. v.accepted ≡ true → Shows command instance.now cert.now) }
{
    match command {
        Command::Check => judge_cert(alloc, instance, cert),
        Command::Recount => judge_plan(alloc, instance, cert),
    }
}

/// The verdict of a command on a report, its line with a line feed.
pub(crate) fn judge(
    alloc: Global,
    command: Command,
    instance: &Instance,
    cert: &Cert,
) -> Result<Verdict, AllocError>
    ensures line { IfOk result (λ v. string_bytes v.line ≡ verdict_line command instance.now cert.now) }
    ensures accepted { IfOk result (λ v. v.accepted ≡ accepts command instance.now cert.now) }
    ensures shown { IfOk result (λ v. v.accepted ≡ true → Shows command instance.now cert.now) }
{
    let mut verdict = say(alloc, command, instance, cert)?;
    verdict.line.push_str("\n")?;
    Ok(verdict)
}
