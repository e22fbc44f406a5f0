//! A report that stands, judged.

use planning_runs::{JudgedPlan, PlanRefusal, read_report, say, standing};
use planning_searches::{hours_wanted, judged, read_instance};
use planning_words::CheckWords;
use shift_instance::Instance;
use std::alloc::{AllocError, Global};

/// What is said of the document of a report.
fn document_text(
    alloc: Global,
    words: &CheckWords,
    instance: &Instance,
) -> Result<String, AllocError> {
    let days = instance.days();
    let hours = hours_wanted(alloc, instance)?;
    let between = if days == 1 { "day" } else { "days" };
    format!(in alloc;
        "The document {} has {days} {between} and {} hours wanted.\n",
        words.instance,
        hours.as_str()
    )
}

/// What is said of a report that is accepted, whose plan has that cost.
fn plan_text(
    alloc: Global,
    report: &str,
    plan: &JudgedPlan,
    cost: u64,
) -> Result<String, AllocError> {
    let stands = standing(alloc, &plan.cert, cost)?;
    format!(in alloc;
        "The report {report} is accepted: each duty of its plan is legal. {}\n",
        stands.as_str()
    )
}

/// What is said of a report that is accepted.
fn accepted_text(
    alloc: Global,
    words: &CheckWords,
    plan: &JudgedPlan,
) -> Result<String, AllocError> {
    let report = words.report;
    match &plan.cert.plan {
        Some((cost, _)) => plan_text(alloc, report, plan, *cost),
        None => {
            let bound = plan.cert.bound;
            format!(in alloc;
                "The report {report} is accepted: it has no plan, and no legal plan costs less than {bound}.\n"
            )
        }
    }
}

/// Judges a report for a document, and says that it is accepted.
fn judge(
    rt: HostRuntime,
    words: &CheckWords,
    document: &[u8],
    report: Vec<u8>,
) -> Result<(), PlanRefusal> {
    let plan = judged(rt.alloc(), document, report)?;
    let text = accepted_text(rt.alloc(), words, &plan)?;
    say(rt, text.as_str());
    Ok(())
}

/// Judges the report that the words name, and says what came of it.
pub(crate) fn check(rt: HostRuntime, words: &CheckWords) -> Result<(), PlanRefusal> {
    let read = read_instance(rt, words.instance)?;
    let report = read_report(rt, words.report)?;
    let text = document_text(rt.alloc(), words, &read.instance)?;
    say(rt, text.as_str());
    judge(rt, words, read.document.as_slice(), report)
}
