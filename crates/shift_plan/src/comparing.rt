//! Two plans, compared.

ghost use Rattle.std.specs.Prelude.{IfOk, IsTrue};
ghost use Rattle.shift_instance.specs.Rota.{are_legal_rows};

use break_rules::NoMemory;
use comparison_texts::{changes_table, side_by_side};
use plan_comparison::changes;
use plan_tables::{Summary, summary_text};
use planning_runs::{Cause, JudgedPlan, PlanRefusal, say};
use planning_searches::{plan_in, rows_in};
use planning_words::CompareWords;
use shift_instance::{Instance, Rows};
use std::alloc::Global;

/// What legal rows add up to, as lines of text below a name.
fn summed(alloc: Global, name: &str, instance: &Instance, rows: &Rows) -> Result<String, NoMemory>
    requires legal { IsTrue (are_legal_rows instance.now rows.now) }
{
    let summary = Summary::new(alloc, instance, rows)?;
    let text = summary_text(alloc, instance, &summary)?;
    format!(in alloc; "{name}\n\n{}", text.as_str())
}

/// What became of the duties of a plan in another one, by day.
fn changed(
    alloc: Global,
    old: &Instance,
    before: &Rows,
    new: &Instance,
    after: &Rows,
) -> Result<String, NoMemory> {
    let days = changes(alloc, old, new, before, after)?;
    changes_table(alloc, days.as_slice())
}

/// What two plans add up to, beside each other.
fn both_summed(
    alloc: Global,
    words: &CompareWords,
    old: &Instance,
    before: &Rows,
    new: &Instance,
    after: &Rows,
) -> Result<String, NoMemory>
    requires before { IsTrue (are_legal_rows old.now before.now) }
    requires after { IsTrue (are_legal_rows new.now after.now) }
{
    let left = summed(alloc, words.report, old, before)?;
    let right = summed(alloc, words.other_report, new, after)?;
    side_by_side(alloc, left.as_str(), right.as_str())
}

/// What is said of two plans: what became of the duties of the first by day, and both summaries beside each other.
fn compared(
    alloc: Global,
    words: &CompareWords,
    old: &Instance,
    before: &Rows,
    new: &Instance,
    after: &Rows,
) -> Result<String, NoMemory>
    requires before { IsTrue (are_legal_rows old.now before.now) }
    requires after { IsTrue (are_legal_rows new.now after.now) }
{
    let table = changed(alloc, old, before, new, after)?;
    let both = both_summed(alloc, words, old, before, new, after)?;
    format!(in alloc; "{}\n{}", table.as_str(), both.as_str())
}

/// The plan that a report shows for the instance of a document. A refusal says which of the reports it is about.
fn plan_of(rt: HostRuntime, instance: &str, report: &str) -> Result<JudgedPlan, PlanRefusal> {
    match plan_in(rt, instance, report) {
        Ok(plan) => Ok(plan),
        Err(why) => Err(why.about_report(rt.alloc(), report, instance)),
    }
}

/// The rows of a plan, which its report has to have.
fn rows_of<'p>(alloc: Global, report: &str, plan: &'p JudgedPlan) -> Result<&'p Rows, PlanRefusal>
    ensures { IfOk result (λ rows. IsTrue (are_legal_rows plan.now.instance rows.now)) }
{
    match rows_in(plan) {
        Some(rows) => Ok(rows),
        None => Err(PlanRefusal::said(
            Cause::Report,
            format!(in alloc; "the report `{report}` has no plan to compare"),
        )),
    }
}

/// What is said of two plans, which both have to be there.
fn compared_plans(
    alloc: Global,
    words: &CompareWords,
    old: &JudgedPlan,
    new: &JudgedPlan,
) -> Result<String, PlanRefusal> {
    let before = rows_of(alloc, words.report, old)?;
    let after = rows_of(alloc, words.other_report, new)?;
    Ok(compared(alloc, words, &old.instance, before, &new.instance, after)?)
}

/// Says which duties two plans have in common, and what each costs.
pub(crate) fn compare(rt: HostRuntime, words: &CompareWords) -> Result<(), PlanRefusal> {
    let old = plan_of(rt, words.instance, words.report)?;
    let new = plan_of(rt, words.other_instance, words.other_report)?;
    let text = compared_plans(rt.alloc(), words, &old, &new)?;
    say(rt, text.as_str());
    Ok(())
}
