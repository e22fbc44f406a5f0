//! A report that stands, shown once more.

use crate::planning::folder_of;
use planning_runs::{
    Beside, JudgedPlan, PlanRefusal, finish_folder, read_document, ready_folder, show_plan,
};
use planning_searches::{notes_of, plan_for};
use planning_words::ShowWords;

/// Writes the plan of a report that is accepted.
fn show_judged(
    rt: HostRuntime,
    words: &ShowWords,
    document: &[u8],
    folder: &str,
    plan: &JudgedPlan,
) -> Result<(), PlanRefusal> {
    ready_folder(rt, folder)?;
    let notes = notes_of(rt.alloc(), document, &plan.instance)?;
    let beside = Beside {
        instance: words.instance,
        document,
        first: words.first,
        notes: notes.as_slice(),
    };
    show_plan(rt, &beside, folder, plan)
}

/// Judges the report that the words name for a document and, where it is accepted, writes its plan.
fn show_for(
    rt: HostRuntime,
    words: &ShowWords,
    document: &[u8],
    folder: &str,
) -> Result<(), PlanRefusal> {
    finish_folder(rt, folder)?;
    let plan = plan_for(rt, document, words.report)?;
    show_judged(rt, words, document, folder, &plan)
}

/// Judges the report that the words name and, where it is accepted, writes its plan.
pub(crate) fn show(rt: HostRuntime, words: &ShowWords) -> Result<(), PlanRefusal> {
    let document = read_document(rt, words.instance)?;
    let folder = folder_of(rt.alloc(), words.out, words.instance)?;
    show_for(rt, words, document.as_slice(), folder.as_str())
}
