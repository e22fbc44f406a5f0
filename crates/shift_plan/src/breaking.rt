//! The breaks of a report's plan, planned anew.

use crate::planning::folder_of;
use planning_breaks::{Rebroken, breaks_as_asked, breaks_sentence, refuse_without_rows};
use planning_runs::{
    Beside, JudgedPlan, PlanRefusal, finish_folder, read_document, ready_folder, say, show_plan,
};
use planning_searches::{notes_of, plan_for};
use planning_words::BreaksWords;
use std::alloc::{AllocError, Global};
use std::thread::Threads;

/// What a planner should know of a plan whose breaks were planned anew, with a sentence on these breaks first.
fn notes_with(
    alloc: Global,
    document: &[u8],
    rebroken: &Rebroken,
    sentence: &str,
) -> Result<Vec<String>, AllocError> {
    let mut notes = Vec::new(alloc);
    notes.push(String::from_str(alloc, sentence)?)?;
    for note in notes_of(alloc, document, &rebroken.plan.instance)? {
        notes.push(note)?;
    }
    Ok(notes)
}

/// Writes a plan whose breaks were planned anew, and says what came of them.
fn show_rebroken(
    rt: HostRuntime,
    words: &BreaksWords,
    document: &[u8],
    folder: &str,
    rebroken: &Rebroken,
) -> Result<(), PlanRefusal> {
    let sentence = breaks_sentence(rt.alloc(), rebroken)?;
    let notes = notes_with(rt.alloc(), document, rebroken, sentence.as_str())?;
    let beside = Beside {
        instance: words.instance,
        document,
        first: words.first,
        notes: notes.as_slice(),
    };
    show_plan(rt, &beside, folder, &rebroken.plan)?;
    let text = format!(in rt.alloc(); "Breaks: {}.\n", sentence.as_str())?;
    say(rt, text.as_str());
    Ok(())
}

/// Plans the breaks of a plan anew as the words ask for it, and writes it to a folder.
fn rebreak<R: Threads>(
    host: HostRuntime,
    rt: &R,
    words: &BreaksWords,
    document: &[u8],
    folder: &str,
    plan: JudgedPlan,
) -> Result<(), PlanRefusal> {
    refuse_without_rows(host.alloc(), words, &plan)?;
    ready_folder(host, folder)?;
    let rebroken = breaks_as_asked(host, rt, words, plan)?;
    show_rebroken(host, words, document, folder, &rebroken)
}

/// Judges the report that the words name and, where it is accepted, plans the breaks of its plan anew and writes it.
pub(crate) fn breaks<R: Threads>(
    host: HostRuntime,
    rt: &R,
    words: &BreaksWords,
) -> Result<(), PlanRefusal> {
    let document = read_document(host, words.instance)?;
    let folder = folder_of(host.alloc(), words.out, words.instance)?;
    finish_folder(host, folder.as_str())?;
    let plan = plan_for(host, document.as_slice(), words.report)?;
    rebreak(host, rt, words, document.as_slice(), folder.as_str(), plan)
}
