//! A search for a plan, which is written to its folder.

ghost use Rattle.std.specs.Prelude.{◌<◌};

use planning_runs::{Beside, PlanRefusal, finish_folder, ready_folder, show_plan};
use planning_searches::{
    Before, Read, locked_journal, older_plan, read_instance, say_rules, search_as_asked, tell_notes,
};
use planning_words::{PlanWords, folder_beside};
use shift_instance::Instance;
use std::alloc::{AllocError, Global};
use std::sync::Wait;
use std::thread::Threads;

/// The folder of a plan: the one that a word names, or else the one beside the instance.
pub(crate) fn folder_of(
    alloc: Global,
    out: Option<&str>,
    instance: &str,
) -> Result<String, AllocError> {
    match out {
        Some(out) => String::from_str(alloc, out),
        None => String::from_str(alloc, folder_beside(alloc, instance)?.as_str()),
    }
}

/// Adds what is to be known of a search that began with the best plan of an old journal.
fn add_before(
    notes: &mut Vec<String>,
    alloc: Global,
    before: Option<&Before>,
) -> Result<(), AllocError> {
    if let Some(before) = before {
        let cost = before.cost;
        notes.push(format!(in alloc;
            "this search began with the best plan of an old journal, of cost {cost}; its bound is that of the new journal alone"
        )?)?;
    }
    Ok(())
}

/// Searches for a plan of an instance as the words say, and writes it to a folder.
fn plan_to<R: Threads + Wait + Sync>(
    host: HostRuntime,
    rt: &R,
    words: &PlanWords,
    instance: Instance,
    folder: &str,
    document: &[u8],
    notes: &mut Vec<String>,
) -> Result<(), PlanRefusal>
    requires some { 0 < words.now.workers }
{
    let older = older_plan(host, words.like, &instance)?;
    let journals = locked_journal(host, rt, words, &instance)?;
    ready_folder(host, folder)?;
    let plan = search_as_asked(host, rt, words, instance, &older, &journals)?;
    add_before(notes, host.alloc(), journals.before.as_ref())?;
    let beside = Beside {
        instance: words.instance,
        document,
        first: words.first,
        notes: notes.as_slice(),
    };
    show_plan(host, &beside, folder, &plan)
}

/// Searches for a plan of the instance of a document as the words say, and writes it to a folder.
fn plan_for<R: Threads + Wait + Sync>(
    host: HostRuntime,
    rt: &R,
    words: &PlanWords,
    read: Read,
    folder: &str,
) -> Result<(), PlanRefusal>
    requires some { 0 < words.now.workers }
{
    say_rules(host, &read.instance)?;
    let mut notes = tell_notes(host, &read)?;
    finish_folder(host, folder)?;
    let Read { document, instance } = read;
    plan_to(
        host,
        rt,
        words,
        instance,
        folder,
        document.as_slice(),
        &mut notes,
    )
}

/// Searches for a plan as the words say, and writes it.
pub(crate) fn plan<R: Threads + Wait + Sync>(
    host: HostRuntime,
    rt: &R,
    words: &PlanWords,
) -> Result<(), PlanRefusal>
    requires some { 0 < words.now.workers }
{
    let folder = folder_of(host.alloc(), words.out, words.instance)?;
    let read = read_instance(host, words.instance)?;
    plan_for(host, rt, words, read, folder.as_str())
}
