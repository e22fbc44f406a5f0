//! What a planner should know of a journal that a search was refused for.

use crate::journals::{is_torn, journal_head, journal_of};
use crate::reading::canonical_in;
use planning_runs::PlanRefusal;
use planning_words::PlanWords;
use refusal_texts::difference;
use search_book::OpenFault;
use solve_runs::SearchEnd;
use std::alloc::AllocError;

/// Says where a document and the instance of its journal differ first, from this byte of their canonical texts on.
fn tell_difference(
    rt: HostRuntime,
    journal: &str,
    canonical: &[u8],
    at: u64,
) -> Result<(), PlanRefusal> {
    let Some(theirs) = journal_head(rt, journal)? else {
        return Ok(());
    };
    let sentence = difference(rt.alloc(), canonical, theirs.as_slice(), at)?;
    let _ = eprintln!(rt;
        "shift_plan: note that the journal belongs to another instance: {sentence}"
    );
    Ok(())
}

/// Says that a journal holds no step of a search, where it is only the beginning of a new one.
fn tell_torn(rt: HostRuntime, journal: &str, canonical: &[u8]) -> Result<(), PlanRefusal> {
    if is_torn(rt, journal, canonical)? {
        let _ = eprintln!(rt;
            "shift_plan: note that the journal is only the beginning of a new one, as a crash may leave: no step of a search was in it, so --anew loses nothing"
        );
    }
    Ok(())
}

/// Says what a planner should know of a journal that is refused for this.
fn tell_fault(
    rt: HostRuntime,
    journal: &str,
    canonical: &[u8],
    fault: &OpenFault,
) -> Result<(), PlanRefusal> {
    match fault {
        OpenFault::OtherInstance { at } => tell_difference(rt, journal, canonical, *at),
        OpenFault::NotAJournal | OpenFault::Damaged { .. } => tell_torn(rt, journal, canonical),
        _ => Ok(()),
    }
}

/// Says what a planner should know of the journal that the words name, where it is refused for this.
fn tell_journal(rt: HostRuntime, words: &PlanWords, fault: &OpenFault) -> Result<(), PlanRefusal> {
    let canonical = canonical_in(rt, words.instance)?;
    let journal = journal_of(rt.alloc(), words)?;
    tell_fault(rt, journal.as_str(), canonical.as_slice(), fault)
}

/// Why a search that ended so has no plan. What a planner should know of a journal that is refused is said.
pub(crate) fn unplanned(rt: HostRuntime, words: &PlanWords, end: &SearchEnd) -> PlanRefusal {
    if let SearchEnd::Refused(fault) = end {
        if let Err(why) = tell_journal(rt, words, fault) {
            return why;
        }
    }
    match PlanRefusal::of_end(rt.alloc(), end) {
        Some(why) => why,
        None => PlanRefusal::from(AllocError),
    }
}
