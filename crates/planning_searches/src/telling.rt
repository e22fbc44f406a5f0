//! What is said of a search on standard error.

use crate::reading::Read;
use instance_warnings::{WordedWarning, warnings};
use plan_tables::Hours;
use planning_runs::{PlanRefusal, shown_on};
use planning_words::{PlanWords, Progress, Shown};
use refusal_texts::{full_sentence, repeated_names};
use rule_sentences::rules_text;
use shift_instance::{Instance, Shift};
use solve_runs::SearchEnd;
use std::alloc::{AllocError, Global};
use std::sync::Arc;
use worker_gate::Gate;

/// What is said where the plan will be empty.
const NEVER_WORTH: &str =
    "no shift could end as much shortage as it costs, so a plan without duties is a best one: raise shortage, or lower shift";

/// How long so many employees in each slot work together.
fn hours_together(instance: &Instance, employees: &[u32]) -> Hours {
    let mut slots: u64 = 0;
    for count in employees {
        slots = slots.saturating_add(u64::from(*count));
    }
    Hours::of_slots(instance, slots)
}

/// The hours wanted in all slots of an instance together, as a range where the least and the most differ.
pub fn hours_wanted(alloc: Global, instance: &Instance) -> Result<String, AllocError> {
    let parts = instance.parts();
    let least = hours_together(instance, parts.need.as_slice());
    let most = hours_together(instance, parts.need_max.as_slice());
    if least.minutes == most.minutes {
        format!(in alloc; "{least}")
    } else {
        format!(in alloc; "{least}-{most}")
    }
}

/// Says the rules of an instance back before it is searched.
pub fn say_rules(rt: HostRuntime, instance: &Instance) -> Result<(), AllocError> {
    let rules = rules_text(rt.alloc(), instance)?;
    let _ = eprint!(rt; "{}", rules.as_str());
    Ok(())
}

/// How many employees are wanted at least in so many slots from a first one on, together; behind the last slot comes the first.
fn need_from(need: &[u32], first: usize, slots: u16) -> u64 {
    let mut sum = 0u64;
    for k in 0..slots {
        let t = first
            .wrapping_add(usize::from(k))
            .checked_rem(need.len())
            .unwrap_or(0);
        sum = sum.saturating_add(u64::from(need.get(t).copied().unwrap_or(0)));
    }
    sum
}

/// How many employees are wanted at least in the slots of a shift, together, on all days.
fn need_of_shift(instance: &Instance, shift: Shift) -> u64 {
    let parts = instance.parts();
    let need = parts.need.as_slice();
    let per_day = need.len().checked_div(usize::from(parts.days)).unwrap_or(0);
    let mut sum = 0u64;
    for day in 0..parts.days {
        let midnight = usize::from(day).wrapping_mul(per_day);
        let first = midnight.wrapping_add(usize::from(shift.start));
        sum = sum.saturating_add(need_from(need, first, shift.len));
    }
    sum
}

/// Whether a shift costs something, and none could end as much shortage as it costs, so that a plan without duties is a best one though somebody
/// is wanted.
fn is_never_worth(instance: &Instance) -> bool {
    let (_, shortage, cost) = instance.weights();
    let mut most = 0u64;
    for shift in instance.shifts() {
        most = most.max(need_of_shift(instance, *shift));
    }
    let saved = u64::from(shortage).saturating_mul(most);
    0 < saved && saved <= u64::from(cost)
}

/// Adds a sentence for each name that a document says twice where it counts once.
fn add_repeated(notes: &mut Vec<String>, alloc: Global, document: &[u8]) -> Result<(), AllocError> {
    for name in &repeated_names(alloc, document)? {
        notes.push(format!(in alloc; "{name}")?)?;
    }
    Ok(())
}

/// Adds a sentence for each warning of an instance.
fn add_warnings(
    notes: &mut Vec<String>,
    alloc: Global,
    instance: &Instance,
) -> Result<(), AllocError> {
    for warning in &warnings(alloc, instance)? {
        let told = WordedWarning { warning, instance };
        notes.push(format!(in alloc; "{told}")?)?;
    }
    Ok(())
}

/// What a planner should know of an instance, and of the document that it stands in: a sentence each.
pub fn notes_of(
    alloc: Global,
    document: &[u8],
    instance: &Instance,
) -> Result<Vec<String>, AllocError> {
    let mut notes = Vec::new(alloc);
    add_repeated(&mut notes, alloc, document)?;
    add_warnings(&mut notes, alloc, instance)?;
    if is_never_worth(instance) {
        notes.push(String::from_str(alloc, NEVER_WORTH)?)?;
    }
    Ok(notes)
}

/// Says what a planner should know of an instance.
fn warn(rt: HostRuntime, notes: &[String]) {
    for note in notes {
        let _ = eprintln!(rt; "shift_plan: note that {}", note.as_str());
    }
}

/// Says what a planner should know of the instance of a document, and answers it.
pub fn tell_notes(rt: HostRuntime, read: &Read) -> Result<Vec<String>, AllocError> {
    let notes = notes_of(rt.alloc(), read.document.as_slice(), &read.instance)?;
    warn(rt, notes.as_slice());
    Ok(notes)
}

/// The gate that says from how many steps a search goes on, if from any, and counts them.
#[derive(Drop)]
pub(crate) struct Beginning {
    rt: HostRuntime,
    progress: Arc<Progress>,
}

impl Beginning {
    /// The gate of a search with that progress.
    pub(crate) fn of(rt: HostRuntime, progress: &Arc<Progress>) -> Result<Beginning, AllocError> {
        Ok(Beginning {
            rt,
            progress: Arc::try_clone(progress)?,
        })
    }
}

impl Gate for Beginning {
    fn begin(&self, steps: u64, cost: u64, bound: u64) {
        self.progress.count_before(steps);
        if steps != 0 {
            let _ = eprintln!(self.rt;
                "shift_plan: goes on from {steps} steps: cost {cost}, bound {bound}"
            );
        }
    }

    fn enter(&self, _worker: u32, _step: u64) {}
}

/// Says that the journal of a search is full.
fn tell_full(rt: HostRuntime, end: u64, limit: u32) {
    if let Ok(sentence) = full_sentence(rt.alloc(), end, limit) {
        let _ = eprintln!(rt; "shift_plan: {}", sentence.as_str());
    }
}

/// Says how a search whose journal is full may go on.
fn tell_anew(rt: HostRuntime, words: &PlanWords) {
    let how = match words.like {
        None =>
            "the same line with --anew goes on from it in a new journal, whose bound begins anew",
        Some(_) =>
            "with --anew, and without --like and --of, the line goes on from the best plan of this journal in a new one, whose bound begins anew",
    };
    let _ = eprintln!(rt; "shift_plan: the plan is written; {how}");
}

/// Says why a search was asked to stop, if not by its time.
fn tell_stopped(rt: HostRuntime, progress: &Progress) {
    if progress.is_end_asked() {
        let _ = eprintln!(rt;
            "shift_plan: the search ends early, as it was asked to: its plan is written, and the same line goes on from there"
        );
    } else if progress.is_quiet(&rt) {
        let _ = eprintln!(rt;
            "shift_plan: the search ends early, since there was no cheaper plan for as long as --until-quiet says: its plan is written, and the same line goes on from there"
        );
    }
}

/// Says why a search was cut off, if it was.
fn tell_cut_off(rt: HostRuntime, end: &SearchEnd) {
    if let Some(why) = PlanRefusal::of_end(rt.alloc(), end) {
        let _ = eprintln!(rt; "shift_plan: the search ends early: {why}");
    }
}

/// Says why a search with a plan ended before its time, if it did.
pub(crate) fn tell_end(rt: HostRuntime, words: &PlanWords, progress: &Progress, end: &SearchEnd) {
    if shown_on(rt, false) != Shown::Below {
        // the line of the search stands there without its line feed
        let _ = eprintln!(rt);
    }
    match end {
        SearchEnd::Full { end, limit } => {
            tell_full(rt, *end, *limit);
            tell_anew(rt, words);
        }
        SearchEnd::Stopped => tell_stopped(rt, progress),
        end => tell_cut_off(rt, end),
    }
}
