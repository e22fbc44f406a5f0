//! A search for a plan.

ghost use Rattle.std.specs.Prelude.{◌<◌, ◌^◌};

use crate::advising::Team;
use crate::journals::Journals;
use crate::keeping::{Older, kept};
use crate::refused::unplanned;
use crate::telling::{Beginning, tell_end};
use advice::Adviser;
use gated_journal::JOURNAL_MAX;
use plan_base::FileDisk;
use planning_runs::{JudgedPlan, PlanRefusal, Planned, begun, enter_ends, search_plan, shown_on};
use planning_words::{LockedJournal, PlanWords, Progress, TimeLimits};
use shift_instance::Instance;
use solve_runs::Request;
use std::alloc::AllocError;
use std::sync::{Arc, Wait};
use std::thread::Threads;
use thorough_search::Budget;

/// The milliseconds of a second.
const SECOND: u64 = 1_000;

/// The most steps of a search. No search takes so many.
const STEPS_MOST: u64 = 1 << 62;

/// How long a search as the words say may last.
fn limits_of(words: &PlanWords) -> TimeLimits {
    TimeLimits {
        whole: u64::from(words.seconds) * SECOND,
        quiet: words.until_quiet.map(|quiet| u64::from(quiet) * SECOND),
    }
}

/// How many steps a search of so many seconds may take. One without time takes none.
fn steps_of(seconds: u32) -> u64
    ensures { result < 2 ^ 63 }
{
    if seconds == 0 { 0 } else { STEPS_MOST }
}

/// What the steps of each worker of a search as the words say may take: together eight tenths of the bytes for which the journal has room, and its
/// time. With more they would fill the journal where their work is a tenth ahead of the time.
fn budget_of(words: &PlanWords, journal: &LockedJournal<HostRuntime>) -> Budget {
    let room = u64::from(JOURNAL_MAX).saturating_sub(journal.len().unwrap_or(0));
    let workers = u64::from(words.workers.max(1));
    Budget {
        bytes: (room / 10).saturating_mul(8) / workers,
        seconds: words.seconds,
    }
}

/// The plan of a search that has ended.
fn ended(team: &Team, planned: Planned<FileDisk<HostRuntime>>) -> Result<JudgedPlan, PlanRefusal> {
    let Planned { searched, plan } = planned;
    match plan {
        Some(plan) => {
            tell_end(team.host, team.words, team.progress, &searched.end);
            Ok(plan)
        }
        None => Err(unplanned(team.host, team.words, &searched.end)),
    }
}

/// Searches for a plan by these advisers until the search is finished, its time is over, or it is asked to end.
fn advised<R: Threads + Wait + Sync>(
    rt: &R,
    team: &Team,
    instance: Instance,
    journal: &LockedJournal<HostRuntime>,
    advisers: Vec<Box<dyn Adviser + Send>>,
) -> Result<Planned<FileDisk<HostRuntime>>, AllocError>
    requires some { 0 < team.now.words.now.workers }
{
    let until = team.until()?;
    let gate = Beginning::of(team.host, team.progress)?;
    let disk = journal.disk()?;
    let request = Request {
        workers: team.words.workers,
        steps: steps_of(team.words.seconds),
        turns: false,
    };
    Ok(search_plan(
        rt,
        team.host.alloc(),
        instance,
        request,
        disk,
        advisers,
        &gate,
        &until,
    ))
}

/// The plan of a search by so many workers as the words say, each with an adviser of its own.
fn search_by<R: Threads + Wait + Sync>(
    rt: &R,
    team: &Team,
    instance: Instance,
    journal: &LockedJournal<HostRuntime>,
) -> Result<JudgedPlan, PlanRefusal>
    requires some { 0 < team.now.words.now.workers }
{
    let alloc = team.host.alloc();
    let mut advisers: Vec<Box<dyn Adviser + Send>> = Vec::new(alloc);
    for worker in 0..team.words.workers {
        let adviser = team.watched(&instance, worker)?;
        advisers.push(Box::new(alloc, adviser)?)?;
    }
    let planned = advised(rt, team, instance, journal, advisers)?;
    ended(team, planned)
}

/// Whether somebody's line of standard input ends a search as the words say from now on, and so that the line of progress is to say it. A search
/// without time doesn't read standard input.
fn listens<R: Threads>(
    host: HostRuntime,
    rt: &R,
    words: &PlanWords,
    progress: &Arc<Progress>,
) -> bool {
    words.seconds != 0 && enter_ends(host, rt, words.stop_on, progress)
}

/// The plan of a search over a journal as the words say, which a line or the end of standard input ends where the words ask for that, and
/// which keeps what it can of an older plan.
pub fn search_as_asked<R: Threads + Wait + Sync>(
    host: HostRuntime,
    rt: &R,
    words: &PlanWords,
    instance: Instance,
    older: &Older,
    journals: &Journals,
) -> Result<JudgedPlan, PlanRefusal>
    requires some { 0 < words.now.workers }
{
    let progress = begun(host, limits_of(words), words.workers)?;
    let team = Team {
        host,
        words,
        progress: &progress,
        older,
        before: journals.before.as_ref(),
        budget: budget_of(words, &journals.now),
        shown: shown_on(host, listens(host, rt, words, &progress)),
    };
    let found = search_by(rt, &team, instance, &journals.now)?;
    kept(host, found, older)
}
