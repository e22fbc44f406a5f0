//! What a search takes from the old journal in whose place its own stands.

ghost use Rattle.std.specs.Prelude.{◌<◌};

use crate::reading::copy_of;
use advice::{Adviser, Never};
use break_rules::NoMemory;
use plan_base::FileDisk;
use planning_runs::{JudgedPlan, PlanRefusal, Planned, search_plan};
use planning_words::{LockedJournal, PlanWords};
use search_book::OpenFault;
use shift_instance::{Instance, Rows};
use solve_runs::{Request, SearchEnd};
use std::alloc::AllocError;
use std::sync::Wait;
use std::thread::Threads;
use thorough_search::Thorough;
use worker_gate::Open;

/// The best plan of an old journal, with which a search begins.
#[derive(Drop)]
pub struct Before {
    /// What it costs.
    pub cost: u64,
    /// Its rows.
    pub(crate) rows: Rows,
}

/// What a search takes from an old journal.
#[derive(Drop)]
pub(crate) enum Taken {
    /// Its best plan.
    Plan(Before),
    /// Nothing, for this cause.
    Nothing(&'static str),
}

/// The best plan of a plan's report, where that has duties.
fn best_of(plan: &JudgedPlan) -> Result<Taken, NoMemory> {
    match &plan.cert.plan {
        Some((cost, rows)) if !rows.is_empty() => Ok(Taken::Plan(Before {
            cost: *cost,
            rows: rows.clone()?,
        })),
        _ => Ok(Taken::Nothing("its best plan has no duty")),
    }
}

/// What is taken from a journal without a plan: nothing, for the cause that its search ended so. Where there was no memory, that is the refusal.
fn nothing_of(end: &SearchEnd) -> Result<Taken, NoMemory> {
    let why = match end {
        SearchEnd::Refused(OpenFault::OtherInstance { .. }) => "it belongs to another instance",
        SearchEnd::Refused(OpenFault::OldVersion) =>
            "it is one of the first version; to go on with its search, type ./run shift_migrate OLD NEW, where OLD is that file and NEW a new one, and name NEW as the journal",
        SearchEnd::Refused(OpenFault::NotAJournal) =>
            "it is no journal of a search, or only the torn beginning of one",
        SearchEnd::Refused(OpenFault::Damaged { .. } | OpenFault::Rejected { .. }) =>
            "it is damaged",
        SearchEnd::DiskFault => "it can't be read",
        _ => return Err(AllocError),
    };
    Ok(Taken::Nothing(why))
}

/// What comes of a search of no steps over a journal as it is, by these advisers.
fn unsearched<R: Threads + Wait + Sync>(
    host: HostRuntime,
    rt: &R,
    words: &PlanWords,
    instance: &Instance,
    journal: &LockedJournal<HostRuntime>,
    advisers: Vec<Box<dyn Adviser + Send>>,
) -> Result<Planned<FileDisk<HostRuntime>>, PlanRefusal>
    requires some { 0 < words.now.workers }
{
    let instance = copy_of(host.alloc(), instance)?;
    let disk = journal.disk()?;
    let request = Request {
        workers: words.workers,
        steps: 0,
        turns: false,
    };
    Ok(search_plan(
        rt,
        host.alloc(),
        instance,
        request,
        disk,
        advisers,
        &Open,
        &Never,
    ))
}

/// What a search of an instance as the words say takes from an old journal: the best plan of that, judged, where it is a whole journal of this
/// instance. The journal stays as it is.
pub(crate) fn taken_from<R: Threads + Wait + Sync>(
    host: HostRuntime,
    rt: &R,
    words: &PlanWords,
    instance: &Instance,
    journal: &LockedJournal<HostRuntime>,
) -> Result<Taken, PlanRefusal>
    requires some { 0 < words.now.workers }
{
    let alloc = host.alloc();
    let mut advisers: Vec<Box<dyn Adviser + Send>> = Vec::new(alloc);
    for _ in 0..words.workers {
        advisers.push(Box::new(alloc, Thorough::new(alloc, 0, Never))?)?;
    }
    let Planned { searched, plan } = unsearched(host, rt, words, instance, journal, advisers)?;
    match plan {
        Some(plan) => Ok(best_of(&plan)?),
        None => Ok(nothing_of(&searched.end)?),
    }
}
