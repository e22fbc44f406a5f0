//! The search for cheaper breaks as the words ask for it.

ghost use Rattle.std.specs.Prelude.{◌≤◌, ◌^◌};

use crate::anew::{Rebroken, with_breaks};
use break_search::Rebreaking;
use planning_runs::{Cause, JudgedPlan, PlanRefusal, begun, enter_ends, shown_on};
use planning_words::{BreaksWords, Progress, Shown, TimeLimits, Until, Watched};
use shift_instance::{Instance, Rows};
use std::alloc::{AllocError, Global};
use std::sync::Arc;
use std::thread::Threads;
use thorough_search::Thorough;

/// The milliseconds of a second.
const SECOND: u64 = 1_000;

/// The most cuts that the nodes of a search have together, about. So many take a gibibyte at most.
const CUTS_MOST: u64 = 1 << 24;

/// The fewest steps that a search may take where its time is long enough.
const STEPS_LEAST: u64 = 100;

/// How many steps a search for breaks may take: each makes two nodes at most, which have as many cuts as the shifts have days, twice, and
/// some more.
fn steps_of(instance: &Instance) -> u64
    ensures { result ≤ 10 ^ 9 }
{
    let shifts = instance.shifts().len() as u64;
    let pins = shifts.saturating_mul(2 * u64::from(instance.days()));
    (CUTS_MOST / pins.saturating_mul(2).max(1)).max(STEPS_LEAST)
}

/// What asks a search to stop.
type Ends = Until<HostRuntime>;

/// The adviser of a search: prices by climbs, and plans with other breaks.
type Rebreaker = Rebreaking<Thorough<Ends>, Ends>;

/// The adviser of a search for cheaper breaks of these rows.
fn rebreaker(
    alloc: Global,
    words: &BreaksWords,
    instance: &Instance,
    rows: &Rows,
    until: &Ends,
) -> Result<Rebreaker, AllocError> {
    let prices = Thorough::for_prices(alloc, until.clone()?);
    let seed = u64::from(words.seed);
    Rebreaking::new(alloc, instance, rows, seed, prices, until.clone()?)
}

/// The refusal where a report has no plan.
fn no_plan(alloc: Global, report: &str) -> PlanRefusal {
    PlanRefusal::said(
        Cause::Report,
        format!(in alloc; "the report `{report}` has no plan whose breaks could be planned anew"),
    )
}

/// Refuses a plan whose report has no rows.
pub fn refuse_without_rows(
    alloc: Global,
    words: &BreaksWords,
    plan: &JudgedPlan,
) -> Result<(), PlanRefusal> {
    match &plan.cert.plan {
        Some(_) => Ok(()),
        None => Err(no_plan(alloc, words.report)),
    }
}

/// The adviser of a search for cheaper breaks of a plan's duties, which a report has to have.
fn adviser_of(
    alloc: Global,
    words: &BreaksWords,
    plan: &JudgedPlan,
    until: &Ends,
) -> Result<Rebreaker, PlanRefusal> {
    match &plan.cert.plan {
        Some((_cost, rows)) => Ok(rebreaker(alloc, words, &plan.instance, rows, until)?),
        None => Err(no_plan(alloc, words.report)),
    }
}

/// Says that a search was asked to end, if it was.
fn tell_end(rt: HostRuntime, shown: Shown, progress: &Progress) {
    if shown != Shown::Below {
        // the line of the search stands there without its line feed
        let _ = eprintln!(rt);
    }
    if progress.is_end_asked() {
        let _ = eprintln!(rt;
            "shift_plan: the search ends early, as it was asked to: its plan is written"
        );
    }
}

/// Plans the breaks of a plan anew as the words ask for it, by one worker, until none can be cheaper, the time is over, or the search is
/// asked to end by a line or the end of standard input. A report without a plan is refused.
pub fn breaks_as_asked<R: Threads>(
    host: HostRuntime,
    rt: &R,
    words: &BreaksWords,
    plan: JudgedPlan,
) -> Result<Rebroken, PlanRefusal> {
    let alloc = host.alloc();
    let limits = TimeLimits {
        whole: u64::from(words.seconds) * SECOND,
        quiet: None,
    };
    let progress = begun(host, limits, 1)?;
    let until = Until::new(Arc::try_clone(&progress)?, host);
    let rebreaker = adviser_of(alloc, words, &plan, &until)?;
    let shown = shown_on(host, enter_ends(host, rt, words.stop_on, &progress));
    let seen = Arc::try_clone(&progress)?;
    let mut adviser = Watched::new(alloc, rebreaker, 0, seen, host, shown);
    let steps = steps_of(&plan.instance);
    let found = with_breaks(alloc, plan, steps, &mut adviser, &until)?;
    tell_end(host, shown, &progress);
    match found {
        Some(rebroken) => Ok(rebroken),
        None => Err(no_plan(alloc, words.report)),
    }
}
