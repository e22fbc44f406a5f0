//! The beginning of a search.

use crate::refusal::{Cause, PlanRefusal};
use planning_words::{Progress, Shown, TimeLimits};
use std::io::IsTerminal;
use std::sync::Arc;
use std::time::Instant;

/// The progress of a run by so many workers that begins now and may last so long.
pub fn begun(
    rt: HostRuntime,
    limits: TimeLimits,
    workers: u16,
) -> Result<Arc<Progress>, PlanRefusal> {
    let alloc = rt.alloc();
    let Ok(began) = Instant::now(&rt) else {
        return Err(PlanRefusal::said(
            Cause::System,
            String::from_str(alloc, "the system doesn't tell the time"),
        ));
    };
    let progress = Progress::new(alloc, began, limits, workers)?;
    Ok(Arc::new(alloc, progress)?)
}

/// Where and how often the line of the search is said.
pub fn shown_on(rt: HostRuntime, enter_ends: bool) -> Shown {
    if rt.stderr().is_terminal() {
        Shown::InPlace { enter_ends }
    } else {
        Shown::Below
    }
}
