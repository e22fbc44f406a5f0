//! What no clause says: that a search ends with its time, and as soon as it is asked to.

use advice::Adviser;
use advisers::Greedy;
use plan_base::MemDisk;
use planning_runs::{JudgedPlan, Planned, search_plan};
use planning_words::{Progress, TimeLimits, Until};
use solve_runs::{Request, SearchEnd};
use std::sync::{Arc, Wait};
use std::test::Fail;
use std::thread::Threads;
use std::time::Instant;
use worker_gate::Open;

/// The progress of a run by one worker that begins now and may last so many milliseconds.
fn begun(rt: HostRuntime, whole: u64, quiet: Option<u64>) -> Result<Arc<Progress>, Fail> {
    let began = Instant::now(&rt)?;
    let progress = Progress::new(rt.alloc(), began, TimeLimits { whole, quiet }, 1)?;
    match Arc::new(rt.alloc(), progress) {
        Ok(progress) => Ok(progress),
        Err(_) => Err(Fail::from("no memory")),
    }
}

/// The morning's search by one worker over a new journal, until it is finished or its progress says that it is over.
fn morning<R: Threads + Wait + Sync>(
    host: HostRuntime,
    rt: &R,
    progress: Arc<Progress>,
) -> Result<(SearchEnd, JudgedPlan), Fail> {
    let alloc = host.alloc();
    let instance = fixtures::morning(alloc)?;
    let mut advisers: Vec<Box<dyn Adviser + Send>> = Vec::new(alloc);
    advisers.push(Box::new(alloc, Greedy::new(alloc))?)?;
    let request = Request {
        workers: 1,
        steps: 100,
        turns: false,
    };
    let disk = MemDisk::new(alloc, Vec::new(alloc), Vec::new(alloc));
    let until = Until::new(progress, host);
    let Planned { searched, plan } = search_plan(
        rt, alloc, instance, request, disk, advisers, &Open, &until,
    );
    Ok((searched.end, plan.ok_or("no plan")?))
}

#[test]
fn a_search_whose_time_is_over_takes_no_step(rt: HostRuntime) -> Result<(), Fail> {
    let (end, plan) = morning(rt, &rt, begun(rt, 0, None)?)?;
    assert!(rt; matches!(end, SearchEnd::Stopped));
    assert!(rt; plan.report.starts_with(b"shift-report 1\nstatus stopped\n"));
    Ok(())
}

#[test]
fn a_search_without_a_cheaper_plan_for_too_long_ends(rt: HostRuntime) -> Result<(), Fail> {
    let (end, _) = morning(rt, &rt, begun(rt, u64::MAX, Some(0))?)?;
    assert!(rt; matches!(end, SearchEnd::Stopped));
    Ok(())
}

#[test]
fn a_search_ends_as_soon_as_it_is_asked_to(rt: HostRuntime) -> Result<(), Fail> {
    let progress = begun(rt, u64::MAX, None)?;
    progress.ask_for_end();
    let (end, _) = morning(rt, &rt, progress)?;
    assert!(rt; matches!(end, SearchEnd::Stopped));
    Ok(())
}

#[test]
fn a_search_within_its_time_is_finished(rt: HostRuntime) -> Result<(), Fail> {
    let (end, plan) = morning(rt, &rt, begun(rt, u64::MAX, None)?)?;
    assert!(rt; matches!(end, SearchEnd::Finished));
    assert!(rt;
        plan.report
            .starts_with(b"shift-report 1\nstatus optimal\ncost 3\nbound 3\n")
    );
    Ok(())
}
