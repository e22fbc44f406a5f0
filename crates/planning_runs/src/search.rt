//! The search for a plan over a journal.

ghost use Rattle.std.specs.Prelude.{◌≡◌, ◌<◌, ◌^◌, IfSome, MatchResult, None, true, map};
ghost use Rattle.solve_runs.specs.Searching.{SearchEnds};
ghost use Rattle.planning_runs.specs.Reports.{IsOfBook};

use crate::judging::plan_of;
use crate::plan::JudgedPlan;
use advice::{Adviser, Stop};
use plan_base::Disk;
use shift_instance::Instance;
use solve_runs::{Request, SearchEnd, Searched, run_search};
use std::alloc::Global;
use std::sync::Wait;
use std::thread::Threads;
use worker_gate::Gate;

/// What a search for a plan came to.
#[derive(Drop)]
pub struct Planned<D: Disk> {
    /// How the search ended, and its book or, where none was opened, its disk.
    pub searched: Searched<D>,
    /// The plan of the book; none where no book was opened, or where there was no memory for it.
    pub plan: Option<JudgedPlan>,
}

/// Searches for a plan of an instance over the journal on a disk until the search is finished, its steps are taken, it is asked to stop or
/// something fails, and judges the plan of its book by as many workers, however it ended. All that is said of `run_search` is said of the search: what a crash
/// at any moment leaves holds each step that was acknowledged, and whole steps alone.
pub fn search_plan<D: Disk + Send, G: Gate + Sync, S: Stop + Sync, R: Threads + Wait + Sync>(
    rt: &R,
    alloc: Global,
    instance: Instance,
    request: Request,
    disk: D,
    advisers: Vec<Box<dyn Adviser + Send>>,
    gate: &G,
    stop: &S,
) -> Planned<D>
    requires count { D.calls disk < 2 ^ 62 }
    requires some { 0 < request.workers }
    requires steps { request.steps < 2 ^ 63 }
    ensures ended { SearchEnds D.reads D.images D.images_since D.calls D.faults disk instance request.workers request.steps
        (record { before = map (λ a. told a) advisers.items; after = map (λ a. told a) result.searched.advisers.items }) result.searched.book result.searched.end }
    ensures stopped { result.searched.end ≡ SearchEnd.Stopped → S.can_ask stop.now ≡ true }
    ensures plan { MatchResult result.searched.book (λ book. IfSome result.plan (IsOfBook instance book)) (λ disk. result.plan ≡ None) }
{
    let workers = u32::from(request.workers);
    let searched = run_search(rt, alloc, &instance, request, disk, advisers, gate, stop);
    let plan = match &searched.book {
        Ok(book) => plan_of(rt, alloc, instance, book, workers).ok(),
        Err(_) => None,
    };
    Planned { searched, plan }
}
