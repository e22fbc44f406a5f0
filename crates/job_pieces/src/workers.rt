//! Jobs done by several workers, each in a thread.
ghost use Rattle.std.specs.Prelude.{◌≡◌, ◌<◌, ℕ, All, IfOk, Some, length, max, min, slice_get};
ghost use Rattle.std.specs.Int.{div_ceil};

use crate::Jobs;
use crate::pieces::{Done, do_pieces, pieces_of};
use crate::results::results_of;
use std::alloc::{AllocError, Global};
use std::sync::atomic::AtomicU64;
use std::thread;
use std::thread::Threads;

/// How many of so many workers are started for so many jobs: no more than there are pieces, and one at least.
fn started(count: usize, workers: usize) -> usize
    requires { 0 < workers }
    ensures { result ≡ max 1 (min workers (div_ceil count 64)) }
{
    workers.min(pieces_of(count)).max(1)
}

/// What each of so many workers does, who take the jobs piece by piece, each in a thread where one can be started.
fn work_all<J: Jobs<O, K> + Sync, O: Send + Drop, K: Send + Drop, R: Threads + Sync>(
    rt: &R,
    alloc: Global,
    jobs: &J,
    workers: usize,
) -> Result<Vec<Vec<Done<O>>>, AllocError>
    ensures { IfOk result (λ bench. All (λ done. All (λ d. J.gives jobs.now d.at d.output) done.items) bench.items) }
{
    let next = AtomicU64::new(0);
    let next = &next;
    thread::map_indices(
        rt,
        alloc,
        workers,
        &|_| -> Vec<Done<O>>
            ensures { All (λ d. J.gives jobs.entry.now d.at d.output) result.items }
        { do_pieces(alloc, jobs, next) },
    )
}

/// What all jobs give, in their order, done by several workers at the same time: each takes a piece of them after another that no
/// worker has taken yet, and keeps from job to job what helps with the next. Where a thread can't be started, its worker's jobs are
/// done by the others. No more workers are started than there are pieces.
pub fn do_all<J: Jobs<O, K> + Sync, O: Send + Drop, K: Send + Drop, R: Threads + Sync>(
    rt: &R,
    alloc: Global,
    jobs: &J,
    workers: usize,
) -> Result<Vec<O>, AllocError>
    requires { 0 < workers }
    ensures count { IfOk result (λ all. length all.items ≡ J.count jobs.now) }
    ensures given { IfOk result (λ all. (at : ℕ) (output : O) → slice_get all.items at ≡ Some output → J.gives jobs.now at output) }
{
    let bench = work_all(rt, alloc, jobs, started(jobs.count(), workers))?;
    results_of(alloc, jobs, bench)
}
