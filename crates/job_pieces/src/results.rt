//! What jobs gave, by their numbers.
ghost use Rattle.std.specs.Prelude.{◌≡◌, ℕ, All, IfOk, None, Some, length, slice_get};
ghost use Rattle.job_pieces.specs.Results.{AreGiven};

use crate::Jobs;
use crate::pieces::Done;
use std::alloc::{AllocError, Global};

/// No result yet for each of so many jobs.
fn no_results<O: Drop>(alloc: Global, count: usize) -> Result<Vec<Option<O>>, AllocError>
    ensures count { IfOk result (λ slots. length slots.items ≡ count) }
    ensures none { IfOk result (λ slots. All (λ slot. slot ≡ None) slots.items) }
{
    let mut slots = Vec::with_capacity(alloc, count)?;
    while slots.len() < count {
        slots.push(None)?;
    }
    Ok(slots)
}

/// Puts what a job gave at its place.
fn put_one<J: Jobs<O, K>, O: Drop, K>(jobs: &J, slots: &mut Vec<Option<O>>, one: Done<O>)
    requires done { J.gives jobs.now one.at one.output }
    requires given { AreGiven (J.gives jobs.now) slots.old.items }
    ensures count { length slots.new.items ≡ length slots.old.items }
    ensures given { AreGiven (J.gives jobs.now) slots.new.items }
{
    let Done { at, output } = one;
    if at < slots.len() {
        slots[at] = Some(output);
    }
}

/// Puts what a worker's jobs gave at their places.
fn put_done<J: Jobs<O, K>, O: Drop, K>(jobs: &J, slots: &mut Vec<Option<O>>, done: Vec<Done<O>>)
    requires done { All (λ d. J.gives jobs.now d.at d.output) done.items }
    requires given { AreGiven (J.gives jobs.now) slots.old.items }
    ensures count { length slots.new.items ≡ length slots.old.items }
    ensures given { AreGiven (J.gives jobs.now) slots.new.items }
{
    for one in done {
        put_one(jobs, slots, one);
    }
}

/// Puts what the jobs of all workers gave at their places.
fn put_all<J: Jobs<O, K>, O: Drop, K>(
    jobs: &J,
    slots: &mut Vec<Option<O>>,
    bench: Vec<Vec<Done<O>>>,
)
    requires done { All (λ done. All (λ d. J.gives jobs.now d.at d.output) done.items) bench.items }
    requires given { AreGiven (J.gives jobs.now) slots.old.items }
    ensures count { length slots.new.items ≡ length slots.old.items }
    ensures given { AreGiven (J.gives jobs.now) slots.new.items }
{
    for done in bench {
        put_done(jobs, slots, done);
    }
}

/// The results of all jobs in their order, where none is missing.
fn all_of<J: Jobs<O, K>, O: Drop, K>(
    alloc: Global,
    jobs: &J,
    slots: Vec<Option<O>>,
) -> Result<Vec<O>, AllocError>
    requires { AreGiven (J.gives jobs.now) slots.items }
    ensures count { IfOk result (λ all. length all.items ≡ length slots.items) }
    ensures given { IfOk result (λ all. (at : ℕ) (output : O) → slice_get all.items at ≡ Some output → J.gives jobs.now at output) }
{
    let mut all = Vec::with_capacity(alloc, slots.len())?;
    for slot in slots {
        match slot {
            Some(output) => all.push(output)?,
            None => return Err(AllocError),
        }
    }
    Ok(all)
}

/// The results of all jobs in their order, out of what each worker did. One is missing only where a worker had no memory left.
pub(crate) fn results_of<J: Jobs<O, K>, O: Drop, K>(
    alloc: Global,
    jobs: &J,
    bench: Vec<Vec<Done<O>>>,
) -> Result<Vec<O>, AllocError>
    requires { All (λ done. All (λ d. J.gives jobs.now d.at d.output) done.items) bench.items }
    ensures count { IfOk result (λ all. length all.items ≡ J.count jobs.now) }
    ensures given { IfOk result (λ all. (at : ℕ) (output : O) → slice_get all.items at ≡ Some output → J.gives jobs.now at output) }
{
    let mut slots = no_results(alloc, jobs.count())?;
    put_all(jobs, &mut slots, bench);
    all_of(alloc, jobs, slots)
}
