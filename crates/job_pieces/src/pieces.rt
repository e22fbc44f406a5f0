//! Pieces of jobs, which one worker does.
ghost use Rattle.std.specs.Prelude.{◌≡◌, ◌≤◌, All};
ghost use Rattle.std.specs.Int.{div_ceil};

use crate::{Jobs, PIECE};
use std::alloc::{AllocError, Global};
use std::sync::atomic::{AtomicU64, Ordering};

/// What a job gave, with the job's number.
#[derive(Drop)]
pub(crate) struct Done<O> {
    pub(crate) at: usize,
    pub(crate) output: O,
}

/// In how many pieces so many jobs are cut.
pub(crate) fn pieces_of(count: usize) -> usize
    ensures { result ≡ div_ceil count 64 }
{
    count.div_ceil(PIECE)
}

/// Does the jobs from one number up to another.
fn do_piece<J: Jobs<O, K>, O: Drop, K>(
    alloc: Global,
    jobs: &J,
    kept: &mut K,
    from: usize,
    to: usize,
    done: &mut Vec<Done<O>>,
) -> Result<(), AllocError>
    requires within { to ≤ J.count jobs.now }
    requires serves { J.serves jobs.now kept.old }
    requires done { All (λ d. J.gives jobs.now d.at d.output) done.old.items }
    ensures serves { J.serves jobs.now kept.new }
    ensures done { All (λ d. J.gives jobs.now d.at d.output) done.new.items }
{
    for at in from..to {
        let output = jobs.run(alloc, kept, at)?;
        done.push(Done { at, output })?;
    }
    Ok(())
}

/// Does the piece of a number, counted from 0, of the pieces into which jobs are cut.
fn do_numbered<J: Jobs<O, K>, O: Drop, K>(
    alloc: Global,
    jobs: &J,
    kept: &mut K,
    piece: u64,
    done: &mut Vec<Done<O>>,
) -> Result<(), AllocError>
    requires serves { J.serves jobs.now kept.old }
    requires done { All (λ d. J.gives jobs.now d.at d.output) done.old.items }
    ensures serves { J.serves jobs.now kept.new }
    ensures done { All (λ d. J.gives jobs.now d.at d.output) done.new.items }
{
    let count = jobs.count();
    let from = (piece as usize).saturating_mul(PIECE);
    let to = from.saturating_add(PIECE).min(count);
    do_piece(alloc, jobs, kept, from, to, done)
}

/// Takes one piece of the jobs after another that no worker has taken yet, and does it, until none is left or memory runs out.
pub(crate) fn do_pieces<J: Jobs<O, K>, O: Drop, K: Drop>(
    alloc: Global,
    jobs: &J,
    next: &AtomicU64,
) -> Vec<Done<O>>
    ensures { All (λ d. J.gives jobs.now d.at d.output) result.items }
{
    let mut done = Vec::new(alloc);
    let pieces = pieces_of(jobs.count()) as u64;
    let mut kept = jobs.begin(alloc);
    for _ in 0..pieces {
        let piece = next.fetch_add(1, Ordering::SeqCst);
        if pieces <= piece {
            return done;
        }
        // Where memory runs out, the results of further jobs are missing.
        if do_numbered(alloc, jobs, &mut kept, piece, &mut done).is_err() {
            return done;
        }
    }
    done
}
