//! The search for a cheapest plan of an instance over the journal on a disk.

ghost use Rattle.std.specs.Prelude.{◌≡◌, ◌<◌, ◌≤◌, ◌^◌, true, All, map, vec_len};
ghost use Rattle.solve_runs.specs.Search.{GoesOn, IsBegun, Told};
ghost use Rattle.solve_runs.specs.Searching.{SearchEnds};
ghost use Rattle.solve_runs.specs.Words.{workers_for};

use crate::searched::{Request, SearchEnd, Searched, end_of, end_unopened};
use crate::seats::{advisers_of, seats_of};
use advice::{Adviser, Stop};
use gated_journal::JOURNAL_MAX;
use instance_json::laws::canonical_text_is_short;
use plan_base::Disk;
use post_codec::Post;
use search_book::Book;
use search_core::keeps_sound;
use shift_instance::Instance;
use std::alloc::Global;
use std::sync::Wait;
use std::thread::Threads;
use worker_gate::{Gate, RunEnd, Seat, run_turns, run_workers};

/// The most workers of a search.
const WORKERS_MOST: usize = 16;

/// For how many workers there are advisers.
pub(crate) fn workers_for(advisers: &[Box<dyn Adviser + Send>]) -> u32
    ensures { result ≡ workers_for (map (λ a. told a) advisers.now) }
{
    WORKERS_MOST.min(advisers.len()) as u32
}

/// How many steps posted these: each has prices. Nothing is claimed of it.
fn steps_in(posts: &[Post]) -> u64 {
    let priced = posts
        .iter()
        .filter(|post| matches!(post, Post::Priced { .. }));
    priced.count() as u64
}

/// Runs a worker for each seat over a book from which no node was taken yet, by turns in the order of tickets or not. The gate is told of the book
/// first.
fn search_by<D: Disk + Send, G: Gate + Sync, S: Stop + Sync, R: Threads + Wait + Sync>(
    rt: &R,
    alloc: Global,
    instance: &Instance,
    book: Book<D>,
    seats: Vec<Seat>,
    gate: &G,
    stop: &S,
    turns: bool,
) -> (Book<D>, Vec<Seat>, RunEnd)
    requires same { book.log.instance ≡ instance.now }
    requires begun { IsBegun book }
    requires budget { book.budget < 2 ^ 63 }
    requires some { 0 < vec_len seats }
    requires sixteen { vec_len seats ≤ 16 }
    requires new { All (λ s. (s.told ≡ 0) × (s.share ≡ 0)) seats.items }
    ensures goes_on { GoesOn D.reads D.calls D.faults book result.0 }
    ensures ends { Told D.reads D.calls D.faults (vec_len seats) (record { before = map (λ s. told (s.adviser.vtable, s.adviser.value)) seats.items; after = map (λ s. told (s.adviser.vtable, s.adviser.value)) result.1.items }) book result.0 result.2 }
    ensures seats { vec_len result.1 ≡ vec_len seats }
    ensures stopped { result.2 ≡ RunEnd.Stopped → S.can_ask stop.now ≡ true }
{
    gate.begin(steps_in(book.history()), book.best_cost(), book.floor());
    // what every board keeps, and this one as it is opened
    keeps_sound(&book);
    if turns {
        let (book, seats, _passes, end) = run_turns(rt, alloc, instance, book, seats, gate, stop);
        return (book, seats, end);
    }
    run_workers(rt, alloc, instance, book, seats, gate, stop)
}

/// Opens the book of an instance on the disk, and searches it with a worker for each adviser.
fn search_with<D: Disk + Send, G: Gate + Sync, S: Stop + Sync, R: Threads + Wait + Sync>(
    rt: &R,
    alloc: Global,
    instance: &Instance,
    steps: u64,
    disk: D,
    mut advisers: Vec<Box<dyn Adviser + Send>>,
    gate: &G,
    stop: &S,
    turns: bool,
) -> Searched<D>
    requires count { D.calls disk < 2 ^ 62 }
    requires steps { steps < 2 ^ 63 }
    requires some { 0 < vec_len advisers }
    requires sixteen { vec_len advisers ≤ 16 }
    ensures ended { SearchEnds D.reads D.images D.images_since D.calls D.faults disk instance.now (vec_len advisers) steps
        (record { before = map (λ a. told a) advisers.items; after = map (λ a. told a) result.advisers.items }) result.book result.end }
    ensures stopped { result.end ≡ SearchEnd.Stopped → S.can_ask stop.now ≡ true }
{
    canonical_text_is_short(instance);
    // an instance is valid
    let _heads = instance.heads();
    let Ok(mut seats) = Vec::<Seat>::with_capacity(alloc, advisers.len()) else {
        return Searched::unopened(SearchEnd::NoMemory, disk, advisers);
    };
    let workers = advisers.len() as u32;
    match Book::open(rt, alloc, instance, disk, steps, JOURNAL_MAX, workers) {
        Err(left) => Searched::unopened(end_unopened(left.fault), left.disk, advisers),
        Ok(book) => {
            seats_of(&mut advisers, &mut seats);
            let (book, seats, end) = search_by(rt, alloc, instance, book, seats, gate, stop, turns);
            advisers_of(seats, &mut advisers);
            // what this answer says is what is known of the book
            let _made = book.batches();
            Searched {
                end: end_of(end),
                book: Ok(book),
                advisers,
            }
        }
    }
}

/// Opens the book of an instance on the disk, creating its journal in an empty file, and takes steps until no node is open or so many
/// were taken as are asked for. The journal may have `JOURNAL_MAX` bytes. The book comes back with its disk; where none was opened,
/// the disk does.
///
/// So many workers search as are asked for, by turns in the order of tickets where that is asked for, each with an adviser of its own: the first advisers serve and come back in their order,
/// the others are dropped. Where there are too few of them, or more than sixteen workers are asked for, all come back. Whatever they
/// advise, and in whatever order the workers get the book, all that is said here holds.
///
/// The end is `Finished` where no node is open, `Spent` where all steps were taken and a node is open, `Full` where there was no room
/// for the posts of a step, and `Stopped` only where the stop can ask, a node is open and a step left. `DiskFault` comes only where a
/// fault of the disk was counted, and `NoMemory` may come at any step.
pub fn run_search<D: Disk + Send, G: Gate + Sync, S: Stop + Sync, R: Threads + Wait + Sync>(
    rt: &R,
    alloc: Global,
    instance: &Instance,
    request: Request,
    disk: D,
    mut advisers: Vec<Box<dyn Adviser + Send>>,
    gate: &G,
    stop: &S,
) -> Searched<D>
    requires count { D.calls disk < 2 ^ 62 }
    requires some { 0 < request.workers }
    requires steps { request.steps < 2 ^ 63 }
    ensures ended { SearchEnds D.reads D.images D.images_since D.calls D.faults disk instance.now request.workers request.steps
        (record { before = map (λ a. told a) advisers.items; after = map (λ a. told a) result.advisers.items }) result.book result.end }
    ensures stopped { result.end ≡ SearchEnd.Stopped → S.can_ask stop.now ≡ true }
{
    let have = workers_for(advisers.as_slice());
    let asked = request.workers as u32;
    if have < asked {
        return Searched::unopened(SearchEnd::TooFewAdvisers { asked, have }, disk, advisers);
    }
    advisers.truncate(asked as usize);
    search_with(
        rt,
        alloc,
        instance,
        request.steps,
        disk,
        advisers,
        gate,
        stop,
        request.turns,
    )
}
