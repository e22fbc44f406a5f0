//! A demonstration: a search without a document and without a journal's file, for the instance made from a number.

ghost use Rattle.std.specs.Prelude.{◌≡◌, ◌≢◌, ◌⊎◌, ◌<◌, ◌^◌, ℕ, true, [], map, vec_len, IfOk, IsSome, None, OnErr, OnOk, option_and_then, Some};
ghost use Rattle.std.specs.Io.KnownBytes.{Appends};
ghost use Rattle.plan_base.specs.Causes.{Rose};
ghost use Rattle.plan_base.specs.Streams.{AppendsPart};
ghost use Rattle.instance_json.specs.Generated.{generated};
ghost use Rattle.search_book.specs.Keeping.{IsRunningPosts, ShutOf};
ghost use Rattle.search_book.specs.Search.{board_of};
ghost use Rattle.worker_gate.specs.Runs.{committed};
ghost use Rattle.solve_runs.specs.Demo.{demo_text, end_text, line_of, AreCommitted, Demonstration, IsNew, OverMemory, Searches};
ghost use Rattle.solve_runs.specs.Search.{IsBegun};
ghost use Rattle.solve_runs.specs.Searching.{end_of, is_reported};
ghost use Rattle.solve_runs.specs.Served.{AreTold};
ghost use Rattle.solve_runs.specs.Status.{EndsUnwritten};
ghost use Rattle.solve_runs.specs.Streams.{sink_of};
ghost use Rattle.solve_runs.specs.declared.status.Status.TheVariants.{NoMemory as MemoryStatus};

use crate::searched::{end_of, status_at};
use crate::status::Status;
use advice::{Adviser, Never};
use gated_journal::JOURNAL_MAX;
use instance_json::generate;
use instance_json::laws::canonical_text_is_short;
use plan_base::{Disk, Failed, MemDisk, Sink, write_all};
use search_book::Book;
use shift_instance::Instance;
use std::alloc::{AllocError, Global};
use std::thread::Threads;
use worker_gate::{Gate, RunEnd, Seat, run_seat};

/// The line of a demonstration, with its line feed: its number, whether no plan of its instance is cheaper than the best one found,
/// the cost of that plan, what every plan is known to cost at least, and the steps taken.
pub fn demo_line(
    alloc: Global,
    number: u32,
    optimal: bool,
    cost: u64,
    bound: u64,
    steps: u64,
) -> Result<Vec<u8>, AllocError>
    ensures { IfOk result (λ bytes. bytes.items ≡ demo_text number optimal cost bound steps) }
{
    let end = if optimal { "optimal" } else { "stopped" };
    let line = format!(in alloc;
        "demo {number} status {end} cost {cost} bound {bound} steps {steps}\n"
    )?;
    Vec::from_slice(alloc, line.as_bytes())
}

/// The line of a demonstration's book.
fn line_of<D: Disk>(alloc: Global, number: u32, book: &Book<D>) -> Result<Vec<u8>, AllocError>
    ensures { IfOk result (λ bytes. bytes.items ≡ line_of number (board_of D.reads D.calls D.faults book.now)) }
{
    // its posts make the book
    let _posts = book.history();
    demo_line(
        alloc,
        number,
        book.finished(),
        book.best_cost(),
        book.floor(),
        book.taken(),
    )
}

/// Writes the line of a demonstration's book, unless there is no memory for it; the sink may fail.
fn write_line<K: Sink, D: Disk>(
    alloc: Global,
    number: u32,
    book: &Book<D>,
    out: &mut K,
) -> Result<Result<(), Failed>, AllocError>
    ensures ok { IfOk result (λ sent. OnOk sent (Appends (K.held out.old) (K.held out.new) (line_of number (board_of D.reads D.calls D.faults book.now)))) }
    ensures part { IfOk result (λ sent. OnErr sent (AppendsPart (K.held out.old) (K.held out.new) (line_of number (board_of D.reads D.calls D.faults book.now)) × Rose (K.faults out.old) (K.faults out.new))) }
    ensures unwritten { OnErr result (out.new ≡ out.old) }
{
    let bytes = line_of(alloc, number, book)?;
    Ok(write_all(out, bytes.as_slice()))
}

/// The search of a demonstration by the one adviser over a book from which no node was taken yet. The adviser comes back.
fn search_all<D: Disk, G: Gate>(
    alloc: Global,
    instance: &Instance,
    book: &mut Book<D>,
    advisers: &mut Vec<Box<dyn Adviser + Send>>,
    gate: &G,
) -> RunEnd
    requires same { book.old.log.instance ≡ instance.now }
    requires begun { IsBegun book.old }
    requires budget { book.old.budget < 2 ^ 63 }
    requires one { vec_len advisers.old ≡ 1 }
    ensures searches { Searches (board_of D.reads D.calls D.faults book.old) (board_of D.reads D.calls D.faults book.new) result }
    ensures told { AreTold 1 (committed result book.new.taken) (record { before = map (λ a. told a) advisers.old.items; after = map (λ a. told a) advisers.new.items }) }
    ensures going { result ≢ RunEnd.Stopped }
    ensures committed { is_reported (end_of result) ≡ true → AreCommitted result (committed result book.new.taken) book.new.taken }
{
    let mut seat = Seat {
        adviser: advisers.remove(0),
        told: 0,
        share: 0,
    };
    let end = run_seat(alloc, instance, book, &mut seat, gate, &Never);
    let Seat {
        adviser,
        told: _,
        share: _,
    } = seat;
    advisers.push_reserved(adviser);
    end
}

/// A book over a new journal in memory, in which so many steps may be taken.
fn new_book<R: Threads + Sync>(
    rt: &R,
    alloc: Global,
    instance: &Instance,
    steps: u64,
) -> Result<Book<MemDisk>, AllocError>
    ensures new { IfOk result (λ book. IsNew instance.now steps (board_of ⟦<MemDisk as Disk>⟧.reads ⟦<MemDisk as Disk>⟧.calls ⟦<MemDisk as Disk>⟧.faults book)) }
    ensures same { IfOk result (λ book. book.log.instance ≡ instance.now) }
    ensures begun { IfOk result IsBegun }
    ensures budget { IfOk result (λ book. book.budget ≡ steps) }
{
    canonical_text_is_short(instance);
    let disk = MemDisk::new(alloc, Vec::new(alloc), Vec::new(alloc));
    match Book::open(rt, alloc, instance, disk, steps, JOURNAL_MAX, 1) {
        Ok(book) => Ok(book),
        // an empty disk in memory is refused by running out of memory alone
        Err(_) => Err(AllocError),
    }
}

/// How a demonstration ends, and its disk where its line was written, whole or in part.
#[derive(Drop)]
pub(crate) struct DemoEnd {
    pub status: Status,
    pub advisers: Vec<Box<dyn Adviser + Send>>,
    pub disk: Option<MemDisk>,
}

impl DemoEnd {
    /// The end on running out of memory.
    fn no_memory(advisers: Vec<Box<dyn Adviser + Send>>) -> DemoEnd
        ensures { (result.status ≡ Status.NoMemory) × (result.advisers ≡ advisers) × (result.disk ≡ None) }
    {
        DemoEnd {
            status: Status::NoMemory,
            advisers,
            disk: None,
        }
    }

    /// The end with the disk of a book, and what is known of it.
    fn with_book(
        status: Status,
        advisers: Vec<Box<dyn Adviser + Send>>,
        book: Book<MemDisk>,
    ) -> DemoEnd
        ensures status { result.status ≡ status }
        ensures advisers { result.advisers ≡ advisers }
        ensures disk { result.disk ≡ Some book.log.disk }
        ensures told { IsSome (⟦<MemDisk as Disk>⟧.reads book.log.disk) }
        ensures running { book.log.in_flight ≡ [] → IsRunningPosts ⟦<MemDisk as Disk>⟧.reads ⟦<MemDisk as Disk>⟧.images ⟦<MemDisk as Disk>⟧.calls book.log }
        ensures fault { ShutOf book.log.limit (⟦<MemDisk as Disk>⟧.faults book.log.opened) (⟦<MemDisk as Disk>⟧.faults book.log.disk) book.log.in_flight book.log.shut }
    {
        // what this answer says is what is known of the book
        let _made = book.batches();
        let disk = book.into_disk();
        // a disk in memory tells its content
        let _bytes = disk.bytes();
        DemoEnd {
            status,
            advisers,
            disk: Some(disk),
        }
    }
}

/// Searches an instance over a new journal in memory with the one adviser, and writes its line.
fn demo_over<K: Sink, G: Gate, R: Threads + Sync>(
    rt: &R,
    alloc: Global,
    instance: &Instance,
    number: u32,
    steps: u64,
    out: &mut K,
    mut advisers: Vec<Box<dyn Adviser + Send>>,
    gate: &G,
) -> DemoEnd
    requires generated { instance.now ≡ generated number }
    requires steps { steps < 2 ^ 63 }
    requires one { vec_len advisers ≡ 1 }
    ensures status { OverMemory
        (record {
          number = number;
          budget = steps;
          told = record { before = map (λ a. told a) advisers.items; after = map (λ a. told a) result.advisers.items };
          sink = sink_of K.held K.faults out.old out.new;
          file = option_and_then ⟦<MemDisk as Disk>⟧.reads result.disk;
        })
        result.status }
    ensures unwritten { EndsUnwritten result.status → out.new ≡ out.old }
{
    let Ok(mut book) = new_book(rt, alloc, instance, steps) else {
        return DemoEnd::no_memory(advisers);
    };
    let how = search_all(alloc, instance, &mut book, &mut advisers, gate);
    let end = end_of(how);
    if !end.is_reported() {
        // a disk in memory fails by running out of memory alone
        return DemoEnd::no_memory(advisers);
    }
    match write_line(alloc, number, &book, out) {
        Ok(Ok(())) => DemoEnd::with_book(status_at(end), advisers, book),
        Ok(Err(Failed)) => DemoEnd::with_book(Status::WriteFault, advisers, book),
        Err(_) => DemoEnd::no_memory(advisers),
    }
}

/// The run of `solve --demo N`, of at most so many steps: makes the instance of the number, searches it over a new journal in memory
/// with the one adviser, and writes one line.
pub(crate) fn run_demo<K: Sink, G: Gate, R: Threads + Sync>(
    rt: &R,
    alloc: Global,
    number: u32,
    steps: u64,
    out: &mut K,
    advisers: Vec<Box<dyn Adviser + Send>>,
    gate: &G,
) -> DemoEnd
    requires steps { steps < 2 ^ 63 }
    requires one { vec_len advisers ≡ 1 }
    ensures status { OverMemory
        (record {
          number = number;
          budget = steps;
          told = record { before = map (λ a. told a) advisers.items; after = map (λ a. told a) result.advisers.items };
          sink = sink_of K.held K.faults out.old out.new;
          file = option_and_then ⟦<MemDisk as Disk>⟧.reads result.disk;
        })
        result.status }
    ensures unwritten { EndsUnwritten result.status → out.new ≡ out.old }
{
    match generate(alloc, number) {
        Ok(instance) => demo_over(rt, alloc, &instance, number, steps, out, advisers, gate),
        Err(_) => DemoEnd::no_memory(advisers),
    }
}
