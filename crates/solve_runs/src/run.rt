//! The run of `solve`.

ghost use Rattle.std.specs.Prelude.{◌≡◌, ◌≢◌, ◌<◌, ◌≤◌, ◌^◌, ℕ, [], false, map, None, option_and_then, string_bytes, vec_len, List, MatchResult};
ghost use Rattle.solve_words.specs.Asked.{asked};
ghost use Rattle.solve_words.specs.Words.{from_number, Asked, Asks, IsWithin};
ghost use Rattle.solve_runs.specs.Demo.{OverMemory};
ghost use Rattle.solve_runs.specs.Run.{met_in, status_unread, EndsCommand, Explains, IsUnread, OverDisk};
ghost use Rattle.solve_runs.specs.Searching.{SearchEnds};
ghost use Rattle.solve_runs.specs.Session.{met_of};
ghost use Rattle.solve_runs.specs.Status.{EndsEarly, EndsUnwritten};
ghost use Rattle.solve_runs.specs.Streams.{sink_of};
ghost use Rattle.solve_runs.specs.Words.{workers_for};
ghost use Rattle.solve_runs.specs.Writing.{EndsAs};

use crate::demo::run_demo;
use crate::report::write_report;
use crate::search::{run_search, workers_for};
use crate::searched::{Request, SearchEnd, Searched, status_at};
use crate::status::Status;
use advice::{Adviser, Never};
use instance_input::{Unread, read_instance};
use plan_base::{Disk, MemDisk, Sink, Source};
use search_book::Book;
use shift_instance::Instance;
use solve_words::{Command, command_of};
use std::alloc::Global;
use std::sync::Wait;
use std::thread::Threads;
use worker_gate::Gate;

/// How many workers search where a command says no number.
const WORKERS_UNSAID: u16 = 4;

/// How a run ends whose document isn't read.
fn status_unread(why: Unread) -> Status
    ensures { result ≡ status_unread why }
{
    match why {
        Unread::Refused(why) => Status::Input(why),
        Unread::ReadFault => Status::ReadFault,
        Unread::NoMemory => Status::NoMemory,
    }
}

/// How a run ended, and what it hands back.
#[derive(Drop)]
pub struct Ended<D: Disk> {
    /// How it ended.
    pub status: Status,
    /// The advisers that served, in their order.
    pub advisers: Vec<Box<dyn Adviser + Send>>,
    /// The disk that it was given.
    pub disk: D,
    /// Whether it opened a book on that disk.
    pub opened: bool,
    /// The disk in memory of a demonstration, where its line was written, whole or in part.
    pub demo: Option<MemDisk>,
}

impl<D: Disk> Ended<D> {
    /// The end of a run that opened no book.
    fn unopened(status: Status, advisers: Vec<Box<dyn Adviser + Send>>, disk: D) -> Ended<D>
        ensures { (result.status ≡ status) × (result.advisers ≡ advisers) × (result.disk ≡ disk) × (result.opened ≡ false) × (result.demo ≡ None) }
    {
        Ended {
            status,
            advisers,
            disk,
            opened: false,
            demo: None,
        }
    }

    /// The end of a run that no adviser served.
    fn early(alloc: Global, status: Status, disk: D) -> Ended<D>
        ensures { (result.status ≡ status) × (result.advisers.items ≡ []) × (result.disk ≡ disk) × (result.opened ≡ false) × (result.demo ≡ None) }
    {
        Ended::unopened(status, Vec::new(alloc), disk)
    }
}

/// Writes the report of a book where its search came to an end of which there is one, and says how the run ends.
fn write_end<K: Sink, D: Disk>(
    alloc: Global,
    instance: &Instance,
    book: &Book<D>,
    end: SearchEnd,
    table: bool,
    out: &mut K,
) -> Status
    requires same { book.now.log.instance ≡ instance.now }
    requires going { end ≢ SearchEnd.Stopped }
    ensures status { EndsAs instance.now book.now end table (sink_of K.held K.faults out.old out.new) result }
    ensures unwritten { EndsUnwritten result → out.new ≡ out.old }
{
    if !end.is_reported() {
        return status_at(end);
    }
    match write_report(alloc, instance, book, table, out) {
        Ok(()) => status_at(end),
        Err(status) => status,
    }
}

/// Ends a run over what its search handed back: writes the report of the book, where there is one.
fn end_search<K: Sink, D: Disk>(
    alloc: Global,
    instance: &Instance,
    searched: Searched<D>,
    table: bool,
    out: &mut K,
) -> Ended<D>
    requires going { searched.end ≢ SearchEnd.Stopped }
    requires same { MatchResult searched.book (λ book. book.log.instance ≡ instance.now) (λ disk. Unit {0}) }
    ensures status { (disk : _) (workers budget : ℕ) (before : List ℕ)
        → SearchEnds D.reads D.images D.images_since D.calls D.faults disk instance.now workers budget (record { before = before; after = map (λ a. told a) searched.advisers.items }) searched.book searched.end
        → workers ≤ workers_for before
        → OverDisk (met_of D.reads D.images D.images_since D.calls D.faults disk result.disk)
        (sink_of K.held K.faults out.old out.new)
        instance.now table budget workers (record { before = before; after = map (λ a. told a) result.advisers.items }) result.opened result.status }
    ensures unwritten { EndsUnwritten result.status → out.new ≡ out.old }
    ensures demo { result.demo ≡ None }
{
    let Searched {
        end,
        book,
        advisers,
    } = searched;
    match book {
        Ok(book) => {
            let status = write_end(alloc, instance, &book, end, table, out);
            Ended {
                status,
                advisers,
                disk: book.into_disk(),
                opened: true,
                demo: None,
            }
        }
        Err(disk) => Ended::unopened(status_at(end), advisers, disk),
    }
}

/// The search of a command over the document, for which there are advisers enough.
fn run_over<S: Source, K: Sink, D: Disk + Send, G: Gate + Sync, R: Threads + Wait + Sync>(
    rt: &R,
    alloc: Global,
    request: Request,
    table: bool,
    input: &mut S,
    out: &mut K,
    disk: D,
    mut advisers: Vec<Box<dyn Adviser + Send>>,
    gate: &G,
) -> Ended<D>
    requires count { D.calls disk < 2 ^ 62 }
    requires some { 0 < request.workers }
    requires steps { request.steps < 2 ^ 63 }
    requires enough { request.workers ≤ workers_for (map (λ a. told a) advisers.items) }
    ensures status { (journal : List ℕ) → EndsCommand
        (met_in (λ asked. Unit {0}) S.left S.faults input.old input.new K.held K.faults out.old out.new
        (record { before = map (λ a. told a) advisers.items; after = map (λ a. told a) result.advisers.items })
        (met_of D.reads D.images D.images_since D.calls D.faults disk result.disk)
        result.opened (option_and_then ⟦<MemDisk as Disk>⟧.reads result.demo))
        (record { journal = journal; workers = request.workers; steps = request.steps; table = table })
        result.status }
    ensures unwritten { EndsUnwritten result.status → out.new ≡ out.old }
    ensures untouched { EndsEarly result.status → result.disk ≡ disk }
{
    match read_instance(alloc, input) {
        Ok(instance) => {
            let searched = run_search(rt, alloc, &instance, request, disk, advisers, gate, &Never);
            end_search(alloc, &instance, searched, table, out)
        }
        Err(why) => {
            advisers.truncate(request.workers as usize);
            Ended::unopened(status_unread(why), advisers, disk)
        }
    }
}

/// The demonstration of a number by the one adviser, beside a disk that it doesn't call.
fn run_beside<K: Sink, D: Disk, G: Gate, R: Threads + Sync>(
    rt: &R,
    alloc: Global,
    number: u32,
    steps: u64,
    out: &mut K,
    disk: D,
    advisers: Vec<Box<dyn Adviser + Send>>,
    gate: &G,
) -> Ended<D>
    requires steps { steps < 2 ^ 63 }
    requires one { vec_len advisers ≡ 1 }
    ensures status { OverMemory
        (record {
          number = number;
          budget = steps;
          told = record { before = map (λ a. told a) advisers.items; after = map (λ a. told a) result.advisers.items };
          sink = sink_of K.held K.faults out.old out.new;
          file = option_and_then ⟦<MemDisk as Disk>⟧.reads result.demo;
        })
        result.status }
    ensures unwritten { EndsUnwritten result.status → out.new ≡ out.old }
    ensures untouched { result.disk ≡ disk }
    ensures unopened { result.opened ≡ false }
{
    let end = run_demo(rt, alloc, number, steps, out, advisers, gate);
    Ended {
        status: end.status,
        advisers: end.advisers,
        disk,
        opened: false,
        demo: end.disk,
    }
}

/// The run of a command of `solve`: of `solve JOURNAL`, or of `solve --demo N`.
///
/// `solve JOURNAL` reads the instance document from `input` to its end, searches over the disk by [`run_search`], and writes the
/// report of the book to `out`: the best plan with its cost, the bound, and the proof lines of all its posts, with the table of the
/// plan behind them where that is asked for. `solve --demo N` calls neither `input` nor the disk: it makes the instance of the
/// number, searches it over a new journal in memory, and writes one line. The disk is handed back, with whether a book was opened on
/// it.
///
/// A search has W workers, four where the command says no number, each with an adviser of its own: the first W serve and come back in
/// their order, the others are dropped. Whatever they advise, and in whatever order the workers get the book, all that is said here
/// holds. A demonstration is searched by one worker with the first adviser.
///
/// The book may have `JOURNAL_MAX` bytes. The status is `Optimal` exactly where no node is open and the report or the line was
/// written, and `Budget` where all steps were taken and a node is open; `Full` where there was no room for the posts of a step. Under
/// these the whole report or line was written, and the certificate of a report is accepted. `Workers` comes where more workers are
/// asked for than sixteen or than there are advisers, and then no adviser comes back; `Input` where the document is refused; `Journal`
/// where the disk's file isn't empty and doesn't stand for posts of this instance that make a book, with the cause; `ReadFault`,
/// `WriteFault` and `DiskFault` only where a fault of the source, the sink or the disk was counted. `NoMemory` may come at any step.
/// Nothing is written before the report or the line, and the disk isn't called before the document is read.
///
/// After a crash at any moment once the book is opened, a disk that keeps to the disk model and tells its content opens again to
/// a book with all posts that were in it and each that was acknowledged.
pub fn run_command<
    'a,
    S: Source,
    K: Sink,
    D: Disk + Send,
    G: Gate + Sync,
    R: Threads + Wait + Sync,
>(
    rt: &R,
    alloc: Global,
    command: Command<'a>,
    input: &mut S,
    out: &mut K,
    disk: D,
    mut advisers: Vec<Box<dyn Adviser + Send>>,
    gate: &G,
) -> Ended<D>
    requires count { D.calls disk < 2 ^ 62 }
    requires within { IsWithin (asked command) }
    ensures status { Explains
        (met_in (λ a. a ≡ asked command.entry) S.left S.faults input.old input.new K.held K.faults out.old out.new
        (record { before = map (λ a. told a) advisers.items; after = map (λ a. told a) result.advisers.items })
        (met_of D.reads D.images D.images_since D.calls D.faults disk result.disk)
        result.opened (option_and_then ⟦<MemDisk as Disk>⟧.reads result.demo))
        result.status }
    ensures unread { IsUnread (λ a. a ≡ asked command.entry) result.status → input.new ≡ input.old }
    ensures unwritten { EndsUnwritten result.status → out.new ≡ out.old }
    ensures untouched { EndsEarly result.status → result.disk ≡ disk }
    ensures beside { (number steps : ℕ) → asked command.entry ≡ from_number number steps → result.disk ≡ disk }
{
    let have = workers_for(advisers.as_slice());
    match command {
        Command::Search {
            workers,
            steps,
            table,
            turns,
            ..
        } => {
            let workers = workers.unwrap_or(WORKERS_UNSAID);
            let asked = workers as u32;
            if have < asked {
                return Ended::early(alloc, Status::Workers { asked, have }, disk);
            }
            let request = Request {
                workers,
                steps,
                turns,
            };
            run_over(rt, alloc, request, table, input, out, disk, advisers, gate)
        }
        Command::Demo { number, steps } => {
            if have < 1 {
                return Ended::early(alloc, Status::Workers { asked: 1, have }, disk);
            }
            advisers.truncate(1);
            run_beside(rt, alloc, number, steps, out, disk, advisers, gate)
        }
    }
}

/// The run of `solve` with these words: the run of the command that `solve_words::command_of` reads in them ([`run_command`], whose
/// promises hold of it). `Usage` comes where the words are no command, and then no adviser comes back; where there is no memory to
/// read them, all come back.
///
/// So the words of a command, advisers enough, the document of an instance, a file that is empty or holds a book of it, and no fault
/// give `Optimal`, `Budget`, `Full` or `NoMemory`, and so do those of a demonstration without a fault of the sink; with enough steps
/// not `Budget`.
pub fn solve_run<S: Source, K: Sink, D: Disk + Send, G: Gate + Sync, R: Threads + Wait + Sync>(
    rt: &R,
    alloc: Global,
    words: &[String],
    input: &mut S,
    out: &mut K,
    disk: D,
    advisers: Vec<Box<dyn Adviser + Send>>,
    gate: &G,
) -> Ended<D>
    requires count { D.calls disk < 2 ^ 62 }
    ensures status { Explains
        (met_in (Asks (map string_bytes words.now)) S.left S.faults input.old input.new K.held K.faults out.old out.new
        (record { before = map (λ a. told a) advisers.items; after = map (λ a. told a) result.advisers.items })
        (met_of D.reads D.images D.images_since D.calls D.faults disk result.disk)
        result.opened (option_and_then ⟦<MemDisk as Disk>⟧.reads result.demo))
        result.status }
    ensures unread { IsUnread (Asks (map string_bytes words.now)) result.status → input.new ≡ input.old }
    ensures unwritten { EndsUnwritten result.status → out.new ≡ out.old }
    ensures untouched { EndsEarly result.status → result.disk ≡ disk }
    ensures beside { (number steps : ℕ) → Asks (map string_bytes words.now) (from_number number steps) → result.disk ≡ disk }
{
    match command_of(alloc, words) {
        Ok(Some(command)) => run_command(rt, alloc, command, input, out, disk, advisers, gate),
        Ok(None) => Ended::early(alloc, Status::Usage, disk),
        Err(_) => Ended::unopened(Status::NoMemory, advisers, disk),
    }
}
