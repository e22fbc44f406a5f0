//! Runs of `solve` by one worker for a small instance, over sources, sinks and disks in memory.

ghost use Rattle.std.specs.Prelude.{◌≡◌, ◌<◌, ◌^◌, IfOk};

use advice::Adviser;
use advisers::Greedy;
use fixtures::morning_document;
use plan_base::{Disk, MemDisk, MemSink, MemSource};
use solve_runs::solve_run;
use std::alloc::{AllocError, Global};
use std::sync::Wait;
use std::thread::Threads;
use worker_gate::Open;

/// The report of the morning with room for one.
pub const MORNING_REPORT: &str =
    "shift-report 1\nstatus optimal\ncost 3\nbound 3\nrows 1\nrow 0 0 1 -\nproof 1\npriced 0 1 0,0,0,0,0,0,0,0,2,2,2,2,0,0,0,0,0,0,0,0,0,0,0,0 -\nend\n";

/// What a run of one worker is given beside its disk.
#[derive(Drop)]
pub struct Inputs {
    pub words: Vec<String>,
    pub source: MemSource,
    pub sink: MemSink,
    pub advisers: Vec<Box<dyn Adviser + Send>>,
}

/// The number of a run's status, whether it opened its book, and its disk and sink.
#[derive(Drop)]
pub struct Ran {
    pub number: u8,
    pub opened: bool,
    pub disk: MemDisk,
    pub sink: MemSink,
}

/// The words `solve J --workers=1`, and a number of steps, where it is to have one.
fn lone_words(alloc: Global, steps: Option<&str>) -> Result<Vec<String>, AllocError> {
    let mut words = Vec::new(alloc);
    for word in ["solve", "J", "--workers=1"] {
        words.push(String::from_str(alloc, word)?)?;
    }
    if let Some(steps) = steps {
        words.push(format!(in alloc; "--steps={steps}")?)?;
    }
    Ok(words)
}

/// The morning's document with room for so many, of which a read gives at most 100 bytes; the read with this number fails, and none
/// where it is 0.
pub fn document(alloc: Global, heads: &str, bad_read: u64) -> Result<MemSource, AllocError> {
    let fails = vec![in alloc; bad_read]?;
    let text = morning_document(alloc, heads)?;
    Ok(MemSource::new(alloc, text.into_bytes(), fails, 100))
}

/// A sink that takes at most 20 bytes in a write, of which the one with this number fails, and none where it is 0.
pub fn sink(alloc: Global, bad_write: u64) -> Result<MemSink, AllocError> {
    let fails = vec![in alloc; bad_write]?;
    Ok(MemSink::new(alloc, fails, 20))
}

/// What a run of so many steps is given for the morning with room for so many, in which nothing fails but the disk.
pub fn inputs_with(
    alloc: Global,
    heads: &str,
    steps: Option<&str>,
    adviser: Box<dyn Adviser + Send>,
) -> Result<Inputs, AllocError> {
    let mut advisers: Vec<Box<dyn Adviser + Send>> = Vec::new(alloc);
    advisers.push(adviser)?;
    Ok(Inputs {
        words: lone_words(alloc, steps)?,
        source: document(alloc, heads, 0)?,
        sink: sink(alloc, 0)?,
        advisers,
    })
}

/// The same with greedy advice.
pub fn greedy_inputs(
    alloc: Global,
    heads: &str,
    steps: Option<&str>,
) -> Result<Inputs, AllocError> {
    let adviser = Box::new(alloc, Greedy::new(alloc))?;
    inputs_with(alloc, heads, steps, adviser)
}

/// A disk without a file, on which the calls with these numbers fail.
pub fn new_disk(alloc: Global, bad_calls: &[u64]) -> Result<MemDisk, AllocError>
    ensures { IfOk result (λ disk. ⟦<MemDisk as Disk>⟧.calls disk ≡ 0) }
{
    Ok(MemDisk::new(alloc, Vec::new(alloc), Vec::from_slice(alloc, bad_calls)?))
}

/// A run over a disk.
pub fn run<R: Threads + Wait + Sync>(rt: &R, alloc: Global, inputs: Inputs, disk: MemDisk) -> Ran
    requires { ⟦<MemDisk as Disk>⟧.calls disk < 2 ^ 62 }
{
    let Inputs {
        words,
        mut source,
        mut sink,
        advisers,
    } = inputs;
    let words = words.as_slice();
    let ended = solve_run(
        rt,
        alloc,
        words,
        &mut source,
        &mut sink,
        disk,
        advisers,
        &Open,
    );
    Ran {
        number: ended.status.number(),
        opened: ended.opened,
        disk: ended.disk,
        sink,
    }
}
