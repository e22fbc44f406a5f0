//! The shift planner: `shift_solve solve JOURNAL` reads an instance document from the standard input, searches for a cheapest
//! plan over the journal, and prints the report of the search. `shift_solve solve --demo N` searches for one of the instance that is
//! made from a number, and prints a line.
#![tactic(auto)]

use advice::{Adviser, Never};
use advisers::{Greedy, Subgradient};
use descents::Descent;
use plan_base::{FileDisk, StdSink, StdSource};
use solve_runs::{Status, run_command, status_line};
use solve_words::{Command, Method, command_of};
use std::alloc::{AllocError, Global};
use std::process::ExitCode;
use std::sync::Wait;
use std::thread::Threads;
use std::{env, io};
use thorough_search::Thorough;
use worker_gate::Open;

/// How many advisers there are: one for each worker that a run may have.
const ADVISERS: usize = 16;

/// The most moves by which the first adviser makes the greedy plan cheaper, where the words ask for a local search.
const MOVES: u16 = 1000;

/// The scale of the prices that all but the first adviser look for.
const SCALE: u16 = 100;

/// The words of the command line, without the program's name. Words that aren't UTF-8 are no command.
fn command_words(rt: &HostRuntime) -> Result<Vec<String>, Status> {
    let args = match env::args(rt) {
        Ok(args) => args,
        Err(fault) if fault.kind() == io::ErrorKind::OutOfMemory => return Err(Status::NoMemory),
        Err(_) => return Err(Status::Usage),
    };
    args.skip(1)
        .collect(rt.alloc())
        .map_err(|_| Status::NoMemory)
}

/// The run of these words over the standard streams, and over a disk on the JOURNAL word's path, with an adviser for each worker that
/// a run may have. Where the words ask for a thorough search, each searches thoroughly, with a seed of its own from 1 on. Else the
/// first gives greedy advice, with a plan made cheaper by moves where the words ask for a local search, and each other looks for
/// prices by the subgradient method.
fn solve<R: Threads + Wait + Sync>(
    host: HostRuntime,
    rt: &R,
    words: &[String],
) -> Result<Status, AllocError> {
    let alloc = host.alloc();
    let Some(command) = command_of(alloc, words)? else {
        return Ok(Status::Usage);
    };
    let (path, method) = match command {
        Command::Search {
            journal,
            method,
            ..
        } => (String::from_str(alloc, journal)?, method),
        Command::Demo { .. } => (String::new(alloc), Method::Greedy),
    };
    let mut advisers: Vec<Box<dyn Adviser + Send>> = Vec::with_capacity(alloc, ADVISERS)?;
    for place in 0..ADVISERS {
        match method {
            Method::Thorough => advisers.push(Box::new(
                alloc,
                Thorough::new(alloc, place as u64 + 1, Never),
            )?)?,
            _ if 0 < place => advisers.push(Box::new(alloc, Subgradient::of_first(alloc, SCALE))?)?,
            Method::Local => advisers.push(Box::new(alloc, Descent::of_first(alloc, MOVES))?)?,
            Method::Greedy => advisers.push(Box::new(alloc, Greedy::of_first(alloc))?)?,
        }
    }
    let mut input = StdSource::new(host);
    let mut out = StdSink::new(host);
    let disk = FileDisk::new(host, path);
    let ended = run_command(
        rt, alloc, command, &mut input, &mut out, disk, advisers, &Open,
    );
    Ok(ended.status)
}

/// Says a status on standard error, unless it is that of an optimal plan.
fn tell(rt: &HostRuntime, status: &Status) {
    if matches!(status, Status::Optimal) {
        return;
    }
    if let Ok(line) = status_line(rt.alloc(), status) {
        let _ = eprintln!(rt; "shift_solve: {line}");
    }
}

fn main(rt: HostRuntime) -> ExitCode {
    let status = match command_words(&rt) {
        Ok(words) => solve(rt, &rt, words.as_slice()).unwrap_or(Status::NoMemory),
        Err(status) => status,
    };
    tell(&rt, &status);
    ExitCode::from(status.number())
}
