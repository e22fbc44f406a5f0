//! `graft_run below INSTANCE REPORT NODE STEPS` searches below one node of a report, apart from the search that made it, and writes the
//! report with what it found; `graft_run breaks INSTANCE REPORT STEPS` plans the breaks of a report's rows anew; `graft_run nodes
//! INSTANCE REPORT N` lists the open nodes below which can be searched; `graft_run join INSTANCE REPORT PART..` joins what searches below
//! several nodes of a report found.
#![tactic(auto)]

mod deadline;
mod paced;

use crate::deadline::Deadline;
use crate::paced::Paced;
use check_runs::Files;
use graft_runs::{Budget, Command, GraftStatus, Request, graft_top_by, request_of};
use join_runs::{JoinRequest, JoinStatus, join_of, join_top};
use plan_base::{FileSource, StdSink};
use std::alloc::AllocError;
use std::process::ExitCode;
use std::{env, io};

/// Files without a name.
const NO_FILES: Files<'static> = Files {
    instance: "",
    report: "",
};

/// The words of the command line, without the program's name. Words that aren't UTF-8 are no command.
fn command_words(rt: &HostRuntime) -> Result<Vec<String>, GraftStatus> {
    let args = match env::args(rt) {
        Ok(args) => args,
        Err(fault) if fault.kind() == io::ErrorKind::OutOfMemory => {
            return Err(GraftStatus::NoMemory);
        }
        Err(_) => return Err(GraftStatus::Usage),
    };
    args.skip(1)
        .collect(rt.alloc())
        .map_err(|_| GraftStatus::NoMemory)
}

/// How many seconds what is asked for has, if its time is limited.
fn seconds_of(request: Option<Request<'_>>) -> Option<u64> {
    match request?.command {
        Command::Thorough {
            node: _,
            budget: Budget::Seconds(seconds),
        } => Some(seconds),
        _ => None,
    }
}

/// The run of these words over the files that they name, or over files without a name, which aren't touched.
fn run(rt: HostRuntime, words: &[String]) -> Result<GraftStatus, AllocError> {
    let alloc = rt.alloc();
    let request = request_of(words);
    let files = match request {
        Some(request) => request.files,
        None => NO_FILES,
    };
    let stop = Deadline::new(rt, seconds_of(request));
    let mut thorough = Paced::new(alloc, stop.clone()?);
    let mut document = FileSource::new(rt, String::from_str(alloc, files.instance)?);
    let mut bundle = FileSource::new(rt, String::from_str(alloc, files.report)?);
    let mut out = StdSink::new(rt);
    Ok(graft_top_by(
        alloc,
        words,
        &mut document,
        &mut bundle,
        &mut out,
        &mut thorough,
        &stop,
    ))
}

/// Sources of the files of these paths.
fn sources(rt: HostRuntime, paths: &[String]) -> Result<Vec<FileSource<HostRuntime>>, AllocError> {
    let mut list = Vec::new(rt.alloc());
    for path in paths {
        list.push(FileSource::new(rt, path.clone()?))?;
    }
    Ok(list)
}

/// The run of words that join parts into a report.
fn run_join(
    rt: HostRuntime,
    words: &[String],
    asked: JoinRequest<'_>,
) -> Result<JoinStatus, AllocError> {
    let alloc = rt.alloc();
    let mut document = FileSource::new(rt, String::from_str(alloc, asked.files.instance)?);
    let mut bundle = FileSource::new(rt, String::from_str(alloc, asked.files.report)?);
    let mut parts = sources(rt, asked.parts)?;
    let mut out = StdSink::new(rt);
    Ok(join_top(
        alloc,
        words,
        &mut document,
        &mut bundle,
        parts.as_mut_slice(),
        &mut out,
    ))
}

/// The number with which a run of these words ends.
fn number_of(rt: HostRuntime, words: &[String]) -> u8 {
    match join_of(words) {
        Some(asked) => run_join(rt, words, asked)
            .unwrap_or(JoinStatus::NoMemory)
            .number(),
        None => run(rt, words).unwrap_or(GraftStatus::NoMemory).number(),
    }
}

fn main(rt: HostRuntime) -> ExitCode {
    ExitCode::from(match command_words(&rt) {
        Ok(words) => number_of(rt, words.as_slice()),
        Err(status) => status.number(),
    })
}
