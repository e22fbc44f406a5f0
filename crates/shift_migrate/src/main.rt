//! The way of an old journal to the present version: `shift_migrate OLD NEW` reads a journal of the first version, writes the same posts
//! as a journal of the present version to a file that is new or empty, and prints how many they are.
#![tactic(auto)]

use migrate_runs::{Files, MigrateStatus, OldFault, files_of, migrate_run, status_line};
use plan_base::{FileDisk, StdSink};
use std::alloc::AllocError;
use std::process::ExitCode;
use std::thread::Threads;
use std::{env, fs, io};

/// Files without a name.
const NO_FILES: Files<'static> = Files { old: "", new: "" };

/// The words of the command line, without the program's name. Words that aren't UTF-8 are no names.
fn command_words(rt: &HostRuntime) -> Result<Vec<String>, MigrateStatus> {
    let args = match env::args(rt) {
        Ok(args) => args,
        Err(fault) if fault.kind() == io::ErrorKind::OutOfMemory => {
            return Err(MigrateStatus::NoMemory);
        }
        Err(_) => return Err(MigrateStatus::Usage),
    };
    args.skip(1)
        .collect(rt.alloc())
        .map_err(|_| MigrateStatus::NoMemory)
}

/// The run of these words over the files that they name, or over files without a name, which aren't touched. An old file that isn't
/// there isn't made.
fn migrate<R: Threads + Sync>(
    host: HostRuntime,
    rt: &R,
    words: &[String],
) -> Result<MigrateStatus, AllocError> {
    let files = files_of(words).unwrap_or(NO_FILES);
    if !files.old.is_empty() && matches!(fs::exists(&host, files.old), Ok(false)) {
        return Ok(MigrateStatus::Old(OldFault::NotAJournal));
    }
    let alloc = host.alloc();
    let mut old = FileDisk::new(host, String::from_str(alloc, files.old)?);
    let mut new = FileDisk::new(host, String::from_str(alloc, files.new)?);
    let mut out = StdSink::new(host);
    Ok(migrate_run(rt, alloc, words, &mut old, &mut new, &mut out))
}

/// What is said beside the status where the old file is no journal of the first version.
const NO_MIGRATION: &str = "a journal that solve opens needs no migration";

/// Says a status on standard error, unless all went well.
fn tell(rt: &HostRuntime, status: &MigrateStatus) {
    if matches!(status, MigrateStatus::Migrated) {
        return;
    }
    if let Ok(line) = status_line(rt.alloc(), status) {
        let _ = eprintln!(rt; "shift_migrate: {line}");
    }
    if matches!(status, MigrateStatus::Old(OldFault::NotAJournal)) {
        let _ = eprintln!(rt; "shift_migrate: {NO_MIGRATION}");
    }
}

fn main(rt: HostRuntime) -> ExitCode {
    let status = match command_words(&rt) {
        Ok(words) => migrate(rt, &rt, words.as_slice()).unwrap_or(MigrateStatus::NoMemory),
        Err(status) => status,
    };
    tell(&rt, &status);
    ExitCode::from(status.number())
}
