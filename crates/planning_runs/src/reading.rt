//! Files that are read whole.

use crate::refusal::PlanRefusal;
use instance_json::{INSTANCE_MAX, ReadRefusal};
use plan_base::{FileSource, ReadEnd, read_all};
use planning_words::is_unfinished;
use refusal_texts::Role;
use std::alloc::AllocError;
use std::fs::{self, File};
use std::io::{self, Read};

/// Why a file can't be read: what the system says of it now.
fn why_unread(rt: HostRuntime, path: &str) -> io::ErrorKind {
    if let Ok(found) = fs::metadata(&rt, path) {
        if found.is_dir() {
            return io::ErrorKind::IsADirectory;
        }
    }
    match File::open(&rt, path) {
        Err(why) => why.kind(),
        Ok(_) => io::ErrorKind::Other,
    }
}

/// All bytes of a file that may have so many, and none where it has more.
fn read_within(
    rt: HostRuntime,
    role: Role,
    path: &str,
    limit: usize,
) -> Result<Option<Vec<u8>>, PlanRefusal> {
    let alloc = rt.alloc();
    let mut source = FileSource::new(rt, String::from_str(alloc, path)?);
    match read_all(alloc, &mut source, limit) {
        Ok(bytes) => Ok(Some(bytes)),
        Err(ReadEnd::TooLong) => Ok(None),
        Err(ReadEnd::ReadFault) => Err(PlanRefusal::unread(
            alloc,
            role,
            path,
            why_unread(rt, path),
        )),
        Err(ReadEnd::NoMemory) => Err(PlanRefusal::from(AllocError)),
    }
}

/// How reports begin.
const REPORT: &[u8] = b"shift-report ";

/// Whether a file that is too long for a document begins as reports do.
fn is_report(rt: HostRuntime, path: &str) -> bool {
    let mut start = [0u8; 13];
    match File::open(&rt, path) {
        Ok(mut file) => file.read(&mut start).is_ok() && start.starts_with(REPORT),
        Err(_) => false,
    }
}

/// The bytes of the instance document in a file. It is refused where the file can't be read, begins as a report does or is longer than
/// documents may be.
pub fn read_document(rt: HostRuntime, path: &str) -> Result<Vec<u8>, PlanRefusal> {
    let alloc = rt.alloc();
    match read_within(rt, Role::Instance, path, INSTANCE_MAX)? {
        Some(document) if document.starts_with(REPORT) => {
            Err(PlanRefusal::report_for_instance(alloc, path))
        }
        Some(document) => Ok(document),
        None if is_report(rt, path) => Err(PlanRefusal::report_for_instance(alloc, path)),
        None => Err(PlanRefusal::document(alloc, &[], &ReadRefusal::TooLong)),
    }
}

/// The folder of a file, by its path.
fn folder_of(path: &str) -> &str {
    match path.rsplit_once('/') {
        Some(("", _)) => "/",
        Some((folder, _)) => folder,
        None => ".",
    }
}

/// Says where the folder of a report isn't whole.
fn tell_unfinished(rt: HostRuntime, path: &str) -> Result<(), PlanRefusal> {
    let folder = folder_of(path);
    match is_unfinished(rt, folder) {
        Ok(true) => {
            let _ = eprintln!(rt;
                "shift_plan: note that the folder {folder} isn't whole: a run ended while it put a plan there, so the report may be of another plan than the page and the tables; the next plan or show that writes there finishes it"
            );
            Ok(())
        }
        Err(why) if why.kind() == io::ErrorKind::OutOfMemory => Err(PlanRefusal::from(AllocError)),
        _ => Ok(()),
    }
}

/// The bytes of the report in a file. It is refused where the file can't be read or is longer than reports may be. Where its folder isn't whole
/// that is said on standard error.
pub fn read_report(rt: HostRuntime, path: &str) -> Result<Vec<u8>, PlanRefusal> {
    tell_unfinished(rt, path)?;
    let limit = usize::try_from(certificate::BUNDLE_MAX).unwrap_or(usize::MAX);
    match read_within(rt, Role::Report, path, limit)? {
        Some(report) => Ok(report),
        None => Err(PlanRefusal::long_report(rt.alloc())),
    }
}

/// The most bytes that the file of a table may have.
const TABLE_MAX: usize = 1_048_576;

/// The bytes of the table in a file. It is refused where the file can't be read or is longer than tables may be.
pub fn read_table(rt: HostRuntime, path: &str) -> Result<Vec<u8>, PlanRefusal> {
    match read_within(rt, Role::Table, path, TABLE_MAX)? {
        Some(table) => Ok(table),
        None => Err(PlanRefusal::long_table(rt.alloc(), path, TABLE_MAX)),
    }
}
