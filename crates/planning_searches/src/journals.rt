//! The journal of a search, locked for its run.

ghost use Rattle.std.specs.Prelude.{◌<◌};

use crate::before::{Before, Taken, taken_from};
use instance_json::INSTANCE_MAX;
use planning_runs::{Cause, PlanRefusal};
use planning_words::{
    LockedJournal, PlanWords, document_beside, is_same_file, journal_beside, set_aside,
};
use refusal_texts::Role;
use shift_instance::Instance;
use std::alloc::{AllocError, Global};
use std::fs::{self, File};
use std::io::{self, Read};
use std::sync::Wait;
use std::thread::Threads;

/// The journal that the words name, or else the one beside the instance.
pub(crate) fn journal_of(alloc: Global, words: &PlanWords) -> Result<String, AllocError> {
    match words.journal {
        Some(journal) => String::from_str(alloc, journal),
        None => String::from_str(alloc, journal_beside(alloc, words.instance)?.as_str()),
    }
}

/// The bytes with which a journal begins.
const MARK: &[u8] = b"SHIFTJ2\n";

/// The bytes of a journal before the text of its instance: its mark, and the text's length.
const BEFORE_HEAD: usize = 12;

/// The text of the instance in a journal's file, where it can be read.
pub(crate) fn journal_head(rt: HostRuntime, path: &str) -> Result<Option<Vec<u8>>, AllocError> {
    let Ok(mut file) = File::open(&rt, path) else {
        return Ok(None);
    };
    let mut before = [0u8; BEFORE_HEAD];
    if file.read_exact(&mut before).is_err() {
        return Ok(None);
    }
    let len = u32::from_le_bytes([before[8], before[9], before[10], before[11]]) as usize;
    let mut head = vec![in rt.alloc(); 0u8; len.min(INSTANCE_MAX)]?;
    if file.read_exact(head.as_mut_slice()).is_err() {
        return Ok(None);
    }
    Ok(Some(head))
}

/// Whether a journal's file is a beginning of what stands before the first gate of a journal for the instance of this canonical text.
pub(crate) fn is_torn(rt: HostRuntime, path: &str, canonical: &[u8]) -> Result<bool, AllocError> {
    let Ok(size) = u32::try_from(canonical.len()) else {
        return Ok(false);
    };
    let mut whole = Vec::from_slice(rt.alloc(), MARK)?;
    whole.extend_from_slice(&size.to_le_bytes())?;
    whole.extend_from_slice(canonical)?;
    match fs::metadata(&rt, path) {
        Ok(found) if found.len() <= whole.len() as u64 => {}
        _ => return Ok(false),
    }
    match fs::read(&rt, path) {
        Ok(bytes) => Ok(whole.as_slice().starts_with(bytes.as_slice())),
        Err(why) if why.kind() == io::ErrorKind::OutOfMemory => Err(AllocError),
        Err(_) => Ok(false),
    }
}

/// The journal of a run, locked, and the old one in whose place it stands, which stays locked as long.
#[derive(Drop)]
pub struct Journals {
    /// The journal of the run.
    pub(crate) now: LockedJournal<HostRuntime>,
    old: Option<LockedJournal<HostRuntime>>,
    /// The best plan of the old one, where the search begins with that.
    pub before: Option<Before>,
}

/// Locks the journal of a path for this run.
fn locked(rt: HostRuntime, path: &str) -> Result<LockedJournal<HostRuntime>, PlanRefusal> {
    let alloc = rt.alloc();
    match LockedJournal::lock(rt, String::from_str(alloc, path)?) {
        Ok(journal) => Ok(journal),
        Err(why) => Err(PlanRefusal::locked(alloc, path, &why)),
    }
}

/// Whether there is something under a path that isn't empty.
fn has_bytes(rt: HostRuntime, path: &str) -> bool {
    match fs::metadata(&rt, path) {
        Ok(found) => found.len() > 0,
        Err(_) => false,
    }
}

/// The refusal of words that ask for the plan of a search that there isn't.
fn no_search(alloc: Global, path: &str) -> PlanRefusal {
    PlanRefusal::said(
        Cause::Words,
        format!(in alloc;
            "--seconds 0 writes the plan of the search that a journal holds, and `{path}` would hold none: give more seconds"
        ),
    )
}

/// Whether another document beside the instance would have the same journal or folder by its name.
fn has_namesake(rt: HostRuntime, words: &PlanWords) -> Result<bool, AllocError> {
    if words.journal.is_some() && words.out.is_some() {
        return Ok(false);
    }
    let other = document_beside(rt.alloc(), words.instance)?;
    let is_other = !is_same_file(other.as_str(), words.instance);
    Ok(is_other && has_bytes(rt, other.as_str()))
}

/// The refusal of words whose journal and folder are those of another document.
fn of_namesake(alloc: Global, words: &PlanWords) -> PlanRefusal {
    let instance = words.instance;
    PlanRefusal::said(
        Cause::Words,
        format!(in alloc;
            "`{instance}` and the document of that name with the ending .json beside it would have one journal and one folder: name others with --journal and --out"
        ),
    )
}

/// The refusal of words whose journal is the instance itself.
fn of_instance(alloc: Global, path: &str) -> PlanRefusal {
    PlanRefusal::said(
        Cause::Words,
        format!(in alloc;
            "the instance and the journal would be the same file, {path}: name another journal with --journal"
        ),
    )
}

/// The refusal of words whose journal of that path isn't to be locked, if it isn't.
fn unfit(rt: HostRuntime, words: &PlanWords, path: &str) -> Option<PlanRefusal> {
    if is_same_file(path, words.instance) {
        return Some(of_instance(rt.alloc(), path));
    }
    if words.seconds == 0 && (words.anew || !has_bytes(rt, path)) {
        return Some(no_search(rt.alloc(), path));
    }
    None
}

/// Gives the journal of a path another name, and locks a new one in its place.
fn begun_again(rt: HostRuntime, path: &str) -> Result<LockedJournal<HostRuntime>, PlanRefusal> {
    let alloc = rt.alloc();
    match set_aside(&rt, alloc, path) {
        Ok(name) => {
            let _ = eprintln!(rt; "shift_plan: begins again; the old journal is {name}");
            locked(rt, path)
        }
        Err(why) => Err(PlanRefusal::unwritten(alloc, Role::Journal, path, why.kind())),
    }
}

/// Says what a search takes from the old journal, and answers its plan where it takes one.
fn told(rt: HostRuntime, taken: Taken) -> Option<Before> {
    match taken {
        Taken::Plan(before) => {
            let _ = eprintln!(rt;
                "shift_plan: begins with the best plan of the old journal, of cost {}; its bound begins anew",
                before.cost
            );
            Some(before)
        }
        Taken::Nothing(why) => {
            let _ = eprintln!(rt; "shift_plan: takes nothing from the old journal: {why}");
            None
        }
    }
}

/// The journal of a path in the place of an old one, which gets another name. Where the words name no older plan, the old one's best plan is read
/// before.
fn renewed<R: Threads + Wait + Sync>(
    host: HostRuntime,
    rt: &R,
    words: &PlanWords,
    instance: &Instance,
    path: &str,
    old: LockedJournal<HostRuntime>,
) -> Result<Journals, PlanRefusal>
    requires some { 0 < words.now.workers }
{
    let taken = match words.like {
        None => Some(taken_from(host, rt, words, instance, &old)?),
        Some(_) => None,
    };
    let now = begun_again(host, path)?;
    let before = match taken {
        Some(taken) => told(host, taken),
        None => None,
    };
    Ok(Journals {
        now,
        old: Some(old),
        before,
    })
}

/// The journal of a path, locked for this run. Where the words ask to begin again, the old one gets another name first.
fn locked_at<R: Threads + Wait + Sync>(
    host: HostRuntime,
    rt: &R,
    words: &PlanWords,
    instance: &Instance,
    path: &str,
) -> Result<Journals, PlanRefusal>
    requires some { 0 < words.now.workers }
{
    if let Some(why) = unfit(host, words, path) {
        return Err(why);
    }
    let now = locked(host, path)?;
    if words.anew && now.len().unwrap_or(0) != 0 {
        return renewed(host, rt, words, instance, path, now);
    }
    Ok(Journals {
        now,
        old: None,
        before: None,
    })
}

/// The journal that the words name, locked for this run. Where they ask to begin again, the old one gets another name first, and a search of the
/// instance begins with the best plan that it holds, unless the words name an older plan.
pub fn locked_journal<R: Threads + Wait + Sync>(
    host: HostRuntime,
    rt: &R,
    words: &PlanWords,
    instance: &Instance,
) -> Result<Journals, PlanRefusal>
    requires some { 0 < words.now.workers }
{
    if has_namesake(host, words)? {
        return Err(of_namesake(host.alloc(), words));
    }
    let path = journal_of(host.alloc(), words)?;
    locked_at(host, rt, words, instance, path.as_str())
}
