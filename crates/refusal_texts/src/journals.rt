//! Sentences for people whose journal isn't opened or is full: what is wrong with it, and what to do.

ghost use Rattle.std.specs.Prelude.{◌≡◌, ◌++◌, ℕ, List, codes, IfOk, string_bytes};
ghost use Rattle.search_book.specs.OpenFaultText.{open_fault_text};
ghost use Rattle.refusal_texts.specs.Full.{full_text};

use recovery::Why;
use search_book::OpenFault;
use search_core::StepFault;
use std::alloc::{AllocError, Global};

/// What to do about a file that doesn't go on.
const ANEW: &str =
    "; name another journal, or begin this one anew: the old file is kept under another name then";

/// What to do about a journal of the first version.
const CARRIED_OVER: &str =
    "; to go on with its search, type ./run shift_migrate OLD NEW, where OLD is this file and NEW a new one, and name NEW as the journal";

/// What is wrong with a post that isn't allowed.
fn why_not_allowed(fault: &StepFault) -> &'static str {
    match fault {
        StepFault::NotLegal(_) => "a plan whose rows aren't legal",
        StepFault::WrongCost { kept: _, found: _ } =>
            "a plan that costs something else than it says",
        StepFault::NotBetter { best: _ } => "a plan that isn't cheaper than the one before it",
        StepFault::NoNode { node: _ } => "a node that the search doesn't have",
        StepFault::IsSplit { node: _ } => "a node that is split already",
        StepFault::NotOpen { floor: _, best: _ } => "a split of a node that isn't open",
        StepFault::NotLive { class: _ } => "a split by breaks that no legal duty has",
        StepFault::OutOfRange { lo: _, hi: _ } => "a split at a number out of its range",
        StepFault::NotSettled { class: _ } => "a node as settled that isn't",
        StepFault::Price(_) => "prices that are none for its node",
        StepFault::NoMemory => "something for which there was no memory",
    }
}

/// What is said of a record that is rejected.
fn rejected(alloc: Global, at_record: u64, why: &Why) -> Result<String, AllocError> {
    match why {
        Why::Codec(_) => {
            format!(in alloc;
                "the journal's record {at_record}, from 0 on, holds bytes that spell no posts, so the file was changed from outside"
            )
        }
        Why::Step { post, fault } => {
            let what = why_not_allowed(fault);
            format!(in alloc;
                "post {post} of the journal's record {at_record}, both from 0 on, is {what}, so the file was changed from outside"
            )
        }
    }
}

/// What is wrong with a journal.
fn what_is_wrong(alloc: Global, fault: &OpenFault) -> Result<String, AllocError> {
    match fault {
        OpenFault::DiskFault => {
            String::from_str(
                alloc,
                "the journal's file can't be opened, read or written: see that it is a file, that its folder is there and may be written, and that the disk has room",
            )
        }
        OpenFault::NotAJournal => {
            String::from_str(
                alloc,
                "the file is no journal of a search, or only the torn beginning of a new one, as a crash may leave; it was left as it is",
            )
        }
        OpenFault::OtherInstance { at } => {
            format!(in alloc;
                "the journal belongs to another instance: the document was changed since, and the two differ first at byte {at} of their canonical texts"
            )
        }
        OpenFault::Damaged { at } => {
            format!(in alloc;
                "the journal is damaged at its byte {at}: a record or its end is cut off"
            )
        }
        OpenFault::Rejected { at_record, why } => rejected(alloc, *at_record, why),
        OpenFault::NoMemory => String::from_str(alloc, "there was no memory to open the journal"),
        OpenFault::OldVersion => {
            String::from_str(
                alloc,
                "the journal is one of the first version, which earlier programs wrote; it was left as it is",
            )
        }
    }
}

/// What to do about a journal that isn't opened, where another one helps.
fn what_to_do(fault: &OpenFault) -> &'static str {
    match fault {
        OpenFault::DiskFault | OpenFault::NoMemory => "",
        OpenFault::OldVersion => CARRIED_OVER,
        _ => ANEW,
    }
}

/// The sentence for whoever keeps a journal that isn't opened: the refusal's number, a colon, what is wrong, and what to do.
pub fn journal_sentence(alloc: Global, fault: &OpenFault) -> Result<String, AllocError>
    ensures number { IfOk result (λ sentence. (rest : List ℕ) × (string_bytes sentence ≡ open_fault_text fault.now ++ (codes ": " ++ rest))) }
{
    let mut rest = what_is_wrong(alloc, fault)?;
    rest.push_str(what_to_do(fault))?;
    format!(in alloc; "{fault}: {rest}")
}

/// The sentence for whoever keeps a journal in which a step of the search has no room: how many bytes it would have had, how
/// many it may have, and what to do.
pub fn full_sentence(alloc: Global, end: u64, limit: u32) -> Result<String, AllocError>
    ensures { IfOk result (λ sentence. string_bytes sentence ≡ full_text end limit) }
{
    format!(in alloc;
        "the journal is full: the next step would make it {end} bytes long, and at most {limit} are allowed. It keeps all that was found; a new one can begin with its best plan"
    )
}
