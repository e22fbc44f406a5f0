//! Why there is no plan, and the sentence that says so.

ghost use Rattle.std.specs.Prelude.{◌≡◌, MatchOption, MatchResult, None, Some};
ghost use Rattle.planning_runs.specs.declared.refusal.Cause.{Cause};
ghost use Rattle.planning_runs.specs.declared.refusal.Cause.TheVariants.{Document, NoMemory, Report, System, Unread, Unwritten};
ghost use Rattle.std_io.specs.declared.io.kind.ErrorKind.TheVariants.{OutOfMemory};
ghost use Rattle.planning_runs.specs.Causes.{IsFor, cause_of, end_cause, number_of};

use crate::judging::Unshown;
use cert_check::Refused;
use certificate::{BUNDLE_MAX, CertText};
use instance_json::ReadRefusal;
use instance_tables::ImportRefusal;
use planning_words::LockFault;
use refusal_texts::{Role, document_sentence, file_sentence, journal_sentence};
use search_book::OpenFault;
use solve_runs::SearchEnd;
use std::alloc::{AllocError, AllocFailed, Global};
use std::marker::Model;
use std::{fmt, io};

/// What kind of thing stands against a plan.
#[derive(Clone, Copy, PartialEq, Eq)]
pub enum Cause {
    /// The report isn't accepted.
    Refused,
    /// The words of the command line can't be met.
    Words,
    /// The instance document is refused.
    Document,
    /// The report's file is no report.
    Report,
    /// A file can't be read.
    Unread,
    /// A file of the plan can't be written.
    Unwritten,
    /// The journal's file can't be used now, or the clock gives no time.
    System,
    /// There is no memory.
    NoMemory,
    /// The journal's file isn't one of this search.
    Journal,
}

impl Cause {
    /// The number with which the program ends.
    pub fn number(self) -> u8
        ensures { result ≡ number_of self }
    {
        match self {
            Cause::Refused => 1,
            Cause::Words => 2,
            Cause::Document => 3,
            Cause::Report => 4,
            Cause::Unread => 5,
            Cause::Unwritten => 6,
            Cause::System => 7,
            Cause::NoMemory => 8,
            Cause::Journal => 9,
        }
    }
}

/// Why there is no plan: a cause, with the sentence that says so.
#[derive(Drop)]
pub struct PlanRefusal {
    cause: Cause,
    /// The sentence that says why; none where there was no memory for one.
    sentence: Option<String>,
}

impl Model for PlanRefusal {
    ghost use Rattle.planning_runs.specs.declared.refusal.Cause.{Cause};

    ghost Value = { Cause };

    ghost view = { λ r. r.cause };
}

impl From<AllocError> for PlanRefusal {
    ghost from_gives = { λ _ refusal. refusal ≡ NoMemory };

    fn from(_: AllocError) -> PlanRefusal {
        PlanRefusal {
            cause: Cause::NoMemory,
            sentence: None,
        }
    }
}

impl<T: Drop> From<AllocFailed<T>> for PlanRefusal {
    ghost from_gives = { λ _ refusal. refusal ≡ NoMemory };

    fn from(_: AllocFailed<T>) -> PlanRefusal {
        PlanRefusal::from(AllocError)
    }
}

impl fmt::Display for PlanRefusal {
    fn fmt<W: fmt::Write>(&self, f: &mut fmt::Formatter<W>) -> fmt::Result {
        match &self.sentence {
            Some(sentence) => f.write_str(sentence.as_str()),
            None => f.write_str("there is not enough memory"),
        }
    }
}

impl PlanRefusal {
    /// A refusal for a cause, with its sentence if there was memory for it.
    pub fn said(cause: Cause, sentence: Result<String, AllocError>) -> PlanRefusal
        ensures { MatchResult sentence (λ _. result ≡ cause) (λ _. result ≡ NoMemory) }
    {
        match sentence {
            Ok(sentence) => PlanRefusal {
                cause,
                sentence: Some(sentence),
            },
            Err(why) => PlanRefusal::from(why),
        }
    }

    /// The same refusal, said of a report that was to be read for an instance.
    pub fn about_report(self, alloc: Global, report: &str, instance: &str) -> PlanRefusal
        ensures { IsFor self result }
    {
        let sentence = format!(in alloc;
            "of the report `{report}` and its instance `{instance}`: {self}"
        );
        PlanRefusal::said(self.cause, sentence)
    }

    /// The number with which the program ends.
    pub fn number(&self) -> u8
        ensures { result ≡ number_of self.now }
    {
        self.cause.number()
    }

    /// The refusal for a file on which a call failed.
    fn of_file(
        cause: Cause,
        alloc: Global,
        role: Role,
        path: &str,
        kind: io::ErrorKind,
    ) -> PlanRefusal
        ensures cause { IsFor cause result }
        ensures memory { kind ≡ OutOfMemory → result ≡ NoMemory }
    {
        match kind {
            io::ErrorKind::OutOfMemory => PlanRefusal::from(AllocError),
            _ => PlanRefusal::said(cause, file_sentence(alloc, role, path, kind)),
        }
    }

    /// A file can't be read. Where the call on it failed for want of memory, that is the cause.
    pub fn unread(alloc: Global, role: Role, path: &str, kind: io::ErrorKind) -> PlanRefusal
        ensures cause { IsFor Unread result }
        ensures memory { kind ≡ OutOfMemory → result ≡ NoMemory }
    {
        PlanRefusal::of_file(Cause::Unread, alloc, role, path, kind)
    }

    /// A file or the folder of the plan can't be written. Where the call on it failed for want of memory, that is the cause.
    pub fn unwritten(alloc: Global, role: Role, path: &str, kind: io::ErrorKind) -> PlanRefusal
        ensures cause { IsFor Unwritten result }
        ensures memory { kind ≡ OutOfMemory → result ≡ NoMemory }
    {
        PlanRefusal::of_file(Cause::Unwritten, alloc, role, path, kind)
    }

    /// The instance document is refused.
    pub fn document(alloc: Global, document: &[u8], why: &ReadRefusal) -> PlanRefusal
        ensures { IsFor Document result }
    {
        match why {
            ReadRefusal::NoMemory => PlanRefusal::from(AllocError),
            _ => PlanRefusal::said(Cause::Document, document_sentence(alloc, document, why)),
        }
    }

    /// The file that is named as the instance is a report.
    pub fn report_for_instance(alloc: Global, path: &str) -> PlanRefusal
        ensures { IsFor Document result }
    {
        PlanRefusal::said(
            Cause::Document,
            format!(in alloc;
                "the instance `{path}` is a report: the instance comes first, as in show INSTANCE REPORT"
            ),
        )
    }

    /// The report's file is longer than reports may be.
    pub fn long_report(alloc: Global) -> PlanRefusal
        ensures { IsFor Report result }
    {
        PlanRefusal::said(
            Cause::Report,
            format!(in alloc;
                "the report has more than {BUNDLE_MAX} bytes, the most that a report may have"
            ),
        )
    }

    /// A table is longer than tables may be.
    pub fn long_table(alloc: Global, path: &str, most: usize) -> PlanRefusal
        ensures { IsFor Document result }
    {
        PlanRefusal::said(
            Cause::Document,
            format!(in alloc;
                "the table `{path}` has more than {most} bytes, the most that a table may have"
            ),
        )
    }

    /// Tables are refused, with a sentence that says why.
    pub fn tables(alloc: Global, why: &ImportRefusal) -> PlanRefusal
        ensures { IsFor Document result }
    {
        match why {
            ImportRefusal::NoMemory => PlanRefusal::from(AllocError),
            ImportRefusal::Table(why) => PlanRefusal::said(
                Cause::Document,
                format!(in alloc; "{why}"),
            ),
        }
    }

    /// A report shows no plan for the instance of a document.
    pub fn unshown(alloc: Global, document: &[u8], why: &Unshown) -> PlanRefusal
        ensures { IsFor (cause_of why.now) result }
    {
        match why {
            Unshown::Document(why) => PlanRefusal::document(alloc, document, why),
            Unshown::Report(CertText::Departs { line }) => PlanRefusal::said(
                Cause::Report,
                format!(in alloc;
                    "the report's line {line}, counted from 1, is none that could stand there: the file is no report, or was cut off or changed"
                ),
            ),
            Unshown::Report(CertText::NoMemory) => PlanRefusal::from(AllocError),
            Unshown::Refused(why) => PlanRefusal::said(
                Cause::Refused,
                refused_sentence(alloc, why),
            ),
        }
    }

    /// The journal isn't this run's.
    pub fn locked(alloc: Global, path: &str, why: &LockFault) -> PlanRefusal
        ensures { IsFor System result }
    {
        let sentence = match why {
            LockFault::InUse => format!(in alloc;
                "another run has the journal `{path}`: wait until it ends, or name another one with --journal"
            ),
            LockFault::Unopened(why) => {
                return PlanRefusal::of_file(Cause::System, alloc, Role::Journal, path, why.kind());
            }
            LockFault::Unlocked(why) => format!(in alloc;
                "the journal `{path}` can't be locked where it is ({why}): name one on another disk with --journal"
            ),
        };
        PlanRefusal::said(Cause::System, sentence)
    }

    /// Why a search that ended so didn't go on to the end of its time, and `None` where it wasn't cut off.
    pub fn of_end(alloc: Global, end: &SearchEnd) -> Option<PlanRefusal>
        ensures { MatchOption result (end_cause end.now ≡ None) (λ refusal. (cause : Cause) × (end_cause end.now ≡ Some cause) × IsFor cause refusal) }
    {
        match end {
            SearchEnd::Finished | SearchEnd::Spent | SearchEnd::Full { .. } | SearchEnd::Stopped =>
                None,
            SearchEnd::Refused(why) => {
                Some(PlanRefusal::said(Cause::Journal, unopened_sentence(alloc, why)))
            }
            SearchEnd::DiskFault => Some(PlanRefusal::said(Cause::System, disk_sentence(alloc))),
            SearchEnd::TooFewAdvisers { asked, have } => Some(PlanRefusal::said(
                Cause::Words,
                format!(in alloc; "{asked} workers are asked for, and at most {have} can search"),
            )),
            SearchEnd::NoMemory => Some(PlanRefusal::from(AllocError)),
        }
    }
}

/// The sentence for a journal that isn't opened, with the options that help.
fn unopened_sentence(alloc: Global, why: &OpenFault) -> Result<String, AllocError> {
    let sentence = journal_sentence(alloc, why)?;
    match why {
        OpenFault::DiskFault | OpenFault::NoMemory => Ok(sentence),
        _ => format!(in alloc;
            "{} (--journal FILE names another one, --anew begins anew)",
            sentence.as_str()
        ),
    }
}

/// The sentence for a journal whose file failed in a search.
fn disk_sentence(alloc: Global) -> Result<String, AllocError> {
    String::from_str(
        alloc,
        "the journal's file can't be read or written: see that its disk has room; every step that it kept is kept",
    )
}

/// The sentence for a report that isn't accepted.
fn refused_sentence(alloc: Global, why: &Refused) -> Result<String, AllocError> {
    match why {
        Refused::BadSplit { line } => format!(in alloc;
            "the report isn't accepted: its proof line {line}, counted from 1, splits no node that can be split so"
        ),
        Refused::BadPrice { line } => format!(in alloc;
            "the report isn't accepted: the prices of its proof line {line}, counted from 1, give no bound"
        ),
        Refused::NotSettled { line } => format!(in alloc;
            "the report isn't accepted: the node of its proof line {line}, counted from 1, isn't settled"
        ),
        Refused::BoundTooHigh { claimed, found } => format!(in alloc;
            "the report isn't accepted: it claims that no legal plan costs less than {claimed}, and its proof gives {found}; was the document changed since?"
        ),
        Refused::BadPlan { row } => format!(in alloc;
            "the report isn't accepted: row {row} of its plan, counted from 0, isn't legal; was the document changed since?"
        ),
        Refused::WrongCost { claimed, found } => format!(in alloc;
            "the report isn't accepted: it claims the cost {claimed}, and its plan costs {found}; was the document changed since?"
        ),
        Refused::NoMemory => Err(AllocError),
    }
}
