//! How a run of `graft_run join` ends.
ghost use Rattle.std.specs.Prelude.{◌≡◌};
ghost use Rattle.join_runs.specs.Status.{status_number};

use cert_check::Refused;
use check_runs::BundleFault;
use instance_json::ReadRefusal;
use report_joins::PartFault;

/// Why a file isn't joined as a part.
#[derive(Clone, Copy, Drop)]
pub enum PartCause {
    /// It has more than `BUNDLE_MAX` bytes, or it isn't a report.
    NoReport(BundleFault),
    /// It isn't a part of the report. Never holds `NoMemory`.
    Fault(PartFault),
}

/// How a run of `graft_run join` ends.
#[derive(Drop)]
pub enum JoinStatus {
    /// The report with its parts was written.
    Written,
    /// The checker refuses the report, and the line that says why was written. Never holds `NoMemory`.
    Refused(Refused),
    /// A file isn't such a part, by its number among the parts from 1 on, and the line that says why was written.
    NoPart { part: u64, cause: PartCause },
    /// The words aren't `join INSTANCE REPORT PART..`, with at least one part, and files that aren't empty and don't begin with `-`.
    Usage,
    /// The instance document is refused. Never holds `NoMemory`.
    Input(ReadRefusal),
    /// The report can't be judged.
    Bundle(BundleFault),
    /// A read of the document, of the report or of a part failed.
    ReadFault,
    /// A write failed. What was written is the beginning of what was to be written.
    WriteFault,
    /// There was no memory.
    NoMemory,
}

impl JoinStatus {
    /// The number with which the program ends.
    pub fn number(&self) -> u8
        ensures { result ≡ status_number self.now }
    {
        match self {
            JoinStatus::Written => 0,
            JoinStatus::Refused(_) => 1,
            JoinStatus::NoPart { part: _, cause: _ } => 1,
            JoinStatus::Usage => 2,
            JoinStatus::Input(_) => 3,
            JoinStatus::Bundle(_) => 4,
            JoinStatus::ReadFault => 5,
            JoinStatus::WriteFault => 6,
            JoinStatus::NoMemory => 8,
        }
    }
}
