//! How a run of the checker ends.

ghost use Rattle.std.specs.Prelude.{◌≡◌};
ghost use Rattle.check_runs.specs.Status.{status_number};

use instance_json::ReadRefusal;

/// Why a report can't be judged.
#[derive(Clone, Copy, PartialEq, Eq, Drop)]
pub enum BundleFault {
    /// It has more than `BUNDLE_MAX` bytes.
    TooLong,
    /// It isn't a report. `line` is the first line, counted from 1, that no report has after the lines before it.
    Text { line: u64 },
}

/// How a run of `shift_check` ends.
#[derive(Drop)]
pub enum CheckStatus {
    /// The command accepts the report, and the line that says so was written.
    Accepted,
    /// The command doesn't accept the report, and the line that says why was written.
    Refused,
    /// The words aren't `check INSTANCE REPORT` or `recount INSTANCE REPORT`, with files that aren't empty and don't begin with `-`.
    Usage,
    /// The instance document is refused. Never holds `NoMemory`.
    Input(ReadRefusal),
    /// The report can't be judged.
    Bundle(BundleFault),
    /// A read of the document or of the report failed.
    ReadFault,
    /// A write of the line failed. What was written is the beginning of the line.
    WriteFault,
    /// There was no memory.
    NoMemory,
}

impl CheckStatus {
    /// The number with which the program ends.
    pub fn number(&self) -> u8
        ensures { result ≡ status_number self.now }
    {
        match self {
            CheckStatus::Accepted => 0,
            CheckStatus::Refused => 1,
            CheckStatus::Usage => 2,
            CheckStatus::Input(_) => 3,
            CheckStatus::Bundle(_) => 4,
            CheckStatus::ReadFault => 5,
            CheckStatus::WriteFault => 6,
            CheckStatus::NoMemory => 8,
        }
    }
}
