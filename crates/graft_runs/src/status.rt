//! How a run of `graft_run` ends.
ghost use Rattle.std.specs.Prelude.{◌≡◌};
ghost use Rattle.graft_runs.specs.Status.{status_number};

use check_runs::BundleFault;
use instance_json::ReadRefusal;
use report_grafts::GraftFault;

/// How a run of `graft_run` ends.
#[derive(Drop)]
pub enum GraftStatus {
    /// What was asked for was written.
    Written,
    /// There is nothing to write, and the line that says why was written. Never holds `NoMemory`.
    Refused(GraftFault),
    /// The words aren't `below INSTANCE REPORT NODE STEPS`, with `--thorough` behind it or not, `below INSTANCE REPORT NODE --seconds T
    /// --thorough`, `breaks INSTANCE REPORT STEPS` or `nodes INSTANCE REPORT N`, with files that aren't empty and don't begin with `-`,
    /// and numbers of one to ten digits: a node below 2^32, and at most 1,000,000,000 steps, seconds or nodes.
    Usage,
    /// The instance document is refused. Never holds `NoMemory`.
    Input(ReadRefusal),
    /// The report can't be judged.
    Bundle(BundleFault),
    /// A read of the document or of the report failed.
    ReadFault,
    /// A write failed. What was written is the beginning of what was to be written.
    WriteFault,
    /// There was no memory.
    NoMemory,
}

impl GraftStatus {
    /// The number with which the program ends.
    pub fn number(&self) -> u8
        ensures { result ≡ status_number self.now }
    {
        match self {
            GraftStatus::Written => 0,
            GraftStatus::Refused(_) => 1,
            GraftStatus::Usage => 2,
            GraftStatus::Input(_) => 3,
            GraftStatus::Bundle(_) => 4,
            GraftStatus::ReadFault => 5,
            GraftStatus::WriteFault => 6,
            GraftStatus::NoMemory => 8,
        }
    }
}
