//! The report that a source gives up.
ghost use Rattle.std.specs.Prelude.{◌≤◌, ◌^◌, IfErr, IfOk, length};
ghost use Rattle.check_runs.specs.Check.{IsReportOf};
ghost use Rattle.join_runs.specs.Reading.{ReportUnread};

use certificate::{BUNDLE_MAX, Cert, CertText, read};
use check_runs::BundleFault;
use plan_base::{ReadEnd, Source, read_all};
use std::alloc::Global;

/// Why no report came of a source.
#[derive(Clone, Copy, Drop)]
pub(crate) enum Unreported {
    /// It gave up something else.
    Bundle(BundleFault),
    /// A read failed.
    ReadFault,
    /// There was no memory.
    NoMemory,
}

/// The certificate of the report that a source gives up to its end, or why there is none.
pub(crate) fn read_report<T: Source>(alloc: Global, bundle: &mut T) -> Result<Cert, Unreported>
    ensures ok { IfOk result (IsReportOf (T.left bundle.old)) }
    ensures few { IfOk result (λ whole. length whole.lines ≤ 2 ^ 28) }
    ensures err { IfErr result (ReportUnread (T.left bundle.old) (T.faults bundle.old) (T.faults bundle.new)) }
{
    let bytes = match read_all(alloc, bundle, BUNDLE_MAX as usize) {
        Ok(bytes) => bytes,
        Err(ReadEnd::ReadFault) => return Err(Unreported::ReadFault),
        Err(ReadEnd::TooLong) => return Err(Unreported::Bundle(BundleFault::TooLong)),
        Err(ReadEnd::NoMemory) => return Err(Unreported::NoMemory),
    };
    match read(alloc, bytes.as_slice()) {
        Ok(cert) => Ok(cert),
        Err(CertText::Departs { line }) => Err(Unreported::Bundle(BundleFault::Text { line })),
        Err(CertText::NoMemory) => Err(Unreported::NoMemory),
    }
}
