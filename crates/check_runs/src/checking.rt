//! The run of `shift_check`.

ghost use Rattle.std.specs.Prelude.{◌≡◌, map, string_bytes, IfOk, IfErr};
ghost use Rattle.check_runs.specs.Check.{EndsOver, Explains, IsReportOf, ReportUnread, Told};
ghost use Rattle.check_runs.specs.Status.{EndsEarly, EndsUnwritten};

use crate::status::{BundleFault, CheckStatus};
use crate::verdict::{Verdict, judge};
use crate::words::{Command, request_of};
use certificate::{BUNDLE_MAX, Cert, CertText, read};
use instance_input::{Unread, read_instance};
use plan_base::{Failed, ReadEnd, Sink, Source, read_all, write_all};
use shift_instance::Instance;
use std::alloc::Global;

/// The certificate of the report that a source gives up to its end, or how the run ends.
fn read_report<T: Source>(alloc: Global, bundle: &mut T) -> Result<Cert, CheckStatus>
    ensures ok { IfOk result (IsReportOf (T.left bundle.old)) }
    ensures err { IfErr result (ReportUnread (T.left bundle.old) (T.faults bundle.old) (T.faults bundle.new)) }
{
    let bytes = match read_all(alloc, bundle, BUNDLE_MAX as usize) {
        Ok(bytes) => bytes,
        Err(ReadEnd::ReadFault) => return Err(CheckStatus::ReadFault),
        Err(ReadEnd::TooLong) => return Err(CheckStatus::Bundle(BundleFault::TooLong)),
        Err(ReadEnd::NoMemory) => return Err(CheckStatus::NoMemory),
    };
    match read(alloc, bytes.as_slice()) {
        Ok(cert) => Ok(cert),
        Err(CertText::Departs { line }) => Err(CheckStatus::Bundle(BundleFault::Text { line })),
        Err(CertText::NoMemory) => Err(CheckStatus::NoMemory),
    }
}

/// Writes the line of a verdict, and says how the run ends.
fn tell<K: Sink>(out: &mut K, verdict: &Verdict) -> CheckStatus
    ensures { Told (string_bytes verdict.now.line) verdict.now.accepted (K.held out.old) (K.held out.new) (K.faults out.old, K.faults out.new) result }
{
    match write_all(out, verdict.line.as_bytes()) {
        Err(Failed) => CheckStatus::WriteFault,
        Ok(()) if verdict.accepted => CheckStatus::Accepted,
        Ok(()) => CheckStatus::Refused,
    }
}

/// Reads the report, judges it for the instance as the command does, and writes what comes of it.
fn judge_report<T: Source, K: Sink>(
    alloc: Global,
    command: Command,
    instance: &Instance,
    bundle: &mut T,
    out: &mut K,
) -> CheckStatus
    ensures status { EndsOver command instance.now
        (record { left = T.left bundle.old; faults = (T.faults bundle.old, T.faults bundle.new) })
        (record { held = K.held out.old; held_after = K.held out.new; faults = (K.faults out.old, K.faults out.new) })
        result }
    ensures unwritten { EndsUnwritten result → out.new ≡ out.old }
{
    let cert = match read_report(alloc, bundle) {
        Ok(cert) => cert,
        Err(status) => return status,
    };
    match judge(alloc, command, instance, &cert) {
        Ok(verdict) => tell(out, &verdict),
        Err(_) => CheckStatus::NoMemory,
    }
}

/// The run of `check INSTANCE REPORT` or `recount INSTANCE REPORT`: reads the instance document and then the report to their
/// ends, judges the report as the command does, and writes one line to `out`.
///
/// `check` judges the certificate by `cert_check::check`. Its line is `accepted cost C bound L`, with the cost that the report
/// claims, `-` where it has no plan, and the bound that it claims; then every legal rota of the instance costs at least L, and
/// the rows of the report, where it has a plan, are legal and cost C. Or it is `refused K` with the numbers of the first cause:
/// `refused 1 LINE` for a bad split, `refused 2 LINE` for bad prices, `refused 3 LINE` for a node that isn't settled, LINE being
/// the proof line, from 1 on; `refused 4 CLAIMED FOUND` for a bound above the one that the proof lines find; `refused 5 ROW` for
/// the first bad row, from 0 on; and `refused 6 CLAIMED FOUND` for rows that cost FOUND.
///
/// `recount` judges the rows alone and counts their cost again by the definition, whatever the report claims. Its line is
/// `cost C`, `cost -` for a report without rows, or `refused 5 ROW`.
///
/// The status is `Accepted` or `Refused` where that line was written; `Usage` where the words aren't such a command; `Input`
/// where the document is refused; `Bundle` where the report has more than `BUNDLE_MAX` bytes or isn't in the grammar of reports;
/// `ReadFault` and `WriteFault` only where a fault of a source or of the sink was counted. `NoMemory` may come at any step after
/// the words. Nothing is written before the verdict, and the report isn't read before the document.
pub fn check_run<S: Source, T: Source, K: Sink>(
    alloc: Global,
    words: &[String],
    instance: &mut S,
    bundle: &mut T,
    out: &mut K,
) -> CheckStatus
    ensures status { Explains
        (record {
          words = map string_bytes words.now;
          document = record { left = S.left instance.old; faults = (S.faults instance.old, S.faults instance.new) };
          report = record { left = T.left bundle.old; faults = (T.faults bundle.old, T.faults bundle.new) };
          sink = record { held = K.held out.old; held_after = K.held out.new; faults = (K.faults out.old, K.faults out.new) };
        })
        result }
    ensures unread { result ≡ CheckStatus.Usage → instance.new ≡ instance.old }
    ensures untouched { EndsEarly result → bundle.new ≡ bundle.old }
    ensures unwritten { EndsUnwritten result → out.new ≡ out.old }
{
    let command = match request_of(words) {
        Some(request) => request.command,
        None => return CheckStatus::Usage,
    };
    match read_instance(alloc, instance) {
        Ok(instance) => judge_report(alloc, command, &instance, bundle, out),
        Err(Unread::Refused(why)) => CheckStatus::Input(why),
        Err(Unread::ReadFault) => CheckStatus::ReadFault,
        Err(Unread::NoMemory) => CheckStatus::NoMemory,
    }
}
