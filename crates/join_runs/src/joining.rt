//! The run of `graft_run join`.
ghost use Rattle.std.specs.Prelude.{◌≡◌, ◌⊎◌, ◌<◌, ◌≤◌, ◌^◌, IfErr, IfOk, length, map, string_bytes};
ghost use Rattle.join_runs.specs.Complete.{CanJoin};
ghost use Rattle.join_runs.specs.Running.{IsUnjoined, Told};
ghost use Rattle.join_runs.specs.Runs.{EndsOver, EndsWith, Explains, IsJoinedText};
ghost use Rattle.join_runs.specs.Status.{EndsBeforeParts, EndsEarly, EndsUnwritten};

use crate::parts::joined_cert;
use crate::reading::{Unreported, read_report};
use crate::refusals::{part_line, refused_line};
use crate::status::JoinStatus;
use crate::words::join_of;
use certificate::Cert;
use instance_input::{Unread, read_instance};
use plan_base::{Failed, Sink, Source, write_all};
use rota_writer::report;
use shift_instance::Instance;
use std::alloc::Global;

/// The text of a report with all parts that sources give up.
fn joined_text<P: Source>(
    alloc: Global,
    instance: &Instance,
    whole: Cert,
    parts: &mut [P],
) -> Result<Vec<u8>, JoinStatus>
    requires few { length whole.lines ≤ 2 ^ 28 }
    ensures text { IfOk result (λ text. IsJoinedText instance.now whole (map P.left parts.old) text.items) }
    ensures status { IfErr result (IsUnjoined instance.now whole (record { left = map P.left parts.old; faults = (map P.faults parts.old, map P.faults parts.new) })) }
    ensures untouched { IfErr result (λ status. EndsBeforeParts status → parts.new ≡ parts.old) }
{
    let cert = joined_cert(alloc, instance, whole, parts)?;
    match report(alloc, &cert) {
        Ok(text) => Ok(text),
        Err(_) => Err(JoinStatus::NoMemory),
    }
}

/// Writes bytes, and says how the run ends: in this way where they were written.
fn tell<K: Sink>(out: &mut K, bytes: &[u8], written: JoinStatus) -> JoinStatus
    ensures { Told bytes.now written (K.held out.old, K.held out.new) (K.faults out.old, K.faults out.new) result }
{
    match write_all(out, bytes) {
        Err(Failed) => JoinStatus::WriteFault,
        Ok(()) => written,
    }
}

/// Joins the parts that sources give up into a report, and writes what comes of it.
fn run_over<P: Source, K: Sink>(
    alloc: Global,
    instance: &Instance,
    whole: Cert,
    parts: &mut [P],
    out: &mut K,
) -> JoinStatus
    requires few { length whole.lines ≤ 2 ^ 28 }
    ensures status { EndsWith instance.now whole
        (record { left = map P.left parts.old; faults = (map P.faults parts.old, map P.faults parts.new) })
        (record { held = K.held out.old; held_after = K.held out.new; faults = (K.faults out.old, K.faults out.new) })
        result }
    ensures parts_untouched { EndsBeforeParts result → parts.new ≡ parts.old }
    ensures unwritten { EndsUnwritten result → out.new ≡ out.old }
{
    match joined_text(alloc, instance, whole, parts) {
        Ok(text) => tell(out, text.as_slice(), JoinStatus::Written),
        Err(JoinStatus::Refused(why)) => match refused_line(alloc, why) {
            Ok(line) => tell(out, line.as_bytes(), JoinStatus::Refused(why)),
            Err(_) => JoinStatus::NoMemory,
        },
        Err(JoinStatus::NoPart { part, cause }) => match part_line(alloc, part, cause) {
            Ok(line) => tell(out, line.as_bytes(), JoinStatus::NoPart { part, cause }),
            Err(_) => JoinStatus::NoMemory,
        },
        Err(JoinStatus::ReadFault) => JoinStatus::ReadFault,
        Err(_) => JoinStatus::NoMemory,
    }
}

/// Reads the report, joins the parts into it, and writes what comes of it.
fn run_report<T: Source, P: Source, K: Sink>(
    alloc: Global,
    instance: &Instance,
    bundle: &mut T,
    parts: &mut [P],
    out: &mut K,
) -> JoinStatus
    ensures status { EndsOver instance.now
        (record { left = T.left bundle.old; faults = (T.faults bundle.old, T.faults bundle.new) })
        (record { left = map P.left parts.old; faults = (map P.faults parts.old, map P.faults parts.new) })
        (record { held = K.held out.old; held_after = K.held out.new; faults = (K.faults out.old, K.faults out.new) })
        result }
    ensures parts_untouched { EndsBeforeParts result → parts.new ≡ parts.old }
    ensures unwritten { EndsUnwritten result → out.new ≡ out.old }
{
    match read_report(alloc, bundle) {
        Ok(whole) => run_over(alloc, instance, whole, parts, out),
        Err(Unreported::Bundle(why)) => JoinStatus::Bundle(why),
        Err(Unreported::ReadFault) => JoinStatus::ReadFault,
        Err(Unreported::NoMemory) => JoinStatus::NoMemory,
    }
}

/// The run of `join INSTANCE REPORT PART..`: reads the instance document, the report and then the parts, each to its end, and writes to
/// `out` the report into which the parts are joined.
///
/// A part is a report that goes on from the report below one of its nodes, as a search below that node writes it. The proof lines by which
/// each goes on are grafted into the report, one part after another. The checker accepts the report that is written, its bound is at least
/// that of the report that was read, and its plan is the cheapest of all.
///
/// The status is `Written`; or `Refused` where the checker refuses the report, and the line `graft refused 1` with its numbers was written;
/// or `NoPart` where a file isn't a part, and the line `join refused PART K` with its numbers was written: PART is its number among the
/// parts. The parts behind it aren't read. `Usage`, `Input`, `Bundle`, `ReadFault`, `WriteFault` and `NoMemory` come as in a run of
/// `shift_check`, `ReadFault` also where a read of a part failed.
#[tactic(auto, using(crate::proofs::Endings::explained, crate::proofs::Endings::has_command, crate::proofs::Endings::no_command))]
pub fn join_top<S: Source, T: Source, P: Source, K: Sink>(
    alloc: Global,
    words: &[String],
    instance: &mut S,
    bundle: &mut T,
    parts: &mut [P],
    out: &mut K,
) -> JoinStatus
    ensures status { Explains
        (record {
          words = map string_bytes words.now;
          document = record { left = S.left instance.old; faults = (S.faults instance.old, S.faults instance.new) };
          report = record { left = T.left bundle.old; faults = (T.faults bundle.old, T.faults bundle.new) };
          parts = record { left = map P.left parts.old; faults = (map P.faults parts.old, map P.faults parts.new) };
          sink = record { held = K.held out.old; held_after = K.held out.new; faults = (K.faults out.old, K.faults out.new) };
        })
        result }
    // What can be joined is written.
    ensures complete { CanJoin
        (record {
          words = map string_bytes words.now;
          document = record { left = S.left instance.old; faults = (S.faults instance.old, S.faults instance.new) };
          report = record { left = T.left bundle.old; faults = (T.faults bundle.old, T.faults bundle.new) };
          parts = record { left = map P.left parts.old; faults = (map P.faults parts.old, map P.faults parts.new) };
          sink = record { held = K.held out.old; held_after = K.held out.new; faults = (K.faults out.old, K.faults out.new) };
        })
        → (result ≡ JoinStatus.Written) ⊎ (result ≡ JoinStatus.NoMemory) }
    ensures unread { result ≡ JoinStatus.Usage → instance.new ≡ instance.old }
    ensures untouched { EndsEarly result → bundle.new ≡ bundle.old }
    ensures parts_untouched { EndsBeforeParts result → parts.new ≡ parts.old }
    ensures unwritten { EndsUnwritten result → out.new ≡ out.old }
{
    if join_of(words).is_none() {
        return JoinStatus::Usage;
    }
    match read_instance(alloc, instance) {
        Ok(instance) => run_report(alloc, &instance, bundle, parts, out),
        Err(Unread::Refused(why)) => JoinStatus::Input(why),
        Err(Unread::ReadFault) => JoinStatus::ReadFault,
        Err(Unread::NoMemory) => JoinStatus::NoMemory,
    }
}
