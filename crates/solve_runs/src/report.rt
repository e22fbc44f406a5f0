//! What a run writes of its book.

ghost use Rattle.std.specs.Prelude.{◌≡◌, ◌++◌, IsTrue, IfErr, IfOk, OnOk};
ghost use Rattle.certificate.specs.Accepted.{is_accepted};
ghost use Rattle.certificate.specs.Departing.{Spells};
ghost use Rattle.certificate.specs.Text.{Agrees};
ghost use Rattle.shift_instance.specs.Valid.{IsValid};
ghost use Rattle.solve_runs.specs.Report.{cert_of, output_of, status_of_book};
ghost use Rattle.solve_runs.specs.Status.{EndsUnwritten};
ghost use Rattle.solve_runs.specs.Streams.{sink_of};
ghost use Rattle.solve_runs.specs.Writing.{IsReported, Unwritten};

use crate::status::Status;
use break_rules::NoMemory;
use certificate::{Cert, CertStatus, of_history};
use plan_base::{Disk, Failed, Sink, write_all};
use rota_writer::{report, table};
use search_book::Book;
use shift_instance::Instance;
use std::alloc::Global;

/// What is said of a book.
fn status_of<D: Disk>(book: &Book<D>) -> CertStatus
    ensures { result ≡ status_of_book book.now.log.book }
{
    if book.finished() {
        CertStatus::Optimal
    } else {
        CertStatus::Stopped
    }
}

/// The certificate of a book, which is accepted: its best plan, its bound, and a proof line for each post that is no plan. `NoMemory` is
/// the only refusal.
pub fn cert_of<D: Disk>(alloc: Global, book: &Book<D>) -> Result<Cert, NoMemory>
    ensures is { IfOk result (λ cert. cert ≡ cert_of book.now.log.history book.now.log.book) }
    ensures agrees { IfOk result (λ cert. IsValid book.now.log.instance → Agrees cert) }
    ensures accepted { IfOk result (λ cert. IsValid book.now.log.instance → IsTrue (is_accepted book.now.log.instance cert)) }
{
    let posts = book.history();
    let cert = of_history(
        alloc,
        posts,
        status_of(book),
        book.best(),
        book.best_cost(),
        book.floor(),
    )?;
    Ok(cert)
}

/// The report of a book of the instance, with the table of its plan where that is asked for: a text of the book's certificate, which is
/// accepted.
pub fn report_of<D: Disk>(
    alloc: Global,
    instance: &Instance,
    book: &Book<D>,
    with_table: bool,
) -> Result<Vec<u8>, NoMemory>
    requires same { book.now.log.instance ≡ instance.now }
    ensures text { IfOk result (λ bytes. bytes.items ≡ output_of instance.now with_table book.now.log.history book.now.log.book) }
    ensures reads { IfOk result (λ bytes. Spells bytes.items (cert_of book.now.log.history book.now.log.book)) }
    ensures accepted { IfOk result (λ bytes. IsTrue (is_accepted instance.now (cert_of book.now.log.history book.now.log.book))) }
{
    // a legal plan of a valid instance has few rows
    let _heads = instance.heads();
    let cert = cert_of(alloc, book)?;
    let mut bytes = report(alloc, &cert)?;
    if with_table {
        let lines = table(alloc, instance, book.best())?;
        bytes.extend_from_slice(lines.as_slice())?;
    }
    Ok(bytes)
}

/// Writes the report of a book, with its table where that is asked for. A refusal says how the run ends.
pub(crate) fn write_report<K: Sink, D: Disk>(
    alloc: Global,
    instance: &Instance,
    book: &Book<D>,
    table: bool,
    out: &mut K,
) -> Result<(), Status>
    requires same { book.now.log.instance ≡ instance.now }
    ensures ok { OnOk result (IsReported instance.now book.now table (sink_of K.held K.faults out.old out.new)) }
    ensures err { IfErr result (Unwritten instance.now book.now table (sink_of K.held K.faults out.old out.new)) }
    ensures unwritten { IfErr result (λ status. EndsUnwritten status → out.new ≡ out.old) }
{
    let Ok(bytes) = report_of(alloc, instance, book, table) else {
        return Err(Status::NoMemory);
    };
    match write_all(out, bytes.as_slice()) {
        Ok(()) => Ok(()),
        Err(Failed) => Err(Status::WriteFault),
    }
}
