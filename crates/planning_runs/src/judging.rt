//! The judgement on reports.

ghost use Rattle.std.specs.Prelude.{◌≡◌, ◌≤◌, IfErr, IfOk, IsTrue, Ok};
ghost use Rattle.instance_json.specs.Reading.{reading_of};
ghost use Rattle.certificate.specs.Accepted.{is_accepted};
ghost use Rattle.certificate.specs.Text.{Agrees};
ghost use Rattle.certificate.specs.Departing.{Spells};
ghost use Rattle.cert_check.specs.Judged.{IsRefused};
ghost use Rattle.planning_runs.specs.Reports.{IsOfBook, IsUnshown};

use crate::plan::JudgedPlan;
use break_rules::NoMemory;
use cert_check::{Refused, check, check_by};
use certificate::{Cert, CertText};
use instance_json::ReadRefusal;
use plan_base::Disk;
use rota_writer::report;
use search_book::Book;
use shift_instance::Instance;
use solve_runs::cert_of;
use std::alloc::{AllocError, Global};
use std::thread::Threads;

/// Why a report shows no plan. Each cause may also be running out of memory.
#[derive(Drop)]
pub enum Unshown {
    /// The document is refused.
    Document(ReadRefusal),
    /// The text is no report.
    Report(CertText),
    /// The report isn't accepted.
    Refused(Refused),
}

/// The plan of an instance that a certificate shows, if it is accepted.
fn judged(
    alloc: Global,
    instance: Instance,
    cert: Cert,
    report: Vec<u8>,
) -> Result<JudgedPlan, Refused>
    requires spelled { Spells report.items cert }
    ensures instance { IfOk result (λ plan. plan.instance ≡ instance) }
    ensures cert { IfOk result (λ plan. plan.cert ≡ cert) }
    ensures report { IfOk result (λ plan. plan.report ≡ report) }
    ensures refused { IfErr result (IsRefused instance cert) }
{
    check(alloc, &instance, &cert)?;
    Ok(JudgedPlan {
        instance,
        cert,
        report,
    })
}

/// The same, judged by up to `workers` workers, whose number doesn't change the answer.
fn judged_by<R: Threads + Sync>(
    rt: &R,
    alloc: Global,
    instance: Instance,
    cert: Cert,
    report: Vec<u8>,
    workers: u32,
) -> Result<JudgedPlan, Refused>
    requires some { 1 ≤ workers }
    requires spelled { Spells report.items cert }
    ensures instance { IfOk result (λ plan. plan.instance ≡ instance) }
    ensures cert { IfOk result (λ plan. plan.cert ≡ cert) }
    ensures report { IfOk result (λ plan. plan.report ≡ report) }
    ensures refused { IfErr result (IsRefused instance cert) }
{
    check_by(rt, alloc, &instance, &cert, workers)?;
    Ok(JudgedPlan {
        instance,
        cert,
        report,
    })
}

/// Judges a report for the instance of a document as `shift_check check` does. [`Unshown`] says why it shows no plan.
pub fn judged_plan(alloc: Global, document: &[u8], report: Vec<u8>) -> Result<JudgedPlan, Unshown>
    ensures instance { IfOk result (λ plan. reading_of document.now ≡ Ok plan.instance) }
    ensures cert { IfOk result (λ plan. Spells report.items plan.cert) }
    ensures report { IfOk result (λ plan. plan.report ≡ report) }
    ensures accepted { IfOk result (λ plan. IsTrue (is_accepted plan.instance plan.cert)) }
    ensures unshown { IfErr result (IsUnshown document.now report.items) }
{
    let instance = match instance_json::read(alloc, document) {
        Ok(instance) => instance,
        Err(why) => return Err(Unshown::Document(why)),
    };
    let cert = match certificate::read(alloc, report.as_slice()) {
        Ok(cert) => cert,
        Err(why) => return Err(Unshown::Report(why)),
    };
    match judged(alloc, instance, cert, report) {
        Ok(plan) => Ok(plan),
        Err(why) => Err(Unshown::Refused(why)),
    }
}

/// The report of a certificate that has a text.
fn report_of(alloc: Global, cert: &Cert) -> Result<Vec<u8>, NoMemory>
    requires { Agrees cert.now }
    ensures { IfOk result (λ text. Spells text.items cert.now) }
{
    let text = report(alloc, cert)?;
    Ok(text)
}

/// The plan of a book of the instance, judged as any report is, by up to `workers` workers. The certificate of a book is accepted, so
/// `NoMemory` is the only refusal.
pub(crate) fn plan_of<D: Disk, R: Threads + Sync>(
    rt: &R,
    alloc: Global,
    instance: Instance,
    book: &Book<D>,
    workers: u32,
) -> Result<JudgedPlan, NoMemory>
    requires some { 1 ≤ workers }
    requires same { book.now.log.instance ≡ instance }
    ensures { IfOk result (IsOfBook instance book.now) }
{
    // an instance is valid
    let _heads = instance.heads();
    let cert = cert_of(alloc, book)?;
    let text = report_of(alloc, &cert)?;
    match judged_by(rt, alloc, instance, cert, text, workers) {
        Ok(plan) => Ok(plan),
        Err(Refused::NoMemory) => Err(AllocError),
        // a book's certificate is accepted
        Err(_) => unreachable!(),
    }
}
