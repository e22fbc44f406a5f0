//! What is said of a plan, and the files that it is written to.

ghost use Rattle.std.specs.Prelude.{IsTrue};
ghost use Rattle.shift_instance.specs.Rota.{are_legal_rows};

use crate::beside::{Beside, page_texts};
use crate::judging::judged_plan;
use crate::placing::{opened, put_files};
use crate::plan::JudgedPlan;
use crate::refusal::{Cause, PlanRefusal};
use crate::standings::{standing, why_empty};
use certificate::{CertStatus, CertText};
use plan_page::{PageTexts, plan_page};
use plan_tables::{Attendance, Summary, cover_csv, duties_csv, duties_table, summary_text};
use planning_words::{PLAN_FILES, PlanFile, make_folder};
use refusal_texts::Role;
use rota_table::rota_csv;
use shift_instance::{Instance, Rows};
use short_cover::short_text;
use std::alloc::{AllocError, Global};
use std::fs;
use std::io::{self, Write};

/// Makes the folder of a plan, where it isn't there.
pub fn ready_folder(rt: HostRuntime, folder: &str) -> Result<(), PlanRefusal> {
    let alloc = rt.alloc();
    match make_folder(&rt, folder) {
        Ok(()) => Ok(()),
        Err(why) if why.kind() == io::ErrorKind::AlreadyExists => Err(PlanRefusal::said(
            Cause::Unwritten,
            format!(in alloc; "the plan's folder `{folder}` is a file: name a folder with --out"),
        )),
        Err(why) => Err(PlanRefusal::unwritten(alloc, Role::Folder, folder, why.kind())),
    }
}

/// What a report claims that its plan costs, where it can be read and has one.
fn claimed_cost(alloc: Global, report: &[u8]) -> Result<Option<u64>, AllocError> {
    match certificate::read(alloc, report) {
        Ok(cert) => Ok(cert.plan.as_ref().map(|(cost, _rows)| *cost)),
        Err(CertText::NoMemory) => Err(AllocError),
        Err(_) => Ok(None),
    }
}

/// The bytes of the report in a folder, where it can be read.
fn report_in(rt: HostRuntime, folder: &str) -> Result<Option<Vec<u8>>, AllocError> {
    let path = format!(in rt.alloc(); "{folder}/report")?;
    match fs::read(&rt, path.as_str()) {
        Ok(report) => Ok(Some(report)),
        Err(why) if why.kind() == io::ErrorKind::OutOfMemory => Err(AllocError),
        Err(_) => Ok(None),
    }
}

/// What the plan of a document costs whose report stands in a folder, where it costs less than `cost`. A report that claims no lesser cost isn't
/// judged.
fn cheaper_cost(
    rt: HostRuntime,
    document: &[u8],
    folder: &str,
    cost: u64,
) -> Result<Option<u64>, PlanRefusal> {
    let alloc = rt.alloc();
    let Some(report) = report_in(rt, folder)? else {
        return Ok(None);
    };
    match claimed_cost(alloc, report.as_slice())? {
        Some(claimed) if claimed < cost => {}
        _ => return Ok(None),
    }
    match judged_plan(alloc, document, report) {
        Ok(plan) => Ok(plan.cert.plan.as_ref().map(|(found, _rows)| *found)),
        Err(why) => {
            let refusal = PlanRefusal::unshown(alloc, document, &why);
            if refusal.number() == Cause::NoMemory.number() {
                return Err(refusal);
            }
            Ok(None)
        }
    }
}

/// The files of a plan, and what is said of it.
#[derive(Drop)]
struct Sheets {
    /// Its rota, to be hung up, as comma-separated values.
    rota: Vec<u8>,
    /// Its duties as comma-separated values.
    duties: Vec<u8>,
    /// Its slots as comma-separated values.
    cover: Vec<u8>,
    /// Its page.
    page: String,
    /// What is said of it.
    said: String,
}

/// How many slots below their need are named on standard output at most.
const SHORT_SAID: usize = 10;

impl Sheets {
    /// The files of legal rows, and what is said of them.
    fn new(
        alloc: Global,
        instance: &Instance,
        rows: &Rows,
        texts: &PageTexts,
    ) -> Result<Sheets, AllocError>
        requires { IsTrue (are_legal_rows instance.now rows.now) }
    {
        let rota = rota_csv(alloc, instance, rows, texts.days.as_slice())?;
        let duties = duties_csv(alloc, instance, rows)?;
        let cover = cover_csv(alloc, instance, rows)?;
        let page = plan_page(alloc, instance, rows, texts)?;
        Ok(Sheets {
            rota,
            duties,
            cover,
            page,
            said: said_of(alloc, instance, rows)?,
        })
    }

    /// The bytes of a file of the plan whose report is given.
    fn bytes<'a>(&'a self, report: &'a [u8], file: PlanFile) -> &'a [u8] {
        match file {
            PlanFile::Report => report,
            PlanFile::Rota | PlanFile::RotaWritten => self.rota.as_slice(),
            PlanFile::Duties | PlanFile::DutiesWritten => self.duties.as_slice(),
            PlanFile::Cover | PlanFile::CoverWritten => self.cover.as_slice(),
            PlanFile::Page => self.page.as_bytes(),
        }
    }

    /// The bytes of all files of the plan whose report is given.
    fn files<'a>(&'a self, alloc: Global, report: &'a [u8]) -> Result<Vec<&'a [u8]>, AllocError> {
        let mut files = Vec::new(alloc);
        for file in PLAN_FILES {
            files.push(self.bytes(report, file))?;
        }
        Ok(files)
    }
}

/// What is said of legal rows: what they add up to, the slots below their need, and the duties.
fn said_of(alloc: Global, instance: &Instance, rows: &Rows) -> Result<String, AllocError>
    requires { IsTrue (are_legal_rows instance.now rows.now) }
{
    let summary = Summary::new(alloc, instance, rows)?;
    let attendance = Attendance::new(alloc, instance, rows)?;
    let sums = summary_text(alloc, instance, &summary)?;
    let short = short_text(alloc, instance, &attendance, SHORT_SAID)?;
    let table = duties_table(alloc, instance, rows)?;
    format!(in alloc; "{}\n{}\n{}", sums.as_str(), short.as_str(), table.as_str())
}

/// Says a text on standard output. Where nobody takes it, the files that were written stand all the same.
pub fn say(rt: HostRuntime, text: &str) {
    let mut out = rt.stdout();
    let _ = out.write_all(text.as_bytes());
    let _ = out.flush();
}

/// How a plan of a cost stands, in words, and why it is empty where it is.
fn stands(
    alloc: Global,
    plan: &JudgedPlan,
    cost: u64,
    is_empty: bool,
) -> Result<String, AllocError> {
    let mut stands = standing(alloc, &plan.cert, cost)?;
    if is_empty {
        stands.push_str(" ")?;
        stands.push_str(why_empty(&plan.instance))?;
    }
    Ok(stands)
}

/// Writes the files of a plan of that cost to a folder, unless a cheaper plan of the same document stands there, and tells which it did.
fn placed(
    rt: HostRuntime,
    document: &[u8],
    folder: &str,
    report: &[u8],
    cost: u64,
    sheets: &Sheets,
) -> Result<String, PlanRefusal> {
    let alloc = rt.alloc();
    let mut place = opened(rt, folder)?;
    if let Some(cheaper) = cheaper_cost(rt, document, folder, cost)? {
        return Ok(format!(in alloc;
            "The folder {folder} has a cheaper plan of this document, which costs {cheaper}: it stays, and nothing was written. Name another folder with --out to have this one too."
        )?);
    }
    let files = sheets.files(alloc, report)?;
    put_files(rt, folder, &mut place, files.as_slice())?;
    Ok(format!(in alloc;
        "The plan is in the folder {folder}: plan.html, rota.csv, duties.csv, cover.csv and report."
    )?)
}

/// Writes a plan to a folder, all its files together, and says it on standard output, with what is known beside it. Where a cheaper plan
/// of the same document stands in the folder, that one stays, and this is said.
pub fn show_plan(
    rt: HostRuntime,
    beside: &Beside,
    folder: &str,
    plan: &JudgedPlan,
) -> Result<(), PlanRefusal> {
    let alloc = rt.alloc();
    let Some((cost, rows)) = &plan.cert.plan else {
        let bound = plan.cert.bound;
        let text = format!(in alloc;
            "The report has no plan. No legal plan costs less than {bound}.\n"
        )?;
        say(rt, text.as_str());
        return Ok(());
    };
    let stands = stands(alloc, plan, *cost, rows.is_empty())?;
    let has_gap = plan.cert.status != CertStatus::Optimal;
    let texts = page_texts(
        alloc,
        &plan.instance,
        rows,
        beside,
        stands.as_str(),
        has_gap,
    )?;
    let sheets = Sheets::new(alloc, &plan.instance, rows, &texts)?;
    let place = placed(
        rt,
        beside.document,
        folder,
        plan.report.as_slice(),
        *cost,
        &sheets,
    )?;
    let text = format!(in alloc;
        "{}\n\n{}\n{}\n",
        stands.as_str(),
        sheets.said.as_str(),
        place.as_str()
    )?;
    say(rt, text.as_str());
    Ok(())
}
