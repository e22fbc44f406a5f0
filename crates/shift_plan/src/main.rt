//! Shift plans for people: `shift_plan plan INSTANCE` searches for a cheapest plan within a time and writes it to a folder, and
//! `shift_plan show INSTANCE REPORT` does so with the plan of a report that stands; `shift_plan check INSTANCE REPORT` judges one, and
//! `shift_plan rules INSTANCE` says the rules of an instance back. `shift_plan breaks INSTANCE REPORT` plans the breaks of a report's plan
//! anew, each shift with as many duties on each day. `shift_plan import FOLDER INSTANCE` writes the document of a
//! spreadsheet's tables, and `shift_plan export INSTANCE FOLDER` the tables of a document.
#![tactic(auto)]

ghost use Rattle.planning_words.specs.Wanted.{IsWithin};

mod breaking;
mod checking;
mod comparing;
mod planning;
mod ruling;
mod showing;
mod tables;

use planning_runs::{Cause, PlanRefusal};
use planning_words::{Unasked, Wanted, wanted_by};
use std::alloc::AllocError;
use std::process::ExitCode;
use std::sync::Wait;
use std::thread::Threads;
use std::{env, io};

/// The words of the command line, the program's name first among them.
fn command_words(rt: &HostRuntime) -> Result<Vec<String>, PlanRefusal> {
    let args = match env::args(rt) {
        Ok(args) => args,
        Err(fault) if fault.kind() == io::ErrorKind::OutOfMemory => {
            return Err(PlanRefusal::from(AllocError));
        }
        Err(_) => {
            let sentence = String::from_str(
                rt.alloc(),
                "the words of the command line aren't UTF-8",
            );
            return Err(PlanRefusal::said(Cause::Words, sentence));
        }
    };
    Ok(args.collect(rt.alloc())?)
}

/// Does what the words ask for.
fn done<R: Threads + Wait + Sync>(
    host: HostRuntime,
    rt: &R,
    wanted: &Wanted,
) -> Result<(), PlanRefusal>
    requires within { IsWithin wanted.now }
{
    match wanted {
        Wanted::Plan(words) => planning::plan(host, rt, words),
        Wanted::Show(words) => showing::show(host, words),
        Wanted::Check(words) => checking::check(host, words),
        Wanted::Compare(words) => comparing::compare(host, words),
        Wanted::Breaks(words) => breaking::breaks(host, rt, words),
        Wanted::Rules(words) => ruling::rules(host, words),
        Wanted::Import(words) => tables::import(host, words),
        Wanted::Export(words) => tables::export(host, words),
    }
}

/// Says what is said of words that ask for nothing, and answers the number with which the program ends.
fn tell_unasked(host: HostRuntime, why: Unasked) -> Result<u8, PlanRefusal> {
    match why {
        Unasked::NoMemory => Err(PlanRefusal::from(AllocError)),
        Unasked::Said(error) => {
            let _ = error.print(&host);
            Ok(u8::try_from(error.exit_code()).unwrap_or(2))
        }
    }
}

/// Does what the words ask for, and answers the number with which the program ends.
fn answer<R: Threads + Wait + Sync>(
    host: HostRuntime,
    rt: &R,
    words: &[String],
) -> Result<u8, PlanRefusal> {
    match wanted_by(host.alloc(), words) {
        Ok(wanted) => {
            done(host, rt, &wanted)?;
            Ok(0)
        }
        Err(why) => tell_unasked(host, why),
    }
}

fn main(rt: HostRuntime) -> ExitCode {
    let answered = match command_words(&rt) {
        Ok(words) => answer(rt, &rt, words.as_slice()),
        Err(why) => Err(why),
    };
    match answered {
        Ok(number) => ExitCode::from(number),
        Err(why) => {
            let _ = eprintln!(rt; "shift_plan: {why}");
            ExitCode::from(why.number())
        }
    }
}
