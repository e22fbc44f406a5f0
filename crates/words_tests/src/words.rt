//! Which words ask for what: no clause says it.

use clap::error::ErrorKind;
use day_names::{NamedDay, day_names};
use planning_words::{PlanWords, StopOn, Unasked, Wanted, wanted_by};
use std::alloc::{AllocError, Global};
use std::test::Fail;

/// The words of a line, which are separated by single spaces.
fn words_of(alloc: Global, line: &str) -> Result<Vec<String>, AllocError> {
    let mut words = Vec::new(alloc);
    for word in line.split(' ') {
        words.push(String::from_str(alloc, word)?)?;
    }
    Ok(words)
}

/// The kind of the error that a line gives, if it gives one.
fn kind_at(alloc: Global, line: &str) -> Result<Option<ErrorKind>, AllocError> {
    let words = words_of(alloc, line)?;
    match wanted_by(alloc, words.as_slice()) {
        Ok(_) => Ok(None),
        Err(Unasked::Said(error)) => Ok(Some(error.kind())),
        Err(Unasked::NoMemory) => Err(AllocError),
    }
}

/// What a line asks for where it asks for a plan: its journal and folder, `-` where they aren't said, its seconds, its workers, its seed,
/// whether it begins again, at what else it ends, and after how many seconds without a cheaper plan, 0 where that isn't said.
fn plan_at(alloc: Global, line: &str) -> Result<Option<String>, AllocError> {
    let words = words_of(alloc, line)?;
    match wanted_by(alloc, words.as_slice()) {
        Ok(
            Wanted::Plan(
                PlanWords {
                    instance,
                    journal,
                    seconds,
                    workers,
                    seed,
                    out,
                    anew,
                    stop_on,
                    until_quiet,
                    ..
                },
            ),
        ) => {
            let journal = journal.unwrap_or("-");
            let out = out.unwrap_or("-");
            let end = match stop_on {
                Some(StopOn::Line) => "line",
                Some(StopOn::Enter) => "enter",
                None => "-",
            };
            let quiet = until_quiet.unwrap_or(0);
            Ok(Some(format!(in alloc;
                "{instance} {journal} {seconds} {workers} {seed} {out} {anew} {end} {quiet}"
            )?))
        }
        _ => Ok(None),
    }
}

#[test]
fn a_plan_has_its_words(rt: HostRuntime) -> Result<(), Fail> {
    let alloc = rt.alloc();
    let short = plan_at(alloc, "shift_plan plan w.json")?.ok_or("no plan")?;
    assert_eq!(rt; short.as_str(), "w.json - 60 4 1 - false - 0");
    let long =
        "shift_plan plan w.json --journal j --seconds 0 --workers=16 --seed=4294967295 --out o --stop-on line --anew";
    let long = plan_at(alloc, long)?.ok_or("no plan")?;
    assert_eq!(rt; long.as_str(), "w.json j 0 16 4294967295 o true line 0");
    let quiet = plan_at(alloc, "shift_plan plan w.json --until-quiet 90")?.ok_or("no plan")?;
    assert_eq!(rt; quiet.as_str(), "w.json - 60 4 1 - false - 90");
    let told = plan_at(alloc, "shift_plan plan --stop-on=enter --seed 0 w.json")?.ok_or("no plan")?;
    assert_eq!(rt; told.as_str(), "w.json - 60 4 0 - false enter 0");
    Ok(())
}

#[test]
fn a_report_is_shown(rt: HostRuntime) -> Result<(), Fail> {
    let words = words_of(rt.alloc(), "shift_plan show w.json r --out o")?;
    match wanted_by(rt.alloc(), words.as_slice()) {
        Ok(Wanted::Show(show)) => {
            assert_eq!(rt;
                (show.instance, show.report, show.out),
                ("w.json", "r", Some("o"))
            );
            Ok(())
        }
        _ => Err(Fail::from("nothing is shown")),
    }
}

#[test]
fn breaks_are_planned_anew(rt: HostRuntime) -> Result<(), Fail> {
    let line = "shift_plan breaks w.json r --seconds 5 --seed 9 --out o --stop-on line";
    let words = words_of(rt.alloc(), line)?;
    match wanted_by(rt.alloc(), words.as_slice()) {
        Ok(Wanted::Breaks(breaks)) => {
            assert_eq!(rt;
                (breaks.instance, breaks.report, breaks.out),
                ("w.json", "r", Some("o"))
            );
            assert_eq!(rt; (breaks.seconds, breaks.seed), (5, 9));
            assert!(rt; breaks.stop_on == Some(StopOn::Line));
            Ok(())
        }
        _ => Err(Fail::from("no breaks are planned")),
    }
}

/// What the first day is that words ask for, if they say it.
fn first_of(wanted: &Wanted) -> Option<NamedDay> {
    match wanted {
        Wanted::Plan(plan) => plan.first,
        Wanted::Show(show) => show.first,
        Wanted::Breaks(breaks) => breaks.first,
        _ => None,
    }
}

/// The names of two days that a line asks for, by its first day.
fn days_at(alloc: Global, line: &str) -> Result<Option<String>, AllocError> {
    let words = words_of(alloc, line)?;
    let Ok(wanted) = wanted_by(alloc, words.as_slice()) else {
        return Ok(None);
    };
    let Some(first) = first_of(&wanted) else {
        return Ok(None);
    };
    let names = day_names(alloc, first, 2)?;
    let mut all = String::new(alloc);
    for name in &names {
        all.push_str(name.as_str())?;
        all.push_str(";")?;
    }
    Ok(Some(all))
}

#[test]
fn days_have_names(rt: HostRuntime) -> Result<(), Fail> {
    let alloc = rt.alloc();
    let names = days_at(alloc, "shift_plan plan w.json --first-day sunday")?.ok_or("no names")?;
    assert_eq!(rt; names.as_str(), "Sunday;Monday;");
    let names = days_at(alloc, "shift_plan show w.json r --from 2028-02-28")?.ok_or("no names")?;
    assert_eq!(rt; names.as_str(), "Monday 2028-02-28;Tuesday 2028-02-29;");
    assert!(rt; days_at(alloc, "shift_plan plan w.json")?.is_none());
    let kind = kind_at(alloc, "shift_plan plan w.json --from 2026-02-30")?;
    assert!(rt; matches!(kind, Some(ErrorKind::ValueValidation)));
    let kind = kind_at(alloc, "shift_plan show w.json r --first-day Monday")?;
    assert!(rt; matches!(kind, Some(ErrorKind::InvalidValue)));
    let kind = kind_at(
        alloc,
        "shift_plan plan w.json --first-day monday --from 2026-12-07",
    )?;
    assert!(rt; matches!(kind, Some(ErrorKind::ArgumentConflict)));
    Ok(())
}

/// What a line asks for beside a plan or a report that is shown: its command and its two files.
fn files_at(alloc: Global, line: &str) -> Result<Option<String>, AllocError> {
    let words = words_of(alloc, line)?;
    let (command, first, second) = match wanted_by(alloc, words.as_slice()) {
        Ok(Wanted::Check(check)) => ("check", check.instance, check.report),
        Ok(Wanted::Import(tables)) => ("import", tables.folder, tables.instance),
        Ok(Wanted::Export(tables)) => ("export", tables.instance, tables.folder),
        _ => return Ok(None),
    };
    Ok(Some(format!(in alloc; "{command} {first} {second}")?))
}

#[test]
fn rules_are_said_back(rt: HostRuntime) -> Result<(), Fail> {
    let alloc = rt.alloc();
    let words = words_of(alloc, "shift_plan rules w.json")?;
    match wanted_by(alloc, words.as_slice()) {
        Ok(Wanted::Rules(rules)) => {
            assert_eq!(rt; rules.instance, "w.json");
            Ok(())
        }
        _ => Err(Fail::from("no rules to be said back")),
    }
}

#[test]
fn a_report_is_judged_and_tables_are_read_and_written(rt: HostRuntime) -> Result<(), Fail> {
    let alloc = rt.alloc();
    for line in ["check w.json r", "import t w.json", "export w.json t"] {
        let words = format!(in alloc; "shift_plan {line}")?;
        let found = files_at(alloc, words.as_str())?.ok_or("nothing of these")?;
        assert_eq!(rt; found.as_str(), line);
    }
    let kind = kind_at(alloc, "shift_plan import t")?;
    assert!(rt; matches!(kind, Some(ErrorKind::MissingRequiredArgument)));
    Ok(())
}

/// The plan that a line names to be kept, and its instance: `-` where it names none.
fn kept_at(alloc: Global, line: &str) -> Result<Option<String>, AllocError> {
    let words = words_of(alloc, line)?;
    match wanted_by(alloc, words.as_slice()) {
        Ok(
            Wanted::Plan(
                PlanWords {
                    like: Some(like),
                    ..
                },
            ),
        ) => {
            let change = like.change.map_or(-1, i64::from);
            Ok(Some(format!(in alloc; "{} {} {change}", like.report, like.of)?))
        }
        Ok(_) => Ok(Some(String::from_str(alloc, "-")?)),
        Err(_) => Ok(None),
    }
}

#[test]
fn a_plan_to_keep_is_named_with_its_instance(rt: HostRuntime) -> Result<(), Fail> {
    let alloc = rt.alloc();
    let found = kept_at(alloc, "shift_plan plan w.json --like r --of v.json")?;
    assert_eq!(rt; found.as_ref().map_or("", String::as_str), "r v.json -1");
    let found = kept_at(
        alloc,
        "shift_plan plan w.json --like r --of v.json --change 7",
    )?;
    assert_eq!(rt; found.as_ref().map_or("", String::as_str), "r v.json 7");
    let found = kept_at(alloc, "shift_plan plan w.json")?;
    assert_eq!(rt; found.as_ref().map_or("", String::as_str), "-");
    assert!(rt; kept_at(alloc, "shift_plan plan w.json --like r")?.is_none());
    assert!(rt; kept_at(alloc, "shift_plan plan w.json --of v.json")?.is_none());
    assert!(rt; kept_at(alloc, "shift_plan plan w.json --change 7")?.is_none());
    Ok(())
}

#[test]
fn two_plans_are_compared(rt: HostRuntime) -> Result<(), Fail> {
    let alloc = rt.alloc();
    let words = words_of(alloc, "shift_plan compare v.json q w.json r")?;
    match wanted_by(alloc, words.as_slice()) {
        Ok(Wanted::Compare(both)) => {
            assert_eq!(rt; (both.instance, both.report), ("v.json", "q"));
            assert_eq!(rt; (both.other_instance, both.other_report), ("w.json", "r"));
            Ok(())
        }
        _ => Err(Fail::from("nothing is compared")),
    }
}

#[test]
fn other_words_are_refused(rt: HostRuntime) -> Result<(), Fail> {
    let alloc = rt.alloc();
    let kind = kind_at(alloc, "shift_plan plan")?;
    assert!(rt; matches!(kind, Some(ErrorKind::MissingRequiredArgument)));
    let kind = kind_at(alloc, "shift_plan plan w.json --workers 17")?;
    assert!(rt; matches!(kind, Some(ErrorKind::ValueValidation)));
    let kind = kind_at(alloc, "shift_plan plan w.json --seed 4294967296")?;
    assert!(rt; matches!(kind, Some(ErrorKind::ValueValidation)));
    let kind = kind_at(alloc, "shift_plan plan w.json --seed luck")?;
    assert!(rt; matches!(kind, Some(ErrorKind::ValueValidation)));
    let kind = kind_at(alloc, "shift_plan plan w.json --seconds ten")?;
    assert!(rt; matches!(kind, Some(ErrorKind::ValueValidation)));
    let kind = kind_at(alloc, "shift_plan plan w.json --seconds -5")?;
    assert!(rt; matches!(kind, Some(ErrorKind::ValueValidation)));
    let kind = kind_at(alloc, "shift_plan plan w.json --until-quiet 0")?;
    assert!(rt; matches!(kind, Some(ErrorKind::ValueValidation)));
    let kind = kind_at(alloc, "shift_plan plan w.json --stop-on dusk")?;
    assert!(rt; matches!(kind, Some(ErrorKind::InvalidValue)));
    let kind = kind_at(alloc, "shift_plan --help")?;
    assert!(rt; matches!(kind, Some(ErrorKind::DisplayHelp)));
    Ok(())
}
