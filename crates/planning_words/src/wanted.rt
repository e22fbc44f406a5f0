//! What a command line asks for.

ghost use Rattle.std.specs.Prelude.{◌≤◌, IfOk, IfErr};
ghost use Rattle.planning_words.specs.Wanted.{IsWithin, IsSaid};

use crate::breaks::{BreaksWords, breaks_words};
use crate::keeping::{CompareWords, LikeWords, compare_words, like_words};
use crate::numbers::{ValueWord, first_of, quiet_of, seconds_of, seed_of, workers_of};
use crate::tables::{TableWords, table_words};
use crate::verbs::command;
use clap::error::ErrorKind;
use clap::{ArgMatches, Error};
use day_names::NamedDay;
use std::alloc::{AllocError, Global};

/// At what else than its time a search is to end.
#[derive(Clone, Copy, PartialEq, Eq, Drop)]
pub enum StopOn {
    /// At a line of standard input, or its end.
    Line,
    /// The same, where the line is somebody's Enter, so that the line of progress says so.
    Enter,
}

/// The words that ask for a plan.
#[derive(Clone, Copy, Drop)]
pub struct PlanWords<'a> {
    /// The file of the instance document.
    pub instance: &'a str,
    /// The file of the journal, if it is said.
    pub journal: Option<&'a str>,
    /// How long to search, in seconds.
    pub seconds: u32,
    /// How many workers search.
    pub workers: u16,
    /// What the random draws of the first worker begin from; those of each other one begin from 1 more than those of the one before.
    pub seed: u32,
    /// The folder for the plan, if it is said.
    pub out: Option<&'a str>,
    /// Whether to begin again, with the old journal under another name.
    pub anew: bool,
    /// At what else the search is to end, if it is said.
    pub stop_on: Option<StopOn>,
    /// After how many seconds without a cheaper plan the search is to end, if it is said.
    pub until_quiet: Option<u32>,
    /// The plan of which the search is to keep what it can, if one is named.
    pub like: Option<LikeWords<'a>>,
    /// What the first day of the planning period is, if it is said.
    pub first: Option<NamedDay>,
}

/// The words that ask for a report to be shown.
#[derive(Clone, Copy, Drop)]
pub struct ShowWords<'a> {
    /// The file of the instance document.
    pub instance: &'a str,
    /// The file of the report.
    pub report: &'a str,
    /// The folder for the plan, if it is said.
    pub out: Option<&'a str>,
    /// What the first day of the planning period is, if it is said.
    pub first: Option<NamedDay>,
}

/// The words that ask for the rules of an instance.
#[derive(Clone, Copy, Drop)]
pub struct RulesWords<'a> {
    /// The file of the instance document.
    pub instance: &'a str,
}

/// The words that ask for a report to be judged.
#[derive(Clone, Copy, Drop)]
pub struct CheckWords<'a> {
    /// The file of the instance document.
    pub instance: &'a str,
    /// The file of the report.
    pub report: &'a str,
}

/// What a command line asks for.
#[derive(Clone, Copy, Drop)]
pub enum Wanted<'a> {
    /// A search for a plan.
    Plan(PlanWords<'a>),
    /// A report that stands, shown once more.
    Show(ShowWords<'a>),
    /// A report that stands, judged.
    Check(CheckWords<'a>),
    /// Two plans, compared.
    Compare(CompareWords<'a>),
    /// A report's breaks, planned anew.
    Breaks(BreaksWords<'a>),
    /// The rules of an instance in words.
    Rules(RulesWords<'a>),
    /// The document of tables.
    Import(TableWords<'a>),
    /// The tables of a document.
    Export(TableWords<'a>),
}

/// What ends a search, by its word.
pub(crate) fn stop_on(word: &str) -> StopOn {
    match word {
        "enter" => StopOn::Enter,
        _ => StopOn::Line,
    }
}

/// What the words behind `plan` ask for, or the first word that has a value which it doesn't take.
fn plan_words<'a>(matches: &ArgMatches<'a>) -> Result<PlanWords<'a>, ValueWord>
    ensures { IfOk result (λ words. IsWithin (Wanted.Plan words)) }
{
    let seconds = seconds_of(matches)?;
    let workers = workers_of(matches)?;
    let seed = seed_of(matches)?;
    let until_quiet = quiet_of(matches)?;
    let first = first_of(matches)?;
    let like = like_words(matches)?;
    Ok(PlanWords {
        // a required word is there
        instance: matches.get_str("INSTANCE").unwrap_or(""),
        journal: matches.get_str("journal"),
        seconds,
        workers,
        seed,
        out: matches.get_str("out"),
        anew: matches.get_flag("anew"),
        stop_on: matches.get_str("stop-on").map(stop_on),
        until_quiet,
        like,
        first,
    })
}

/// What the words behind `show` ask for, or the word that has a value which it doesn't take.
fn show_words<'a>(matches: &ArgMatches<'a>) -> Result<ShowWords<'a>, ValueWord> {
    let first = first_of(matches)?;
    Ok(ShowWords {
        // required words are there
        instance: matches.get_str("INSTANCE").unwrap_or(""),
        report: matches.get_str("REPORT").unwrap_or(""),
        out: matches.get_str("out"),
        first,
    })
}

/// What the words behind `rules` ask for.
fn rules_words<'a>(matches: &ArgMatches<'a>) -> RulesWords<'a> {
    RulesWords {
        // a required word is there
        instance: matches.get_str("INSTANCE").unwrap_or(""),
    }
}

/// What the words behind `check` ask for.
fn check_words<'a>(matches: &ArgMatches<'a>) -> CheckWords<'a> {
    CheckWords {
        // required words are there
        instance: matches.get_str("INSTANCE").unwrap_or(""),
        report: matches.get_str("REPORT").unwrap_or(""),
    }
}

/// What is said where a word has a value that it doesn't take, as clap says what is wrong with words.
fn no_value(alloc: Global, matches: &ArgMatches, word: ValueWord) -> Result<Error, AllocError> {
    let sentence = word.refusal(alloc, matches)?;
    let mut whole = command(alloc)?;
    whole.error(ErrorKind::ValueValidation, sentence.as_str())
}

/// What the words behind `plan` ask for, or what is said of the first value that its word doesn't take.
fn wanted_plan<'a>(alloc: Global, behind: &ArgMatches<'a>) -> Result<Wanted<'a>, Error>
    ensures { IfOk result IsWithin }
{
    match plan_words(behind) {
        Ok(words) => Ok(Wanted::Plan(words)),
        Err(word) => Err(no_value(alloc, behind, word)?),
    }
}

/// What the words behind `show` ask for, or what is said of a value that its word doesn't take.
fn wanted_show<'a>(alloc: Global, behind: &ArgMatches<'a>) -> Result<Wanted<'a>, Error>
    ensures { IfOk result IsWithin }
{
    match show_words(behind) {
        Ok(words) => Ok(Wanted::Show(words)),
        Err(word) => Err(no_value(alloc, behind, word)?),
    }
}

/// What the words behind `breaks` ask for, or what is said of the first value that its word doesn't take.
fn wanted_breaks<'a>(alloc: Global, behind: &ArgMatches<'a>) -> Result<Wanted<'a>, Error>
    ensures { IfOk result IsWithin }
{
    match breaks_words(behind) {
        Ok(words) => Ok(Wanted::Breaks(words)),
        Err(word) => Err(no_value(alloc, behind, word)?),
    }
}

/// What the words of a command line ask for, or what clap says of them.
fn parsed<'a>(alloc: Global, words: &'a [String]) -> Result<Wanted<'a>, Error>
    ensures { IfOk result IsWithin }
{
    let matches = command(alloc)?.try_get_matches_from(words)?;
    match matches.subcommand() {
        Some(("show", behind)) => wanted_show(alloc, behind),
        Some(("check", behind)) => Ok(Wanted::Check(check_words(behind))),
        Some(("compare", behind)) => Ok(Wanted::Compare(compare_words(behind))),
        Some(("breaks", behind)) => wanted_breaks(alloc, behind),
        Some(("rules", behind)) => Ok(Wanted::Rules(rules_words(behind))),
        Some(("import", behind)) => Ok(Wanted::Import(table_words(behind))),
        Some(("export", behind)) => Ok(Wanted::Export(table_words(behind))),
        Some((_, behind)) => wanted_plan(alloc, behind),
        // one of the commands is required
        None => wanted_plan(alloc, &matches),
    }
}

/// Why words ask for nothing.
#[derive(Drop)]
pub enum Unasked {
    /// There was no memory to read them.
    NoMemory,
    /// What is to be said of them: what is wrong with them, or the help that they ask for.
    Said(Error),
}

impl Unasked {
    /// Why words ask for nothing of which clap says this.
    fn of(error: Error) -> Unasked
        ensures { IsSaid result }
    {
        match error.kind() {
            ErrorKind::OutOfMemory => Unasked::NoMemory,
            _ => Unasked::Said(error),
        }
    }
}

/// What the words of a command line ask for, the program's name first among them, or why they ask for nothing. Running out of memory is told as
/// that, and never as a fault of the words.
///
/// The words are `plan INSTANCE [--journal FILE] [--seconds T] [--until-quiet T] [--workers W] [--seed S] [--out FOLDER] [--first-day WEEKDAY|--from DATE]
/// [--stop-on line|enter] [--like REPORT --of OLD_INSTANCE [--change C]] [--anew]`, `show INSTANCE REPORT [--out FOLDER] [--first-day WEEKDAY|--from DATE]`, `check INSTANCE REPORT`,
/// `compare INSTANCE REPORT OTHER_INSTANCE OTHER_REPORT`, `breaks INSTANCE REPORT [--seconds T] [--seed S] [--out FOLDER] [--first-day WEEKDAY|--from DATE] [--stop-on line|enter]`,
/// `rules INSTANCE`, `import FOLDER INSTANCE` or `export INSTANCE FOLDER`. The T of `--seconds` is at most 4,000,000 and 60 where it isn't given, that of `--until-quiet` from 1 to as much, W is
/// from 1 to 16 and 4 where it isn't given, S is below 2^32 and 1 where it isn't given, and C is at most 1,000,000.
pub fn wanted_by<'a>(alloc: Global, words: &'a [String]) -> Result<Wanted<'a>, Unasked>
    ensures within { IfOk result IsWithin }
    ensures said { IfErr result IsSaid }
{
    match parsed(alloc, words) {
        Ok(wanted) => Ok(wanted),
        Err(error) => Err(Unasked::of(error)),
    }
}
