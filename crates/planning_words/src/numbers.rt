//! The numbers and the date that words give.

ghost use Rattle.std.specs.Prelude.{◌≤◌, IfOk, IfSome};

use clap::ArgMatches;
use day_names::NamedDay;
use std::alloc::{AllocError, Global};

/// How long a search lasts where the words don't say, in seconds.
const SECONDS_UNSAID: u32 = 60;

/// The longest search, in seconds.
const SECONDS_MOST: u32 = 4_000_000;

/// How many workers search where the words don't say.
const WORKERS_UNSAID: u16 = 4;

/// The most workers.
const WORKERS_MOST: u16 = 16;

/// The seed where the words don't say.
const SEED_UNSAID: u32 = 1;

/// The most that a duty counts which isn't kept.
const CHANGE_MOST: u32 = 1_000_000;

/// A word that takes a number or a date.
#[derive(Clone, Copy, PartialEq, Eq, Drop)]
pub(crate) enum ValueWord {
    /// How long to search.
    Seconds,
    /// How many workers search.
    Workers,
    /// What the random draws begin from.
    Seed,
    /// After how many seconds without a cheaper plan the search ends.
    UntilQuiet,
    /// What a duty counts that isn't kept.
    Change,
    /// The date of the first day.
    From,
}

impl ValueWord {
    /// The name of the word.
    pub(crate) fn name(self) -> &'static str {
        match self {
            ValueWord::Seconds => "seconds",
            ValueWord::Workers => "workers",
            ValueWord::Seed => "seed",
            ValueWord::UntilQuiet => "until-quiet",
            ValueWord::Change => "change",
            ValueWord::From => "from",
        }
    }

    /// What the word takes.
    fn takes(self) -> &'static str {
        match self {
            ValueWord::Seconds => "a whole number of seconds from 0 to 4000000",
            ValueWord::Workers => "a whole number of workers from 1 to 16",
            ValueWord::Seed => "a whole number from 0 to 4294967295",
            ValueWord::UntilQuiet => "a whole number of seconds from 1 to 4000000",
            ValueWord::Change => "a whole number from 0 to 1000000",
            ValueWord::From => "a date such as 2026-12-01",
        }
    }

    /// What is said of a value that the word doesn't take.
    pub(crate) fn refusal(self, alloc: Global, matches: &ArgMatches) -> Result<String, AllocError> {
        let name = self.name();
        let takes = self.takes();
        let found = matches.get_str(name).unwrap_or("");
        format!(in alloc; "--{name} takes {takes}, and not `{found}`")
    }
}

/// The number that a text is, within a range.
fn number_within(text: &str, least: u32, most: u32) -> Option<u32>
    ensures least { IfSome result (λ n. least ≤ n) }
    ensures most { IfSome result (λ n. n ≤ most) }
{
    let Ok(number) = text.parse::<u32>() else {
        return None;
    };
    if least <= number && number <= most {
        Some(number)
    } else {
        None
    }
}

/// How long to search, in seconds.
pub(crate) fn seconds_of(matches: &ArgMatches) -> Result<u32, ValueWord>
    ensures { IfOk result (λ seconds. seconds ≤ SECONDS_MOST) }
{
    let Some(text) = matches.get_str("seconds") else {
        return Ok(SECONDS_UNSAID);
    };
    match number_within(text, 0, SECONDS_MOST) {
        Some(seconds) => Ok(seconds),
        None => Err(ValueWord::Seconds),
    }
}

/// How many workers search.
pub(crate) fn workers_of(matches: &ArgMatches) -> Result<u16, ValueWord>
    ensures some { IfOk result (λ workers. 1 ≤ workers) }
    ensures sixteen { IfOk result (λ workers. workers ≤ WORKERS_MOST) }
{
    let Some(text) = matches.get_str("workers") else {
        return Ok(WORKERS_UNSAID);
    };
    match number_within(text, 1, u32::from(WORKERS_MOST)) {
        Some(workers) => Ok(workers as u16),
        None => Err(ValueWord::Workers),
    }
}

/// What the random draws of the first worker begin from.
pub(crate) fn seed_of(matches: &ArgMatches) -> Result<u32, ValueWord> {
    let Some(text) = matches.get_str("seed") else {
        return Ok(SEED_UNSAID);
    };
    match number_within(text, 0, u32::MAX) {
        Some(seed) => Ok(seed),
        None => Err(ValueWord::Seed),
    }
}

/// After how many seconds without a cheaper plan to end, if that is said.
pub(crate) fn quiet_of(matches: &ArgMatches) -> Result<Option<u32>, ValueWord> {
    let Some(text) = matches.get_str("until-quiet") else {
        return Ok(None);
    };
    match number_within(text, 1, SECONDS_MOST) {
        Some(seconds) => Ok(Some(seconds)),
        None => Err(ValueWord::UntilQuiet),
    }
}

/// What each duty counts that isn't kept, if that is said.
pub(crate) fn change_of(matches: &ArgMatches) -> Result<Option<u32>, ValueWord> {
    let Some(text) = matches.get_str("change") else {
        return Ok(None);
    };
    match number_within(text, 0, CHANGE_MOST) {
        Some(change) => Ok(Some(change)),
        None => Err(ValueWord::Change),
    }
}

/// What the first day of the planning period is, if that is said: the date behind `--from`, or the weekday behind `--first-day`.
pub(crate) fn first_of(matches: &ArgMatches) -> Result<Option<NamedDay>, ValueWord> {
    let Some(text) = matches.get_str("from") else {
        return Ok(matches.get_str("first-day").and_then(NamedDay::of_weekday));
    };
    match NamedDay::of_date(text) {
        Some(date) => Ok(Some(date)),
        None => Err(ValueWord::From),
    }
}
