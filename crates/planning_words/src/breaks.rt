//! The words that ask for the breaks of a report's plan to be planned anew.

ghost use Rattle.std.specs.Prelude.{◌≤◌, IfOk};

use crate::numbers::{ValueWord, first_of, seconds_of, seed_of};
use crate::wanted::{StopOn, stop_on};
use clap::ArgMatches;
use day_names::NamedDay;

/// The words that ask for the breaks of a report's plan to be planned anew.
#[derive(Clone, Copy, Drop)]
pub struct BreaksWords<'a> {
    /// The file of the instance document.
    pub instance: &'a str,
    /// The file of the report.
    pub report: &'a str,
    /// How long to search at most, in seconds.
    pub seconds: u32,
    /// What the random draws begin from.
    pub seed: u32,
    /// The folder for the plan, if it is said.
    pub out: Option<&'a str>,
    /// At what else the search is to end, if it is said.
    pub stop_on: Option<StopOn>,
    /// What the first day of the planning period is, if it is said.
    pub first: Option<NamedDay>,
}

/// What the words behind `breaks` ask for, or the first word that has a value which it doesn't take.
pub(crate) fn breaks_words<'a>(matches: &ArgMatches<'a>) -> Result<BreaksWords<'a>, ValueWord>
    ensures { IfOk result (λ words. words.seconds ≤ 4000000) }
{
    let seconds = seconds_of(matches)?;
    let seed = seed_of(matches)?;
    let first = first_of(matches)?;
    Ok(BreaksWords {
        // required words are there
        instance: matches.get_str("INSTANCE").unwrap_or(""),
        report: matches.get_str("REPORT").unwrap_or(""),
        seconds,
        seed,
        out: matches.get_str("out"),
        stop_on: matches.get_str("stop-on").map(stop_on),
        first,
    })
}
