//! The words that name an older plan: to keep what stands of it, or to compare it.

use crate::numbers::{ValueWord, change_of};
use clap::ArgMatches;

/// The words that name a plan of which a search is to keep what it can.
#[derive(Clone, Copy, Drop)]
pub struct LikeWords<'a> {
    /// The file of its report.
    pub report: &'a str,
    /// The file of its instance document.
    pub of: &'a str,
    /// What each of its duties counts that isn't kept, if it is said: as much as that cost.
    pub change: Option<u32>,
}

/// The words that ask for a comparison of two plans.
#[derive(Clone, Copy, Drop)]
pub struct CompareWords<'a> {
    /// The file of the instance document of the first plan.
    pub instance: &'a str,
    /// The file of its report.
    pub report: &'a str,
    /// The file of the instance document of the second plan.
    pub other_instance: &'a str,
    /// The file of its report.
    pub other_report: &'a str,
}

/// The plan of which a search is to keep what it can, if one is named.
pub(crate) fn like_words<'a>(matches: &ArgMatches<'a>) -> Result<Option<LikeWords<'a>>, ValueWord> {
    let change = change_of(matches)?;
    let Some(report) = matches.get_str("like") else {
        return Ok(None);
    };
    // the word before requires this one
    let of = matches.get_str("of").unwrap_or("");
    Ok(Some(LikeWords { report, of, change }))
}

/// What the words behind `compare` ask for.
pub(crate) fn compare_words<'a>(matches: &ArgMatches<'a>) -> CompareWords<'a> {
    CompareWords {
        // required words are there
        instance: matches.get_str("INSTANCE").unwrap_or(""),
        report: matches.get_str("REPORT").unwrap_or(""),
        other_instance: matches.get_str("OTHER_INSTANCE").unwrap_or(""),
        other_report: matches.get_str("OTHER_REPORT").unwrap_or(""),
    }
}
