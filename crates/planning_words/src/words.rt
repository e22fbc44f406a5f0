//! The words behind a command of the command line, and how the parser of options is told of them.

use clap::{Arg, ArgAction, Command};
use std::alloc::{AllocError, Global};

/// The words for what ends a search.
const STOPS: &[&str] = &["line", "enter"];

/// The words for the weekday of the first day.
const WEEKDAYS: &[&str] = &[
    "monday",
    "tuesday",
    "wednesday",
    "thursday",
    "friday",
    "saturday",
    "sunday",
];

/// What stands behind a word.
#[derive(Clone, Copy)]
enum Behind {
    /// Nothing, for the word itself is a value, and has to be there.
    Itself,
    /// Nothing, for the word says enough.
    Nothing,
    /// A value, which help calls so.
    Value(&'static str),
    /// A value that may begin with a hyphen, which help calls so.
    Number(&'static str),
    /// One of these values, which help calls so.
    OneOf(&'static str, &'static [&'static str]),
}

/// What a word means for another one.
#[derive(Clone, Copy)]
enum Beside {
    /// Nothing.
    Any,
    /// It stands beside this one alone.
    Needs(&'static str),
    /// It doesn't stand beside this one.
    Bars(&'static str),
}

/// A word behind a command.
#[derive(Clone, Copy)]
pub(crate) struct Word {
    name: &'static str,
    behind: Behind,
    beside: Beside,
    help: &'static str,
}

/// The word for the instance.
pub(crate) const INSTANCE: Word = Word {
    name: "INSTANCE",
    behind: Behind::Itself,
    beside: Beside::Any,
    help: "The file of the instance document",
};

/// The word for the other plan's instance.
pub(crate) const OTHER_INSTANCE: Word = Word {
    name: "OTHER_INSTANCE",
    behind: Behind::Itself,
    beside: Beside::Any,
    help: "The file of the other plan's instance document",
};

/// The word for the report.
pub(crate) const REPORT: Word = Word {
    name: "REPORT",
    behind: Behind::Itself,
    beside: Beside::Any,
    help: "The file of the report",
};

/// The word for the other plan's report.
pub(crate) const OTHER_REPORT: Word = Word {
    name: "OTHER_REPORT",
    behind: Behind::Itself,
    beside: Beside::Any,
    help: "The file of the other plan's report",
};

/// The word for the folder of the tables.
pub(crate) const FOLDER: Word = Word {
    name: "FOLDER",
    behind: Behind::Itself,
    beside: Beside::Any,
    help: "The folder of the tables settings.csv, need.csv, types.csv and rules.csv",
};

/// The word for the folder of a plan.
pub(crate) const OUT: Word = Word {
    name: "out",
    behind: Behind::Value("FOLDER"),
    beside: Beside::Any,
    help: "The folder for the plan [default: beside the instance, with the ending .plan]",
};

/// The word for the journal.
pub(crate) const JOURNAL: Word = Word {
    name: "journal",
    behind: Behind::Value("FILE"),
    beside: Beside::Any,
    help: "The file that keeps the search [default: beside the instance, with the ending .journal]",
};

/// The word for the time to search.
pub(crate) const SECONDS: Word = Word {
    name: "seconds",
    behind: Behind::Number("T"),
    beside: Beside::Any,
    help: "How long to search, in seconds; 0 writes the plan that the journal holds [default: 60]",
};

/// The word for the time to search for breaks.
pub(crate) const BREAK_SECONDS: Word = Word {
    name: "seconds",
    behind: Behind::Number("T"),
    beside: Beside::Any,
    help: "How long to search at most, in seconds [default: 60]",
};

/// The word for the number of workers.
pub(crate) const WORKERS: Word = Word {
    name: "workers",
    behind: Behind::Number("W"),
    beside: Beside::Any,
    help: "How many workers search at the same time, 1 to 16 [default: 4]",
};

/// The word for what random draws begin from.
pub(crate) const SEED: Word = Word {
    name: "seed",
    behind: Behind::Number("S"),
    beside: Beside::Any,
    help: "What the random draws begin from, a whole number: another one may find another plan [default: 1]",
};

/// The word that asks for a new beginning.
pub(crate) const ANEW: Word = Word {
    name: "anew",
    behind: Behind::Nothing,
    beside: Beside::Any,
    help: "Begin again: the journal that stands is kept under another name",
};

/// The word for what ends a search before its time.
pub(crate) const STOP_ON: Word = Word {
    name: "stop-on",
    behind: Behind::OneOf("WHAT", STOPS),
    beside: Beside::Any,
    help: "End the search at a line of standard input or at its end; with enter the line of progress says so [default: at Enter, on a terminal]",
};

/// The word for the time without a cheaper plan after which a search ends.
pub(crate) const UNTIL_QUIET: Word = Word {
    name: "until-quiet",
    behind: Behind::Number("T"),
    beside: Beside::Any,
    help: "End the search after so many seconds without a cheaper plan [default: never]",
};

/// The word for the weekday of the first day.
pub(crate) const FIRST_DAY: Word = Word {
    name: "first-day",
    behind: Behind::OneOf("WEEKDAY", WEEKDAYS),
    beside: Beside::Bars("from"),
    help: "The weekday of the first day, for the page of the plan",
};

/// The word for the date of the first day.
pub(crate) const FROM: Word = Word {
    name: "from",
    behind: Behind::Value("DATE"),
    beside: Beside::Any,
    help: "The date of the first day, as 2026-12-01, for the page of the plan",
};

/// The word for the report of the plan to keep.
pub(crate) const LIKE: Word = Word {
    name: "like",
    behind: Behind::Value("REPORT"),
    beside: Beside::Needs("of"),
    help: "Keep what can be kept of the plan of this report; --of names its instance",
};

/// The word for the instance of the plan to keep.
pub(crate) const OF: Word = Word {
    name: "of",
    behind: Behind::Value("OLD_INSTANCE"),
    beside: Beside::Needs("like"),
    help: "The instance document of the report that --like names",
};

/// The word for what a duty counts that isn't kept.
pub(crate) const CHANGE: Word = Word {
    name: "change",
    behind: Behind::Number("C"),
    beside: Beside::Needs("like"),
    help: "What each duty counts that isn't kept, beside the cost of the plan [default: excess, or 1]",
};

/// A word of that name with a value.
fn valued<'a>(word: Arg<'a>, name: &'static str, value: &'static str) -> Arg<'a> {
    word.long(name).value_name(value)
}

impl Word {
    /// A word with what stands behind it.
    fn with_behind<'a>(&self, word: Arg<'a>) -> Arg<'a> {
        let name = self.name;
        match self.behind {
            Behind::Itself => word.required(true),
            Behind::Nothing => word.long(name).action(ArgAction::SetTrue),
            Behind::Value(value) => valued(word, name, value),
            Behind::Number(value) => valued(word, name, value).allow_hyphen_values(true),
            Behind::OneOf(value, all) => valued(word, name, value).value_parser(all),
        }
    }

    /// The word.
    fn arg<'a>(&self, alloc: Global) -> Result<Arg<'a>, AllocError> {
        let word = self.with_behind(Arg::new(alloc, self.name).help(self.help));
        match self.beside {
            Beside::Any => Ok(word),
            Beside::Needs(other) => word.requires_arg(other),
            Beside::Bars(other) => word.conflicts_with(other),
        }
    }
}

/// A command with these words behind what it has.
pub(crate) fn with_words<'a>(
    alloc: Global,
    command: Command<'a>,
    words: &[Word],
) -> Result<Command<'a>, AllocError> {
    let mut command = command;
    for word in words {
        command = command.arg(word.arg(alloc)?)?;
    }
    Ok(command)
}
