//! The commands of the command line.

use crate::words::{
    ANEW, BREAK_SECONDS, CHANGE, FIRST_DAY, FOLDER, FROM, INSTANCE, JOURNAL, LIKE, OF,
    OTHER_INSTANCE, OTHER_REPORT, OUT, REPORT, SECONDS, SEED, STOP_ON, UNTIL_QUIET, WORKERS, Word,
    with_words,
};
use clap::Command;
use std::alloc::{AllocError, Global};

/// What the program does.
const ABOUT: &str =
    "Plans shifts: from the employees wanted in each slot to duties with their breaks.";

const EXAMPLES: &str = "\
Examples:
  shift_plan plan week.json --seconds 60
      Searches for a minute and writes the plan to the folder week.plan.
      The search is kept in week.journal: the same line again goes on from there.

  shift_plan plan week.json --seconds 600 --workers 8 --out rota
      Searches for ten minutes with eight workers and writes the plan to the folder rota.

  shift_plan show week.json week.plan/report --from 2026-12-07
      Judges a report that stands and shows its plan once more, with dates on its page.

  shift_plan check week.json week.plan/report
      Judges a report that stands and says what came of it.

  shift_plan plan changed.json --like week.plan/report --of week.json
      Searches for a plan of the changed instance that keeps what it can of the plan of week.json.

  shift_plan compare week.json week.plan/report changed.json changed.plan/report
      Says which duties the two plans have in common, and what each costs.

  shift_plan breaks week.json week.plan/report
      Plans the breaks of the plan in week.plan anew and puts the cheaper plan there; each shift keeps its duties on each day.

  shift_plan rules week.json
      Says the rules of the instance back, in clock time.

  shift_plan import tables week.json
      Writes the document of the tables settings.csv, need.csv, types.csv and rules.csv in the folder tables.

  shift_plan export week.json tables
      Writes the tables of a document to the folder tables.";

/// A command, and the words behind it.
#[derive(Clone, Copy)]
struct Verb {
    name: &'static str,
    about: &'static str,
    words: &'static [Word],
}

/// The commands in the order of the help.
const VERBS: &[Verb] = &[
    Verb {
        name: "plan",
        about: "Searches for a cheapest plan and writes it",
        words: &[
            INSTANCE,
            JOURNAL,
            SECONDS,
            UNTIL_QUIET,
            WORKERS,
            SEED,
            OUT,
            FIRST_DAY,
            FROM,
            STOP_ON,
            LIKE,
            OF,
            CHANGE,
            ANEW,
        ],
    },
    Verb {
        name: "show",
        about: "Judges a report that stands and shows its plan",
        words: &[INSTANCE, REPORT, OUT, FIRST_DAY, FROM],
    },
    Verb {
        name: "check",
        about: "Judges a report that stands and says what came of it",
        words: &[INSTANCE, REPORT],
    },
    Verb {
        name: "compare",
        about: "Says which duties two plans have in common, and what each costs",
        words: &[INSTANCE, REPORT, OTHER_INSTANCE, OTHER_REPORT],
    },
    Verb {
        name: "breaks",
        about: "Plans the breaks of a report's plan anew, each shift with as many duties on each day, and writes the plan",
        words: &[
            INSTANCE,
            REPORT,
            BREAK_SECONDS,
            SEED,
            OUT,
            FIRST_DAY,
            FROM,
            STOP_ON,
        ],
    },
    Verb {
        name: "rules",
        about: "Says the rules of an instance back, in clock time",
        words: &[INSTANCE],
    },
    Verb {
        name: "import",
        about: "Writes the instance document of tables that a spreadsheet wrote",
        words: &[FOLDER, INSTANCE],
    },
    Verb {
        name: "export",
        about: "Writes the tables of an instance document, for a spreadsheet",
        words: &[INSTANCE, FOLDER],
    },
];

/// The program with what help says of it.
fn described<'a>(alloc: Global) -> Command<'a> {
    Command::new(alloc, "shift_plan")
        .about(ABOUT)
        .after_help(EXAMPLES)
}

/// The program without its commands.
fn program<'a>(alloc: Global) -> Command<'a> {
    described(alloc)
        .subcommand_required(true)
        .arg_required_else_help(true)
}

impl Verb {
    /// The command.
    fn command<'a>(&self, alloc: Global) -> Result<Command<'a>, AllocError> {
        let command = Command::new(alloc, self.name).about(self.about);
        with_words(alloc, command, self.words)
    }
}

/// The whole command line.
pub(crate) fn command<'a>(alloc: Global) -> Result<Command<'a>, AllocError> {
    let mut whole = program(alloc);
    for verb in VERBS {
        whole = whole.subcommand(verb.command(alloc)?)?;
    }
    Ok(whole)
}
