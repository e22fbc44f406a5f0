//! The words of the command line.

ghost use Rattle.std.specs.Prelude.{◌≡◌, map, string_bytes};
ghost use Rattle.std.specs.Option.{option_map};
ghost use Rattle.check_runs.specs.Words.{command_of, is_file, request_of};

/// What is done with a report.
#[derive(Clone, Copy, PartialEq, Eq, Drop)]
pub enum Command {
    /// Its proof is judged: its lines, its bound, its rows and their cost.
    Check,
    /// Its rows are judged and their cost is counted again, whatever it claims.
    Recount,
}

/// The files that a command names.
#[derive(Clone, Copy, Drop)]
pub struct Files<'a> {
    /// The path of the instance document.
    pub instance: &'a str,
    /// The path of the report.
    pub report: &'a str,
}

/// What the words of a command line ask for.
#[derive(Clone, Copy, Drop)]
pub struct Request<'a> {
    /// The command.
    pub command: Command,
    /// Its files.
    pub files: Files<'a>,
}

/// Whether a word may name a file: it isn't empty and doesn't begin with `-`.
pub fn may_be_file(word: &str) -> bool
    ensures { result ≡ is_file word.now }
{
    match word.as_bytes() {
        [] => false,
        [first, ..] => *first != b'-',
    }
}

/// The command of that name.
fn command_of(name: &str) -> Option<Command>
    ensures { result ≡ command_of name.now }
{
    if name == "check" {
        Some(Command::Check)
    } else if name == "recount" {
        Some(Command::Recount)
    } else {
        None
    }
}

/// What `check INSTANCE REPORT` and `recount INSTANCE REPORT` ask for, and `None` of any other words.
pub fn request_of(words: &[String]) -> Option<Request<'_>>
    ensures { option_map (λ r. record { command = r.command; files = record { instance = r.files.instance.now; report = r.files.report.now } }) result ≡ request_of (map string_bytes words.now) }
{
    match words {
        [name, instance, report] => {
            let command = command_of(name.as_str())?;
            let instance = instance.as_str();
            let report = report.as_str();
            if may_be_file(instance) && may_be_file(report) {
                let files = Files { instance, report };
                Some(Request { command, files })
            } else {
                None
            }
        }
        _ => None,
    }
}
