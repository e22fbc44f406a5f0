//! The words of the command line.
ghost use Rattle.std.specs.Prelude.{◌≡◌, map, string_bytes};
ghost use Rattle.std.specs.List.{list_all};
ghost use Rattle.std.specs.Option.{option_map};
ghost use Rattle.check_runs.specs.Words.{is_file};
ghost use Rattle.join_runs.specs.Words.{are_files, join_of};

use check_runs::{Files, may_be_file};

/// What `join INSTANCE REPORT PART..` asks for.
#[derive(Clone, Copy, Drop)]
pub struct JoinRequest<'a> {
    /// The document and the report.
    pub files: Files<'a>,
    /// The paths of the parts, at least one.
    pub parts: &'a [String],
}

/// Whether each word may name a file.
fn may_all_be_files(words: &[String]) -> bool
    ensures { result ≡ list_all is_file (map string_bytes words.now) }
{
    for word in words {
        if !may_be_file(word.as_str()) {
            return false;
        }
    }
    true
}

/// Whether each word may name a file, and there is one.
fn may_be_parts(words: &[String]) -> bool
    ensures { result ≡ are_files (map string_bytes words.now) }
{
    match words {
        [] => false,
        [first, rest @ ..] => may_be_file(first.as_str()) && may_all_be_files(rest),
    }
}

/// What `join INSTANCE REPORT PART..` asks for, and `None` of any other words.
pub fn join_of(words: &[String]) -> Option<JoinRequest<'_>>
    ensures { option_map (λ r. record { files = record { instance = r.files.instance.now; report = r.files.report.now }; parts = map string_bytes r.parts.now }) result ≡ join_of (map string_bytes words.now) }
{
    match words {
        [name, instance, report, parts @ ..] => {
            let instance = instance.as_str();
            let report = report.as_str();
            if name.as_str() == "join"
                && may_be_file(instance)
                && may_be_file(report)
                && may_be_parts(parts)
            {
                let files = Files { instance, report };
                Some(JoinRequest { files, parts })
            } else {
                None
            }
        }
        _ => None,
    }
}
