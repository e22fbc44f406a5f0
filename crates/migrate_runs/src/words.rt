//! The words of the command line.

ghost use Rattle.std.specs.Prelude.{◌≡◌, map, string_bytes};
ghost use Rattle.std.specs.Option.{option_map};
ghost use Rattle.migrate_runs.specs.Words.{files_of, is_file};

/// The files that the words name.
#[derive(Clone, Copy, Drop)]
pub struct Files<'a> {
    /// The path of the journal of the first version.
    pub old: &'a str,
    /// The path of the journal that is made of it.
    pub new: &'a str,
}

/// Whether a word may name a file: it isn't empty and doesn't begin with `-`.
fn may_be_file(word: &str) -> bool
    ensures { result ≡ is_file word.now }
{
    match word.as_bytes() {
        [] => false,
        [first, ..] => *first != b'-',
    }
}

/// The files that exactly two words name, where they differ, and `None` of any other words.
pub fn files_of(words: &[String]) -> Option<Files<'_>>
    ensures { option_map (λ f. record { old = f.old.now; new = f.new.now }) result ≡ files_of (map string_bytes words.now) }
{
    match words {
        [old, new] => {
            let old = old.as_str();
            let new = new.as_str();
            if may_be_file(old) && may_be_file(new) && old != new {
                Some(Files { old, new })
            } else {
                None
            }
        }
        _ => None,
    }
}
