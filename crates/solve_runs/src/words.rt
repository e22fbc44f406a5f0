//! The journal that the words of a command line name.

ghost use Rattle.std.specs.Prelude.{map, option_map, string_bytes, IfOk};
ghost use Rattle.solve_runs.specs.Words.{IsPathIn};

use solve_words::{Command, command_of};
use std::alloc::{AllocError, Global};

/// The JOURNAL word, and none where the words have none or are no command.
pub fn journal_path(alloc: Global, words: &[String]) -> Result<Option<String>, AllocError>
    ensures { IfOk result (λ path. IsPathIn (map string_bytes words.now) (option_map string_bytes path)) }
{
    match command_of(alloc, words)? {
        Some(Command::Search { journal, .. }) => Ok(Some(String::from_str(alloc, journal)?)),
        Some(Command::Demo { .. }) => Ok(None),
        None => Ok(None),
    }
}
