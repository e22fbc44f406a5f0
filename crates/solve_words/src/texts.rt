//! The texts that a command line gives.

ghost use Rattle.std.specs.Prelude.{◌≡◌, false, map, string_bytes, option_map, IfOk};
ghost use Rattle.std.specs.List.{list_any};
ghost use Rattle.clap.specs.Words.{app_of, rule_of};
ghost use Rattle.solve_words.specs.Asked.{given};
ghost use Rattle.solve_words.specs.Options.{option_rule, flag_rule, bare_app, with_options, with_flags, is_separator, options_app};
ghost use Rattle.solve_words.specs.Words.{IsFoundIn};

use clap::error::ErrorKind;
use clap::{Arg, ArgAction, Command};
use std::alloc::{AllocError, Global};

/// The texts of a command line behind `solve`: the path of the journal, the digits of each option, and whether each flag
/// is there.
#[derive(Clone, Copy, Drop)]
pub(crate) struct Texts<'a> {
    pub journal: Option<&'a str>,
    pub workers: Option<&'a str>,
    pub steps: Option<&'a str>,
    pub demo: Option<&'a str>,
    pub table: bool,
    pub local: bool,
    pub thorough: bool,
    pub turns: bool,
}

/// An option with a value.
fn option_word<'a>(alloc: Global, name: &'a str) -> Arg<'a>
    ensures rule { rule_of result ≡ option_rule name.entry.now }
    ensures own { result.global ≡ false }
{
    Arg::new(alloc, name).long(name)
}

/// An option without one.
fn flag_word<'a>(alloc: Global, name: &'a str) -> Arg<'a>
    ensures rule { rule_of result ≡ flag_rule name.entry.now }
    ensures own { result.global ≡ false }
{
    Arg::new(alloc, name).long(name).action(ArgAction::SetTrue)
}

/// A parser of no words, which knows no program's name and offers no help.
fn bare_command<'a>(alloc: Global) -> Command<'a>
    ensures { app_of result ≡ bare_app }
{
    Command::new(alloc, "solve")
        .no_binary_name(true)
        .disable_help_flag(true)
}

/// The parser with the options that have a number.
fn with_options<'a>(alloc: Global, command: Command<'a>) -> Result<Command<'a>, AllocError>
    ensures { IfOk result (λ more. app_of more ≡ with_options (app_of command.entry)) }
{
    command
        .arg(option_word(alloc, "workers"))?
        .arg(option_word(alloc, "steps"))?
        .arg(option_word(alloc, "demo"))
}

/// The parser with the flags.
fn with_flags<'a>(alloc: Global, command: Command<'a>) -> Result<Command<'a>, AllocError>
    ensures { IfOk result (λ more. app_of more ≡ with_flags (app_of command.entry)) }
{
    command
        .arg(flag_word(alloc, "table"))?
        .arg(flag_word(alloc, "local"))?
        .arg(flag_word(alloc, "thorough"))?
        .arg(flag_word(alloc, "turns"))
}

/// The options behind `solve`.
fn options<'a>(alloc: Global) -> Result<Command<'a>, AllocError>
    ensures { IfOk result (λ command. app_of command ≡ options_app) }
{
    let command = bare_command(alloc).arg(Arg::new(alloc, "JOURNAL"))?;
    with_flags(alloc, with_options(alloc, command)?)
}

/// Whether a word is `--`.
fn is_separator(word: &str) -> bool
    ensures { result ≡ is_separator word.now }
{
    word == "--"
}

/// Whether one of the words is `--`.
fn has_separator(words: &[String]) -> bool
    ensures { result ≡ list_any (λ word. is_separator (string_bytes word)) words.now }
{
    words.iter().any(|word| is_separator(word.as_str()))
}

/// The texts that words give, and none of words that no parts of a command line are written by. Of texts that ask for nothing the
/// answer may be either.
pub(crate) fn texts_in<'a>(
    alloc: Global,
    words: &'a [String],
) -> Result<Option<Texts<'a>>, AllocError>
    ensures { IfOk result (λ texts. IsFoundIn (map string_bytes words.now) (option_map given texts)) }
{
    if has_separator(words) {
        return Ok(None);
    }
    match options(alloc)?.try_get_matches_from(words) {
        Ok(matches) => Ok(Some(Texts {
            journal: matches.get_str("JOURNAL"),
            workers: matches.get_str("workers"),
            steps: matches.get_str("steps"),
            demo: matches.get_str("demo"),
            table: matches.get_flag("table"),
            local: matches.get_flag("local"),
            thorough: matches.get_flag("thorough"),
            turns: matches.get_flag("turns"),
        })),
        Err(fault) if fault.kind() == ErrorKind::OutOfMemory => Err(AllocError),
        Err(_) => Ok(None),
    }
}
