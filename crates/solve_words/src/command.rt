//! What a command line asks for.

ghost use Rattle.std.specs.Prelude.{◌≡◌, map, option_map, string_bytes, IfOk, IfSome};
ghost use Rattle.solve_words.specs.Asked.{asked, given, text_of};
ghost use Rattle.solve_words.specs.Words.{asked_in, budget_in, demonstration_of, is_journal, method_in, method_of, number_in, search_on, workers_in, IsReadAs, IsWithin};
ghost use Rattle.solve_words.specs.Words.{demo as demo_setting};

use crate::numbers::number_within;
use crate::texts::{Texts, texts_in};
use std::alloc::{AllocError, Global};

/// The greatest number of workers that may be asked for.
const WORKERS_MOST: u64 = 9_999;

/// The greatest budget of steps that may be asked for.
const STEPS_MOST: u64 = 4_000_000_000;

/// The budget of steps where none is asked for.
const STEPS_USUAL: u64 = 1_000;

/// The greatest number from which an instance may be made.
const DEMO_MOST: u64 = 999_999;

/// How a search looks for plans and prices.
#[derive(Clone, Copy, Drop)]
pub enum Method {
    /// The greedy plan is taken as it is.
    Greedy,
    /// Moves make the greedy plan cheaper.
    Local,
    /// Plans, prices and the classes to split are searched for at length, so a step takes longer and says more.
    Thorough,
}

/// What the words of a command line ask for.
#[derive(Clone, Copy, Drop)]
pub enum Command<'a> {
    /// A search over the journal at a path, by so many workers where the words say how many, of at most so many steps, with the
    /// table of its plan or without, by a method, and by workers who take turns in the order of tickets or not.
    Search {
        journal: &'a str,
        workers: Option<u16>,
        steps: u64,
        table: bool,
        method: Method,
        turns: bool,
    },
    /// A search without a journal, of at most so many steps, for the instance that is made from a number.
    Demo {
        number: u32,
        steps: u64,
    },
}

/// Whether a word may name a journal: it isn't empty and doesn't begin with `-`.
fn may_be_journal(word: &str) -> bool
    ensures { result ≡ is_journal word.now }
{
    match word.as_bytes() {
        [] => false,
        [first, ..] => *first != b'-',
    }
}

/// The budget of steps, a thousand where none is given.
fn budget_in(digits: Option<&str>) -> Option<u64>
    ensures { result ≡ budget_in (text_of digits.entry) }
{
    match digits {
        None => Some(STEPS_USUAL),
        Some(digits) => number_within(0, STEPS_MOST, digits),
    }
}

/// How many workers are asked for, if that is said.
fn workers_in(digits: Option<&str>) -> Option<Option<u16>>
    ensures { result ≡ workers_in (text_of digits.entry) }
{
    match digits {
        None => Some(None),
        Some(digits) => {
            let workers = number_within(1, WORKERS_MOST, digits)?;
            Some(Some(workers as u16))
        }
    }
}

/// The number from which an instance is made.
fn demo_in(digits: &str) -> Option<u32>
    ensures { result ≡ number_in demo_setting digits.now }
{
    let number = number_within(0, DEMO_MOST, digits)?;
    Some(number as u32)
}

/// The method that flags ask for: there is none for both.
fn method_of(local: bool, thorough: bool) -> Option<Method>
    ensures { result ≡ method_of local thorough }
{
    match (local, thorough) {
        (false, false) => Some(Method::Greedy),
        (true, false) => Some(Method::Local),
        (false, true) => Some(Method::Thorough),
        (true, true) => None,
    }
}

/// The method that texts ask for.
fn method_in(texts: &Texts) -> Option<Method>
    ensures { result ≡ method_in (given texts.now) }
{
    method_of(texts.local, texts.thorough)
}

/// The search over the journal at a path.
fn search_on<'a>(journal: &'a str, texts: &Texts<'a>) -> Option<Command<'a>>
    ensures { option_map asked result ≡ search_on journal.now (given texts.now) }
{
    if !may_be_journal(journal) {
        return None;
    }
    let workers = workers_in(texts.workers)?;
    let steps = budget_in(texts.steps)?;
    let table = texts.table;
    let method = method_in(texts)?;
    let turns = texts.turns;
    Some(Command::Search {
        journal,
        workers,
        steps,
        table,
        method,
        turns,
    })
}

/// The demonstration of a number, which has neither workers nor a flag.
fn demonstration_of<'a>(digits: &str, texts: &Texts<'a>) -> Option<Command<'a>>
    ensures { option_map asked result ≡ demonstration_of digits.now (given texts.now) }
{
    if texts.workers.is_some() || texts.table || texts.local || texts.thorough || texts.turns {
        return None;
    }
    let number = demo_in(digits)?;
    let steps = budget_in(texts.steps)?;
    Some(Command::Demo { number, steps })
}

/// What texts ask for: exactly one of a search over a journal and a demonstration.
fn asked_in<'a>(texts: &Texts<'a>) -> Option<Command<'a>>
    ensures { option_map asked result ≡ asked_in (given texts.now) }
{
    match (texts.journal, texts.demo) {
        (Some(journal), None) => search_on(journal, texts),
        (None, Some(digits)) => demonstration_of(digits, texts),
        _ => None,
    }
}

/// What the words of a command line ask for, and none where they are no command. Running out of memory is the one refusal.
///
/// The words are `solve JOURNAL [--workers W] [--steps B] [--table] [--local | --thorough] [--turns]` or `solve --demo N [--steps B]`:
/// `solve` comes first, and the rest in any order, each at most once. The number of an option is the next word, or stands behind `=` in the
/// option's word. A number is one to ten decimal digits. W is from 1 to 9,999, B at most 4,000,000,000 and 1,000 where it isn't
/// given, and N at most 999,999. JOURNAL isn't empty and doesn't begin with `-`.
pub fn command_of<'a>(alloc: Global, words: &'a [String]) -> Result<Option<Command<'a>>, AllocError>
    ensures reads { IfOk result (λ command. IsReadAs (map string_bytes words.now) (option_map asked command)) }
    ensures within { IfOk result (λ command. IfSome command (λ command. IsWithin (asked command))) }
{
    match words {
        [verb, rest @ ..] if verb.as_str() == "solve" => {
            let Some(texts) = texts_in(alloc, rest)? else {
                return Ok(None);
            };
            Ok(asked_in(&texts))
        }
        _ => Ok(None),
    }
}
