//! What is said of break rules that aren't well formed.
use crate::found::{entries, entry, member, number, number_of, shown, type_at};
use crate::ranges::minutes_hint;
use break_rules::RuleFault;
use serde_json::Value;
use std::alloc::{AllocError, Global};

/// The most slots of a shift, which no time of a rule passes.
const LONGEST: u64 = 288;

/// The most slots of a break, which no break time of a rule passes.
const BREAK_MOST: u64 = 48;

/// What is said of two numbers of a rule that are no range.
fn no_range(
    alloc: Global,
    document: Option<&Value>,
    breaks: Option<&Value>,
    name: &str,
    most: u64,
) -> Result<String, AllocError> {
    let (least_name, most_name) = if name == "work" {
        ("work_min", "work_max")
    } else {
        ("size_min", "size_max")
    };
    let (low, high) = (number_of(breaks, least_name), number_of(breaks, most_name));
    let hint = minutes_hint(alloc, document, high, most)?;
    format!(in alloc;
        " is {low} and {most_name} is {high}; they are slots, with {least_name} from 1 to {most_name} and {most_name} at most {most}{hint}"
    )
}

/// Whether the entry behind one of the totals counts from no greater length.
fn falls(totals: &[Value], at: usize) -> bool {
    number_of_entry(totals.get(at.saturating_add(1)), 0) <= number_of_entry(totals.get(at), 0)
}

/// A number of an entry.
fn number_of_entry(row: Option<&Value>, place: usize) -> u64 {
    number(entry(row, place))
}

/// What is said of totals whose lengths don't rise.
fn totals(alloc: Global, breaks: Option<&Value>) -> Result<String, AllocError> {
    let list = entries(member(breaks, "totals"));
    let pairs = list.len().saturating_sub(1);
    let at = (0..pairs).find(|at| falls(list, *at)).unwrap_or(0);
    let next = at.saturating_add(1);
    let before = shown(alloc, list.get(at))?;
    let behind = shown(alloc, list.get(next))?;
    format!(in alloc;
        "[{at}] is {before}, and totals[{next}] is {behind}; an entry is [from, total] in slots, and from rises from entry to entry"
    )
}

/// What is wrong with a lunch by itself.
fn lunch_fault(row: &Value) -> Option<&'static str> {
    let of = |place: usize| number_of_entry(Some(row), place);
    if of(1) == 0 {
        Some("its size is 0")
    } else if of(3) < of(2).saturating_add(of(1)) {
        Some("its size doesn't fit between first and last")
    } else {
        None
    }
}

/// What is said of lunches that have no room or aren't in order.
fn lunches(alloc: Global, breaks: Option<&Value>) -> Result<String, AllocError> {
    let list = entries(member(breaks, "lunches"));
    let bad = list.iter().position(|row| lunch_fault(row).is_some());
    let at = bad.unwrap_or(1);
    let found = shown(alloc, list.get(at))?;
    let why = match list.get(at) {
        Some(row) => lunch_fault(row).unwrap_or("it begins before the lunch before it ends"),
        None => "it has no room",
    };
    format!(in alloc;
        "[{at}] is {found}: {why}. An entry is [from_len, size, first, last] in slots, and size slots fit between first and last"
    )
}

/// What is said of a time of resettling that a rule may not have.
fn resettling(alloc: Global, breaks: Option<&Value>) -> Result<String, AllocError> {
    let found = number_of(breaks, "resettle");
    let work = number_of(breaks, "work_min");
    format!(in alloc; " is {found}, and it is 0 or 1 slot and at most work_min, which is {work}")
}

/// The first number of a rule that is too large, with the greatest that it may be.
fn large_number(breaks: Option<&Value>) -> Option<(&'static str, u64)> {
    if LONGEST < number_of(breaks, "lead") {
        Some(("lead", LONGEST))
    } else if LONGEST < number_of(breaks, "tail") {
        Some(("tail", LONGEST))
    } else if LONGEST < number_of(breaks, "long_work") {
        Some(("long_work", LONGEST))
    } else if BREAK_MOST < number_of(breaks, "long_rest") {
        Some(("long_rest", BREAK_MOST))
    } else {
        None
    }
}

/// Whether an entry of the totals is too large.
fn is_large_total(row: &Value) -> bool {
    LONGEST < number_of_entry(Some(row), 0) || BREAK_MOST < number_of_entry(Some(row), 1)
}

/// Whether a lunch is too large.
fn is_large_lunch(row: &Value) -> bool {
    LONGEST < number_of_entry(Some(row), 0) || LONGEST < number_of_entry(Some(row), 3)
}

/// A hint that an entry was meant in minutes, by its first number and by another one with the most that this one may be.
fn entry_hint(
    alloc: Global,
    document: Option<&Value>,
    first: u64,
    other: u64,
    most: u64,
) -> Result<String, AllocError> {
    if LONGEST < first {
        minutes_hint(alloc, document, first, LONGEST)
    } else {
        minutes_hint(alloc, document, other, most)
    }
}

/// What is said of an entry of the totals that is too large.
fn large_total(
    alloc: Global,
    document: Option<&Value>,
    row: Option<&Value>,
    at: usize,
) -> Result<String, AllocError> {
    let (from, total) = (number_of_entry(row, 0), number_of_entry(row, 1));
    let found = shown(alloc, row)?;
    let hint = entry_hint(alloc, document, from, total, BREAK_MOST)?;
    format!(in alloc;
        "totals[{at}] is {found}; from is at most 288 slots, and a total at most 48 slots{hint}"
    )
}

/// What is said of a lunch that is too large.
fn large_lunch(
    alloc: Global,
    document: Option<&Value>,
    row: Option<&Value>,
    at: usize,
) -> Result<String, AllocError> {
    let (from, last) = (number_of_entry(row, 0), number_of_entry(row, 3));
    let found = shown(alloc, row)?;
    let hint = entry_hint(alloc, document, from, last, LONGEST)?;
    format!(in alloc; "lunches[{at}] is {found}; from_len and last are at most 288 slots{hint}")
}

/// What is said of a list with too many or too large entries.
fn large_entry(
    alloc: Global,
    document: Option<&Value>,
    breaks: Option<&Value>,
) -> Result<String, AllocError> {
    let totals = entries(member(breaks, "totals"));
    if let Some(at) = totals.iter().position(is_large_total) {
        return large_total(alloc, document, totals.get(at), at);
    }
    let lunches = entries(member(breaks, "lunches"));
    if let Some(at) = lunches.iter().position(is_large_lunch) {
        return large_lunch(alloc, document, lunches.get(at), at);
    }
    let (count, wanted) = (totals.len(), lunches.len());
    if 16 < count {
        return format!(in alloc; "totals has {count} entries, and at most 16 are allowed");
    }
    format!(in alloc; "lunches has {wanted} entries, and at most 2 are allowed")
}

/// What is said of a rule with a number or a list that is too large.
fn too_large(
    alloc: Global,
    document: Option<&Value>,
    breaks: Option<&Value>,
) -> Result<String, AllocError> {
    match large_number(breaks) {
        Some((name, most)) => {
            let found = number_of(breaks, name);
            let hint = minutes_hint(alloc, document, found, most)?;
            format!(in alloc; "{name} is {found}, and it is at most {most} slots{hint}")
        }
        None => large_entry(alloc, document, breaks),
    }
}

/// What is said of the break rule of a type that isn't well formed, behind its place.
pub(crate) fn ill_formed(
    alloc: Global,
    document: Option<&Value>,
    kind: u64,
    why: RuleFault,
) -> Result<String, AllocError> {
    let breaks = member(type_at(document, kind), "breaks");
    match why {
        RuleFault::WorkRange => no_range(alloc, document, breaks, "work", LONGEST),
        RuleFault::SizeRange => no_range(alloc, document, breaks, "size", BREAK_MOST),
        RuleFault::TotalsOrder => totals(alloc, breaks),
        RuleFault::LunchOrder => lunches(alloc, breaks),
        RuleFault::Resettle => resettling(alloc, breaks),
        RuleFault::TooLarge => too_large(alloc, document, breaks),
    }
}
