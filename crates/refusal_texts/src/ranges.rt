//! What is said of numbers out of their ranges.
ghost use Rattle.std.specs.Prelude.{◌<◌};

use crate::found::{entries, member, minutes_of, number, number_of, shown, type_at};
use crate::rules::ill_formed;
use serde_json::Value;
use shift_instance::InstanceFault;
use std::alloc::{AllocError, Global};

/// The minutes of a day.
const DAY: u64 = 1440;

/// A hint that a number was meant in minutes, where it is too large as slots and fits as minutes.
pub(crate) fn minutes_hint(
    alloc: Global,
    document: Option<&Value>,
    found: u64,
    most: u64,
) -> Result<String, AllocError> {
    let minutes = minutes_of(document);
    let slots = found / minutes;
    if found <= most || slots == 0 || most < slots {
        return Ok(String::new(alloc));
    }
    let noun = if slots == 1 { "slot" } else { "slots" };
    format!(in alloc;
        ". Times are slots: {found} minutes would be {slots} {noun} of {minutes} minutes"
    )
}

/// What is said of a list of needs, or of their greatest numbers, that isn't as long as the planning period.
fn need_length(
    alloc: Global,
    document: Option<&Value>,
    found: u64,
    wanted: u64,
) -> Result<String, AllocError> {
    let days = number_of(document, "days");
    let minutes = minutes_of(document);
    let day = wanted / days.max(1);
    let hint = if found == days.saturating_mul(24) {
        ". One for each hour was given: write each as often as an hour has slots"
    } else if found == day {
        ". Those of one day were given: all days are listed, one behind the other"
    } else {
        ""
    };
    format!(in alloc;
        " has {found} numbers and must have {wanted}, one for each slot: days is {days}, and a day has {day} slots of {minutes} minutes{hint}"
    )
}

/// The name of the first weight that is too large.
fn large_weight(document: Option<&Value>) -> &'static str {
    let weights = member(document, "weights");
    if 1_000_000 < number_of(weights, "excess") {
        "excess"
    } else if 1_000_000 < number_of(weights, "shortage") {
        "shortage"
    } else {
        "shift"
    }
}

/// What is said of a weight that is too large.
fn weight(alloc: Global, document: Option<&Value>) -> Result<String, AllocError> {
    let name = large_weight(document);
    let found = number_of(member(document, "weights"), name);
    format!(in alloc;
        "{name} is {found}, and a weight is from 0 to 1,000,000; only their ratios count, so all three may be divided by one number"
    )
}

/// A hint that a start before the first one was meant on the next day, where it has room there.
fn next_day_hint(alloc: Global, minutes: u64, low: u64, high: u64) -> Result<String, AllocError>
    requires { 0 < minutes }
{
    let day = DAY / minutes;
    if low <= high || day <= high {
        return Ok(String::new(alloc));
    }
    let time = high.saturating_mul(minutes) % DAY;
    let (hour, minute) = (time / 60, time % 60);
    let next = high.saturating_add(day);
    format!(in alloc;
        ". Starts on the next day go on behind the slots of a day: {}{}:{}{} on the next day is {next}",
        hour / 10,
        hour % 10,
        minute / 10,
        minute % 10
    )
}

/// What is said of the starts of a type that are no range.
fn starts(alloc: Global, document: Option<&Value>, kind: u64) -> Result<String, AllocError> {
    let parts = type_at(document, kind);
    let (low, high) = (number_of(parts, "start_min"), number_of(parts, "start_max"));
    let minutes = minutes_of(document);
    let most = (2 * DAY / minutes).saturating_sub(1);
    let hint = minutes_hint(alloc, document, high, most)?;
    let next_day = next_day_hint(alloc, minutes, low, high)?;
    format!(in alloc;
        " is {low} and start_max is {high}; they are slots of {minutes} minutes counted from midnight, with start_min at most start_max and start_max at most {most}{hint}{next_day}"
    )
}

/// What is said of the lengths of a type that are no range.
fn lengths(alloc: Global, document: Option<&Value>, kind: u64) -> Result<String, AllocError> {
    let parts = type_at(document, kind);
    let (low, high) = (number_of(parts, "len_min"), number_of(parts, "len_max"));
    let minutes = minutes_of(document);
    let most = DAY / minutes;
    let hint = minutes_hint(alloc, document, high, most)?;
    format!(in alloc;
        " is {low} and len_max is {high}; they are slots of {minutes} minutes, with len_min from 1 to len_max and len_max at most {most}, a day{hint}"
    )
}

/// The place of the first type before one that has its name.
fn namesake(document: Option<&Value>, kind: u64, name: &str) -> Option<usize> {
    let types = member(document, "types");
    entries(types).iter().take(kind as usize).position(|other| member(Some(other), "name").and_then(
        Value::as_str,
    ) == Some(name))
}

/// What is wrong with the name of a type.
fn name_fault(alloc: Global, name: &str) -> Result<String, AllocError> {
    if name.is_empty() {
        String::from_str(alloc, "it has no letter")
    } else if name.contains(' ') {
        String::from_str(alloc, "it has a blank; write - or _ for it")
    } else if !name.is_ascii() {
        String::from_str(
            alloc,
            "it has a letter or a sign that isn't ASCII, as an umlaut",
        )
    } else if 32 < name.len() {
        let len = name.len();
        format!(in alloc; "it has {len} letters")
    } else {
        String::from_str(alloc, "it has a sign that isn't visible")
    }
}

/// What is said of the name of a type that is none or is taken.
fn name(alloc: Global, document: Option<&Value>, kind: u64) -> Result<String, AllocError> {
    let value = member(type_at(document, kind), "name");
    let found = shown(alloc, value)?;
    let name = value.and_then(Value::as_str).unwrap_or("");
    if let Some(other) = namesake(document, kind, name) {
        return format!(in alloc;
            " is {found}, as that of types[{other}]; each type has a name of its own"
        );
    }
    let why = name_fault(alloc, name)?;
    format!(in alloc;
        " is {found}: {why}. A name has 1 to 32 letters, digits and signs of ASCII, and no blank"
    )
}

/// How many shifts a type has.
fn count_of(kind: &Value) -> u64 {
    let of = |name: &str| number_of(Some(kind), name);
    let starts = of("start_max")
        .saturating_sub(of("start_min"))
        .saturating_add(1);
    let lengths = of("len_max")
        .saturating_sub(of("len_min"))
        .saturating_add(1);
    starts.saturating_mul(lengths)
}

/// The place of the type with the most shifts, and how many these are.
fn widest(document: Option<&Value>) -> (usize, u64) {
    let mut widest = (0, 0);
    for (place, kind) in entries(member(document, "types")).iter().enumerate() {
        let count = count_of(kind);
        if widest.1 < count {
            widest = (place, count);
        }
    }
    widest
}

/// What is said of too many shifts.
fn shifts(alloc: Global, document: Option<&Value>, found: u64) -> Result<String, AllocError> {
    let (place, count) = widest(document);
    format!(in alloc;
        " have {found} shifts together, a type one for each start and length; at most 1,024 are allowed, and types[{place}] alone has {count}"
    )
}

/// What is said of the need of a slot that is too large.
fn need(alloc: Global, document: Option<&Value>, slot: u64) -> Result<String, AllocError> {
    let list = entries(member(document, "need"));
    let found = number(list.get(slot as usize));
    format!(in alloc; " is {found}, and a slot needs from 0 to 10,000 employees")
}

/// A time of the clock, with two digits for the hour and for the minute.
fn clock(alloc: Global, minute: u64) -> Result<String, AllocError> {
    let (hour, rest) = (minute / 60, minute % 60);
    let early = if hour < 10 { "0" } else { "" };
    let zero = if rest < 10 { "0" } else { "" };
    format!(in alloc; "{early}{hour}:{zero}{rest}")
}

/// What is said of a band that ends below its need, or is too large.
fn band(alloc: Global, document: Option<&Value>, slot: u64) -> Result<String, AllocError> {
    let least = number(entries(member(document, "need")).get(slot as usize));
    let most = number(entries(member(document, "need_max")).get(slot as usize));
    let minute = slot.saturating_mul(minutes_of(document));
    let day = (minute / DAY).saturating_add(1);
    let time = clock(alloc, minute % DAY)?;
    format!(in alloc;
        " is {most} and need[{slot}] is {least}, for the slot of day {day} that begins at {time}; the most wanted employees are from the need to 10,000"
    )
}

/// What is said of numbers that make no instance, behind their place.
pub(crate) fn invalid(
    alloc: Global,
    document: Option<&Value>,
    fault: &InstanceFault,
) -> Result<String, AllocError> {
    match fault {
        InstanceFault::SlotMinutes => {
            let found = number_of(document, "slot_minutes");
            format!(in alloc; " is {found}, and a slot has 5, 10, 15, 20, 30 or 60 minutes")
        }
        InstanceFault::Days => {
            let found = number_of(document, "days");
            format!(in alloc; " is {found}, and the planning period has from 1 to 7 days")
        }
        InstanceFault::NeedLength { found, wanted } => {
            need_length(alloc, document, *found, *wanted)
        }
        InstanceFault::NeedTooLarge { slot } => need(alloc, document, *slot),
        InstanceFault::BandLength { found, wanted } => {
            need_length(alloc, document, *found, *wanted)
        }
        InstanceFault::Band { slot } => band(alloc, document, *slot),
        InstanceFault::Weight => weight(alloc, document),
        InstanceFault::Heads => {
            let found = number_of(document, "max_heads");
            format!(in alloc;
                " is {found}, and from 1 to 200 employees may work one shift on one day"
            )
        }
        InstanceFault::Types { found } => {
            format!(in alloc; " has {found} entries, and there are from 1 to 16 shift types")
        }
        InstanceFault::StartRange { kind } => starts(alloc, document, u64::from(*kind)),
        InstanceFault::LengthRange { kind } => lengths(alloc, document, u64::from(*kind)),
        InstanceFault::Rule { kind, why } => ill_formed(alloc, document, u64::from(*kind), *why),
        InstanceFault::TooManyShifts { found } => shifts(alloc, document, *found),
        InstanceFault::Name { kind } => name(alloc, document, u64::from(*kind)),
        InstanceFault::NoMemory => {
            String::from_str(alloc, "there was no memory to read the document")
        }
    }
}
