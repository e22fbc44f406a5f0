//! What is said of fields that are missing, that no field is, and of values of another kind.
use crate::found::{entries, entry, member, shown, type_at};
use crate::meanings::meaning;
use serde_json::Value;
use std::alloc::{AllocError, Global};
use strsim::levenshtein;

/// The fields of a document.
const OF_DOCUMENT: [&str; 7] = [
    "slot_minutes",
    "days",
    "need",
    "need_max",
    "max_heads",
    "weights",
    "types",
];

/// The fields of the weights.
const OF_WEIGHTS: [&str; 3] = ["excess", "shortage", "shift"];

/// The fields of a shift type.
const OF_TYPE: [&str; 6] = [
    "name",
    "start_min",
    "start_max",
    "len_min",
    "len_max",
    "breaks",
];

/// The fields of a break rule.
const OF_BREAKS: [&str; 11] = [
    "lead",
    "tail",
    "work_min",
    "work_max",
    "long_work",
    "long_rest",
    "size_min",
    "size_max",
    "totals",
    "lunches",
    "resettle",
];

/// In how many letters a name may differ from the field that it is taken for.
const LETTERS_MOST: usize = 2;

/// What is said of a field that is missing.
pub(crate) fn missing(alloc: Global, field: &str) -> Result<String, AllocError> {
    let meaning = meaning(field);
    let hint = if OF_BREAKS.iter().any(|of_breaks| *of_breaks == field) {
        ". A type without breaks has null in place of the object: \"breaks\": null"
    } else {
        ""
    };
    format!(in alloc; " is missing; it stands for {meaning}{hint}")
}

/// The field that a name is likely meant for, if one is near.
fn nearest(
    alloc: Global,
    fields: &'static [&'static str],
    name: &str,
) -> Result<Option<&'static str>, AllocError> {
    let mut nearest = None;
    let mut least = LETTERS_MOST + 1;
    for field in fields {
        let letters = levenshtein(alloc, field, name)?;
        if letters < least {
            least = letters;
            nearest = Some(*field);
        }
    }
    Ok(nearest)
}

/// The object of a document that has a field of a name, and no other object.
fn owner(name: &str) -> Option<&'static str> {
    if OF_DOCUMENT.iter().any(|field| *field == name) {
        Some("the document")
    } else if OF_WEIGHTS.iter().any(|field| *field == name) {
        Some("weights")
    } else if OF_TYPE.iter().any(|field| *field == name) {
        Some("a type")
    } else if OF_BREAKS.iter().any(|field| *field == name) {
        Some("breaks")
    } else {
        None
    }
}

/// Names in a row.
fn listed(alloc: Global, fields: &[&str]) -> Result<String, AllocError> {
    let mut text = String::new(alloc);
    for field in fields {
        if !text.is_empty() {
            text.push_str(", ")?;
        }
        text.push_str(field)?;
    }
    Ok(text)
}

/// What is said of a name that none of an object's fields has.
fn no_field(
    alloc: Global,
    before: &str,
    name: &str,
    fields: &'static [&'static str],
) -> Result<String, AllocError> {
    let fields_there = listed(alloc, fields)?;
    if let Some(owner) = owner(name) {
        return format!(in alloc;
            "{before}{name} is no field here; {name} is a field of {owner}. The fields here are {fields_there}"
        );
    }
    match nearest(alloc, fields, name)? {
        Some(field) => {
            format!(in alloc;
                "{before}{name} is no field; {field} may be meant. The fields here are {fields_there}"
            )
        }
        None => format!(in alloc; "{before}{name} is no field. The fields here are {fields_there}"),
    }
}

/// Whether an object has a name that is none of these fields.
fn has_other(object: Option<&Value>, fields: &[&str]) -> bool {
    match object.and_then(Value::as_object) {
        Some(members) => members
            .keys()
            .any(|name| !fields.iter().any(|field| *field == name.as_str())),
        None => false,
    }
}

/// What is said of a name that no field has, behind the place of its type, if it is in one. The document and a type are
/// judged before what lies in them.
pub(crate) fn unknown(
    alloc: Global,
    document: Option<&Value>,
    at: u64,
    name: &str,
) -> Result<String, AllocError> {
    if at == 0 {
        if has_other(document, &OF_DOCUMENT) {
            return no_field(alloc, "", name, &OF_DOCUMENT);
        }
        return no_field(alloc, "weights.", name, &OF_WEIGHTS);
    }
    if has_other(type_at(document, at - 1), &OF_TYPE) {
        return no_field(alloc, ".", name, &OF_TYPE);
    }
    no_field(alloc, ".breaks.", name, &OF_BREAKS)
}

/// Whether a value is a whole number that a field may have.
fn is_whole(value: &Value) -> bool {
    value.as_u64().is_some()
}

/// What is said of a value that ought to be a whole number, of a field or an entry of it.
fn no_number(
    alloc: Global,
    at: &str,
    value: Option<&Value>,
    field: &str,
) -> Result<String, AllocError> {
    let found = shown(alloc, value)?;
    let meaning = meaning(field);
    format!(in alloc;
        "{at} is {found}, and must be a whole number without quotes, sign, point or exponent; {field} stands for {meaning}"
    )
}

/// What is said of a list of numbers that isn't one.
fn no_numbers(alloc: Global, value: Option<&Value>, field: &str) -> Result<String, AllocError> {
    match entries(value).iter().position(|number| !is_whole(number)) {
        Some(place) => {
            let at = format!(in alloc; "[{place}]")?;
            no_number(alloc, at.as_str(), entry(value, place), field)
        }
        None => other_kind(alloc, "", value, field),
    }
}

/// What is said of a need that isn't a list of numbers. Lists of numbers within the list are likely meant as days.
fn no_need(alloc: Global, value: Option<&Value>, field: &str) -> Result<String, AllocError> {
    let days = entries(value);
    match days.first() {
        Some(Value::Array(first)) => {
            let len = days.len();
            let numbers = first.len();
            format!(in alloc;
                " is a list of {len} lists, the first of them of {numbers}; put the numbers of all days end to end, in one list: [.., ..] in place of [[..], [..]]"
            )
        }
        _ => no_numbers(alloc, value, field),
    }
}

/// Whether a value is a list of that many whole numbers.
fn is_row(row: &Value, wide: usize) -> bool {
    match row.as_array() {
        Some(numbers) => numbers.len() == wide && numbers.iter().all(is_whole),
        None => false,
    }
}

/// What is said of an entry that isn't a list of that many whole numbers.
fn no_row(
    alloc: Global,
    place: usize,
    row: Option<&Value>,
    field: &str,
) -> Result<String, AllocError> {
    match entries(row).iter().position(|number| !is_whole(number)) {
        Some(inner) => {
            let at = format!(in alloc; "[{place}][{inner}]")?;
            no_number(alloc, at.as_str(), entry(row, inner), field)
        }
        None => {
            let at = format!(in alloc; "[{place}]")?;
            other_kind(alloc, at.as_str(), row, field)
        }
    }
}

/// What is said of a list of such entries that isn't one.
fn no_rows(
    alloc: Global,
    value: Option<&Value>,
    field: &str,
    wide: usize,
) -> Result<String, AllocError> {
    match entries(value).iter().position(|row| !is_row(row, wide)) {
        Some(place) => no_row(alloc, place, entry(value, place), field),
        None => other_kind(alloc, "", value, field),
    }
}

/// What is said of a value of another kind than its field takes.
fn other_kind(
    alloc: Global,
    at: &str,
    value: Option<&Value>,
    field: &str,
) -> Result<String, AllocError> {
    let found = shown(alloc, value)?;
    let meaning = meaning(field);
    format!(in alloc; "{at} is {found}, and {field} stands for {meaning}")
}

/// The value of a field that a refusal names, by the number of its object: 0 for the document, and 1 for the first type.
fn value_at<'v>(document: Option<&'v Value>, at: u64, field: &str) -> Option<&'v Value> {
    if at == 0 {
        return member(document, field).or(member(member(document, "weights"), field));
    }
    let kind = type_at(document, at - 1);
    if field == "types" {
        return kind;
    }
    member(kind, field).or(member(member(kind, "breaks"), field))
}

/// What is said of a value of another kind, behind its place.
pub(crate) fn misshapen(
    alloc: Global,
    document: Option<&Value>,
    at: u64,
    field: &str,
) -> Result<String, AllocError> {
    let value = value_at(document, at, field);
    match field {
        "document" => {
            let found = shown(alloc, document)?;
            format!(in alloc;
                " is {found}, and must be one object, as {{\"slot_minutes\": 15, ..}}"
            )
        }
        "types" if at > 0 => {
            let found = shown(alloc, value)?;
            format!(in alloc;
                " is {found}, and must be an object with name, start_min, start_max, len_min, len_max and breaks"
            )
        }
        "need" | "need_max" => no_need(alloc, value, field),
        "totals" => no_rows(alloc, value, field, 2),
        "lunches" => no_rows(alloc, value, field, 4),
        "name" | "types" | "weights" | "breaks" => other_kind(alloc, "", value, field),
        _ => no_number(alloc, "", value, field),
    }
}
