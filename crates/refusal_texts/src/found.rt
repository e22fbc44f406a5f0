//! What stands in a document, read again for whoever wrote it.
ghost use Rattle.std.specs.Prelude.{◌<◌};

use serde_json::Value;
use std::alloc::{AllocError, Global};
use std::str::from_utf8;

/// The most bytes of a value that a sentence shows.
const SHOWN_MOST: usize = 48;

/// The JSON value of a document, where it is JSON.
pub(crate) fn value_of(alloc: Global, document: &[u8]) -> Result<Option<Value>, AllocError> {
    let Ok(text) = from_utf8(document) else {
        return Ok(None);
    };
    match Value::from_str(alloc, text) {
        Ok(value) => Ok(Some(value)),
        Err(fault) if fault.is_memory() => Err(AllocError),
        Err(_) => Ok(None),
    }
}

/// A member of an object, where there is one of that name.
pub(crate) fn member<'v>(value: Option<&'v Value>, name: &str) -> Option<&'v Value> {
    value?.get(name)
}

/// An entry of a list, where there is one at that place.
pub(crate) fn entry(value: Option<&Value>, at: usize) -> Option<&Value> {
    value?.get(at)
}

/// The entries of a list; none of what is no list.
pub(crate) fn entries(value: Option<&Value>) -> &[Value] {
    match value.and_then(Value::as_array) {
        Some(list) => list.as_slice(),
        None => &[],
    }
}

/// A shift type of a document, by its place.
pub(crate) fn type_at(document: Option<&Value>, kind: u64) -> Option<&Value> {
    entry(member(document, "types"), kind as usize)
}

/// The whole number that a value is, and 0 of every other value.
pub(crate) fn number(value: Option<&Value>) -> u64 {
    value.and_then(Value::as_u64).unwrap_or(0)
}

/// The whole number of a member, and 0 where there is none.
pub(crate) fn number_of(value: Option<&Value>, name: &str) -> u64 {
    number(member(value, name))
}

/// The minutes of a slot of a document, at least 1.
pub(crate) fn minutes_of(document: Option<&Value>) -> u64
    ensures { 0 < result }
{
    number_of(document, "slot_minutes").max(1)
}

/// The JSON text of a value, if it is short.
fn short_text(alloc: Global, value: &Value) -> Result<Option<String>, AllocError> {
    let text = value.to_string(alloc)?;
    Ok(if text.len() <= SHOWN_MOST {
        Some(text)
    } else {
        None
    })
}

/// A text as a sentence shows it.
fn shown_text(alloc: Global, value: &Value) -> Result<String, AllocError> {
    match short_text(alloc, value)? {
        Some(text) => format!(in alloc; "the text {text}"),
        None => String::from_str(alloc, "a long text"),
    }
}

/// A number as a sentence shows it.
fn shown_number(alloc: Global, value: &Value) -> Result<String, AllocError> {
    match short_text(alloc, value)? {
        Some(text) => format!(in alloc; "the number {text}"),
        None => String::from_str(alloc, "a long number"),
    }
}

/// A list as a sentence shows it: by its length, and its text where that is short.
fn shown_list(alloc: Global, value: &Value, entries: usize) -> Result<String, AllocError> {
    match short_text(alloc, value)? {
        Some(text) => format!(in alloc; "the list {text}"),
        None => format!(in alloc; "a list of {entries}"),
    }
}

/// What a value is, in words.
pub(crate) fn shown(alloc: Global, value: Option<&Value>) -> Result<String, AllocError> {
    let Some(value) = value else {
        return String::from_str(alloc, "nothing");
    };
    match value {
        Value::Null => String::from_str(alloc, "null"),
        Value::Bool(_) => value.to_string(alloc),
        Value::Number(_) => shown_number(alloc, value),
        Value::String(_) => shown_text(alloc, value),
        Value::Array(list) => shown_list(alloc, value, list.len()),
        Value::Object(_) => String::from_str(alloc, "an object"),
    }
}
