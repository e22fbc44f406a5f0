//! From a text to an instance.
ghost use Rattle.std.specs.Prelude.{◌≡◌, Ok, All, option_map, IfOk, MatchResult};
ghost use Rattle.serde_json.specs.View.{view};
ghost use Rattle.instance_json.specs.Document.{problem_of};
ghost use Rattle.instance_json.specs.Reading.{value_of, problem_reading, value_reading, reading_of, IsAnswer};

use crate::departures::in_document;
use crate::document::parts_of;
use crate::{INSTANCE_MAX, ReadRefusal};
use serde_json::Value;
use shift_instance::{Instance, Parts};
use std::alloc::{AllocError, Global};
use std::str::from_utf8;

/// The JSON value of a text; none where the bytes aren't UTF-8 or aren't JSON.
fn parse(alloc: Global, bytes: &[u8]) -> Result<Option<Value>, AllocError>
    ensures { IfOk result (λ found. option_map view found ≡ value_of bytes.now) }
{
    let Ok(text) = from_utf8(bytes) else {
        return Ok(None);
    };
    match Value::from_str(alloc, text) {
        Ok(value) => Ok(Some(value)),
        Err(fault) if fault.is_memory() => Err(AllocError),
        Err(_) => Ok(None),
    }
}

/// The instance that these numbers make.
fn instance_from(alloc: Global, parts: Parts) -> Result<Instance, ReadRefusal>
    ensures { MatchResult result (λ i. problem_reading parts ≡ Ok i) (λ e. IsAnswer e (problem_reading parts)) }
{
    match Instance::new(alloc, parts) {
        Ok(instance) => Ok(instance),
        Err(fault) => Err(ReadRefusal::from(fault)),
    }
}

fn instance_stated(alloc: Global, value: &Value) -> Result<Instance, ReadRefusal>
    ensures { MatchResult result (λ i. problem_reading (problem_of (view value.now)) ≡ Ok i)
        (λ e. IsAnswer e (problem_reading (problem_of (view value.now)))) }
{
    instance_from(alloc, parts_of(alloc, value)?)
}

/// The instance that a JSON value states.
fn instance_of(alloc: Global, value: &Value) -> Result<Instance, ReadRefusal>
    ensures { MatchResult result (λ i. value_reading (view value.now) ≡ Ok i)
        (λ e. IsAnswer e (value_reading (view value.now))) }
{
    match in_document(alloc, value)? {
        Some(refusal) => Err(refusal),
        None => instance_stated(alloc, value),
    }
}

/// The instance that a text states.
///
/// The text is refused with `TooLong` where it has more than `INSTANCE_MAX` bytes; else with `NotJson` where it isn't
/// UTF-8 or isn't JSON. Else its objects are judged in turn: the document, its weights, and each type, followed by its
/// breaks where they are an object. In each the first field in byte order that the object may not have is
/// `UnknownField`, then the first that it lacks is `Missing`, and then the first whose value, or a value in it, is of
/// another kind is `WrongKind`. A document that is no object is `WrongKind` of `document`, and a type that is none
/// `WrongKind` of `types`. A document whose numbers make no instance is `Invalid`. `NoMemory` may come instead, where
/// memory runs out.
pub fn read(alloc: Global, bytes: &[u8]) -> Result<Instance, ReadRefusal>
    ensures { MatchResult result (λ i. reading_of bytes.now ≡ Ok i)
        (λ e. IsAnswer e (reading_of bytes.now)) }
{
    if bytes.len() > INSTANCE_MAX {
        return Err(ReadRefusal::TooLong);
    }
    match parse(alloc, bytes)? {
        Some(value) => instance_of(alloc, &value),
        None => Err(ReadRefusal::NotJson),
    }
}
