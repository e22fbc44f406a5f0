//! How a JSON value departs from an instance document.
ghost use Rattle.std.specs.Prelude.{◌≡◌, map, codes, is_some, option_and_then, IfOk};
ghost use Rattle.std.specs.List.{enumerate_from};
ghost use Rattle.serde_json.specs.Find.{get, as_object};
ghost use Rattle.serde_json.specs.View.{view};
ghost use Rattle.instance_json.specs.Departures.{first_some, unknown_departure, missing_departure, kind_departure, object_departure, breaks_departure, type_departure, weights_departure, types_departure, document_departure};

use crate::document::{items_of, of_breaks, of_document, of_type, of_weights};
use crate::fields::{Field, first_misshapen, first_missing, first_unknown};
use crate::{FieldName, ReadRefusal};
use serde_json::Value;
use std::alloc::{AllocError, Global};

fn unknown(
    alloc: Global,
    at: u64,
    fields: &[Field],
    value: &Value,
) -> Result<Option<ReadRefusal>, AllocError>
    ensures { IfOk result (λ found. found ≡ unknown_departure at fields.now (view value.now)) }
{
    match first_unknown(fields, value) {
        Some(name) => {
            let field = FieldName::beginning(alloc, name)?;
            Ok(Some(ReadRefusal::UnknownField { at, field }))
        }
        None => Ok(None),
    }
}

fn missing(
    alloc: Global,
    at: u64,
    fields: &[Field],
    value: &Value,
) -> Result<Option<ReadRefusal>, AllocError>
    ensures { IfOk result (λ found. found ≡ missing_departure at fields.now (view value.now)) }
{
    match first_missing(fields, value) {
        Some(field) => {
            let field = FieldName::new(alloc, field.name())?;
            Ok(Some(ReadRefusal::Missing { at, field }))
        }
        None => Ok(None),
    }
}

fn misshapen(
    alloc: Global,
    at: u64,
    fields: &[Field],
    value: &Value,
) -> Result<Option<ReadRefusal>, AllocError>
    ensures { IfOk result (λ found. found ≡ kind_departure at fields.now (view value.now)) }
{
    match first_misshapen(fields, value) {
        Some(field) => {
            let field = FieldName::new(alloc, field.name())?;
            Ok(Some(ReadRefusal::WrongKind { at, field }))
        }
        None => Ok(None),
    }
}

/// How an object departs from these fields.
#[tactic(auto, unfolding(crate::specs::Departures::object_departure))]
fn of_object(
    alloc: Global,
    at: u64,
    fields: &[Field],
    value: &Value,
) -> Result<Option<ReadRefusal>, AllocError>
    ensures { IfOk result (λ found. found ≡ object_departure at fields.now (view value.now)) }
{
    match unknown(alloc, at, fields, value)? {
        Some(refusal) => return Ok(Some(refusal)),
        None => {}
    }
    match missing(alloc, at, fields, value)? {
        Some(refusal) => return Ok(Some(refusal)),
        None => {}
    }
    misshapen(alloc, at, fields, value)
}

/// How breaks depart.
fn in_breaks(alloc: Global, at: u64, breaks: &Value) -> Result<Option<ReadRefusal>, AllocError>
    ensures { IfOk result (λ found. found ≡ breaks_departure at (view breaks.now)) }
{
    if breaks.is_object() {
        of_object(alloc, at, &of_breaks(), breaks)
    } else {
        Ok(None)
    }
}

/// How the breaks of a shift type depart.
fn in_breaks_of(alloc: Global, at: u64, value: &Value) -> Result<Option<ReadRefusal>, AllocError>
    ensures { IfOk result (λ found. found ≡ option_and_then (breaks_departure at) (get (codes "breaks") (view value.now))) }
{
    match value.get("breaks") {
        Some(breaks) => in_breaks(alloc, at, breaks),
        None => Ok(None),
    }
}

/// How a shift type departs.
#[tactic(auto, unfolding(crate::specs::Departures::type_departure))]
fn in_type(alloc: Global, at: u64, value: &Value) -> Result<Option<ReadRefusal>, AllocError>
    ensures { IfOk result (λ found. found ≡ type_departure (at, view value.now)) }
{
    if !value.is_object() {
        let field = FieldName::new(alloc, "types")?;
        return Ok(Some(ReadRefusal::WrongKind { at, field }));
    }
    match of_object(alloc, at, &of_type(), value)? {
        Some(refusal) => return Ok(Some(refusal)),
        None => {}
    }
    in_breaks_of(alloc, at, value)
}

fn in_list(alloc: Global, list: &[Value]) -> Result<Option<ReadRefusal>, AllocError>
    ensures { IfOk result (λ found. found ≡ first_some (map type_departure (enumerate_from 1 (map view list.now)))) }
{
    let mut at = 0;
    for value in list {
        at += 1;
        match in_type(alloc, at, value)? {
            Some(refusal) => return Ok(Some(refusal)),
            None => {}
        }
    }
    Ok(None)
}

fn in_types(alloc: Global, value: &Value) -> Result<Option<ReadRefusal>, AllocError>
    ensures { IfOk result (λ found. found ≡ types_departure (view value.now)) }
{
    match items_of(value, "types") {
        Some(list) => in_list(alloc, list),
        None => Ok(None),
    }
}

fn in_weights(alloc: Global, value: &Value) -> Result<Option<ReadRefusal>, AllocError>
    ensures { IfOk result (λ found. found ≡ weights_departure (view value.now)) }
{
    match value.get("weights") {
        Some(weights) => of_object(alloc, 0, &of_weights(), weights),
        None => Ok(None),
    }
}

/// How a value departs from a document.
#[tactic(auto, unfolding(crate::specs::Departures::document_departure))]
pub fn in_document(alloc: Global, value: &Value) -> Result<Option<ReadRefusal>, AllocError>
    ensures { IfOk result (λ found. found ≡ document_departure (view value.now)) }
{
    if !value.is_object() {
        let field = FieldName::new(alloc, "document")?;
        return Ok(Some(ReadRefusal::WrongKind { at: 0, field }));
    }
    match of_object(alloc, 0, &of_document(), value)? {
        Some(refusal) => return Ok(Some(refusal)),
        None => {}
    }
    match in_weights(alloc, value)? {
        Some(refusal) => return Ok(Some(refusal)),
        None => {}
    }
    in_types(alloc, value)
}
