//! The fields of a JSON object: which it has, and of which kind.
ghost use Rattle.std.specs.Prelude.{◌≡◌, not, find, is_some, option_map, option_and_then, string_bytes};
ghost use Rattle.std.specs.BTreeMap.{keys};
ghost use Rattle.std.specs.Option.{option_copied};
ghost use Rattle.std.specs.List.{list_all, list_any};
ghost use Rattle.serde_json.specs.View.{view};
ghost use Rattle.instance_json.specs.Fields.{whole, are_numbers, is_wide, is_row, are_rows, has_shape, names_of, is_known, is_missing, is_misshapen};

use serde_json::{Map, Value};
use std::marker::Model;

/// The kinds of value that a field takes.
#[derive(Clone, Copy, Debug, PartialEq, Eq, Drop)]
pub enum Shape {
    /// A whole number below 2^64.
    Number,
    Text,
    Array,
    /// A list of whole numbers.
    Numbers,
    /// A list of lists of two whole numbers.
    Pairs,
    /// A list of lists of four whole numbers.
    Quadruples,
    Object,
    NullOrObject,
}

/// A field of an object.
#[derive(Drop)]
pub struct Field {
    name: &'static str,
    required: bool,
    shape: Shape,
}

impl Model for Field {
    ghost use Rattle.instance_json.specs.Fields.{Field as FieldOf};

    ghost Value = { FieldOf };

    ghost view = { λ f. record {
      name = f.name.now;
      required = f.required;
      shape = f.shape;
    } };
}

impl Field {
    ghost use Rattle.instance_json.specs.Document.{required, optional};

    pub fn name(&self) -> &'static str
        ensures { result.now ≡ self.now.name }
    {
        self.name
    }

    /// A field that has to be there.
    pub fn required(name: &'static str, shape: Shape) -> Field
        ensures { result ≡ required name.now shape }
    {
        Field {
            name,
            required: true,
            shape,
        }
    }

    /// A field that may be missing.
    pub fn optional(name: &'static str, shape: Shape) -> Field
        ensures { result ≡ optional name.now shape }
    {
        Field {
            name,
            required: false,
            shape,
        }
    }
}

fn is_whole(value: &Value) -> bool
    ensures { result ≡ is_some (whole (view value.now)) }
{
    value.as_u64().is_some()
}

fn all_whole(list: &[Value]) -> bool
    ensures { result ≡ list_all (λ v. is_some (whole (view v))) list.now }
{
    list.iter().all(is_whole)
}

#[tactic(auto, using(crate::proofs::Lists::are_numbers_of_list))]
fn are_whole(value: &Value) -> bool
    ensures { result ≡ are_numbers (view value.now) }
{
    match value.as_array() {
        Some(list) => all_whole(list),
        None => false,
    }
}

#[tactic(auto, using(crate::proofs::Lists::is_wide_of_list))]
fn is_wide(wide: usize, value: &Value) -> bool
    ensures { result ≡ is_wide wide (view value.now) }
{
    match value.as_array() {
        Some(list) => list.len() == wide,
        None => false,
    }
}

/// Whether a value is a list of that many whole numbers.
fn is_whole_row(wide: usize, value: &Value) -> bool
    ensures { result ≡ is_row wide (view value.now) }
{
    are_whole(value) && is_wide(wide, value)
}

fn all_rows(wide: usize, list: &[Value]) -> bool
    ensures { result ≡ list_all (λ v. is_row wide (view v)) list.now }
{
    list.iter().all(|value| is_whole_row(wide, value))
}

fn are_whole_rows(wide: usize, value: &Value) -> bool
    ensures { result ≡ are_rows wide (view value.now) }
{
    match value.as_array() {
        Some(list) => all_rows(wide, list),
        None => false,
    }
}

/// Whether a value is of a kind.
fn is_shaped(shape: Shape, value: &Value) -> bool
    ensures { result ≡ has_shape shape (view value.now) }
{
    match shape {
        Shape::Number => is_whole(value),
        Shape::Text => value.is_string(),
        Shape::Array => value.is_array(),
        Shape::Numbers => are_whole(value),
        Shape::Pairs => are_whole_rows(2, value),
        Shape::Quadruples => are_whole_rows(4, value),
        Shape::Object => value.is_object(),
        Shape::NullOrObject => value.is_null() || value.is_object(),
    }
}

fn knows(fields: &[Field], name: &str) -> bool
    ensures { result ≡ is_known fields.now name.now }
{
    fields.iter().any(|field| field.name == name)
}

fn first_unknown_of<'v>(fields: &[Field], members: &'v Map<String, Value>) -> Option<&'v String>
    ensures { option_copied result ≡ find (λ name. not (is_known fields.now (string_bytes name))) (keys members.now) }
{
    members.keys().find(|name| !knows(fields, name.as_str()))
}

/// The first name of an object's members, in byte order, that is none of these fields.
pub fn first_unknown<'v>(fields: &[Field], value: &'v Value) -> Option<&'v str>
    ensures { option_map (λ s. s.now) result ≡ find (λ name. not (is_known fields.now name)) (names_of (view value.now)) }
{
    let name = first_unknown_of(fields, value.as_object()?)?;
    Some(name.as_str())
}

fn lacks(value: &Value, field: &Field) -> bool
    ensures { result ≡ is_missing (view value.now) field.now }
{
    field.required && value.get(field.name).is_none()
}

fn misfits(value: &Value, field: &Field) -> bool
    ensures { result ≡ is_misshapen (view value.now) field.now }
{
    match value.get(field.name) {
        Some(found) => !is_shaped(field.shape, found),
        None => false,
    }
}

/// The first required field that an object lacks.
pub fn first_missing<'f>(fields: &'f [Field], value: &Value) -> Option<&'f Field>
    ensures { option_copied result ≡ find (is_missing (view value.now)) fields.now }
{
    fields.iter().find(|field| lacks(value, field))
}

/// The first field whose value is of another kind.
pub fn first_misshapen<'f>(fields: &'f [Field], value: &Value) -> Option<&'f Field>
    ensures { option_copied result ≡ find (is_misshapen (view value.now)) fields.now }
{
    fields.iter().find(|field| misfits(value, field))
}
