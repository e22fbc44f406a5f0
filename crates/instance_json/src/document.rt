//! Instance documents: the fields of their objects, and what they state.
ghost use Rattle.std.specs.Prelude.{◌≡◌, codes, map, IfOk, option_map, option_and_then, string_bytes};
ghost use Rattle.std.specs.Option.{option_map_or};
ghost use Rattle.break_rules.specs.Plain.{plain_rule};
ghost use Rattle.serde_json.specs.Find.{get, as_array};
ghost use Rattle.serde_json.specs.View.{view, items_view};
ghost use Rattle.instance_json.specs.Document.{document_fields, weights_fields, type_fields, breaks_fields, items_at, number_up_to, short_at, short_in, long_at, longs_at, stated_need_max, text_at, weight_of, total_of, lunch_of, rule_of, stated_rule, kind_of, problem_of};

use crate::fields::{Field, Shape};
use break_rules::{Lunch, Lunches, Rule, Totals};
use serde_json::Value;
use shift_instance::{Parts, TypeParts};
use std::alloc::{AllocError, Global};

#[tactic(auto, unfolding(crate::specs::Document::document_fields))]
pub fn of_document() -> [Field; 7]
    ensures { result ≡ document_fields }
{
    [
        Field::required("slot_minutes", Shape::Number),
        Field::required("days", Shape::Number),
        Field::required("need", Shape::Numbers),
        Field::optional("need_max", Shape::Numbers),
        Field::required("max_heads", Shape::Number),
        Field::required("weights", Shape::Object),
        Field::required("types", Shape::Array),
    ]
}

#[tactic(auto, unfolding(crate::specs::Document::weights_fields))]
pub fn of_weights() -> [Field; 3]
    ensures { result ≡ weights_fields }
{
    [
        Field::required("excess", Shape::Number),
        Field::required("shortage", Shape::Number),
        Field::required("shift", Shape::Number),
    ]
}

#[tactic(auto, unfolding(crate::specs::Document::type_fields))]
pub fn of_type() -> [Field; 6]
    ensures { result ≡ type_fields }
{
    [
        Field::required("name", Shape::Text),
        Field::required("start_min", Shape::Number),
        Field::required("start_max", Shape::Number),
        Field::required("len_min", Shape::Number),
        Field::required("len_max", Shape::Number),
        Field::optional("breaks", Shape::NullOrObject),
    ]
}

#[tactic(auto, unfolding(crate::specs::Document::breaks_fields))]
pub fn of_breaks() -> [Field; 11]
    ensures { result ≡ breaks_fields }
{
    [
        Field::required("lead", Shape::Number),
        Field::required("tail", Shape::Number),
        Field::required("work_min", Shape::Number),
        Field::required("work_max", Shape::Number),
        Field::required("long_work", Shape::Number),
        Field::required("long_rest", Shape::Number),
        Field::required("size_min", Shape::Number),
        Field::required("size_max", Shape::Number),
        Field::required("totals", Shape::Pairs),
        Field::optional("lunches", Shape::Quadruples),
        Field::optional("resettle", Shape::Number),
    ]
}

/// The items of an object's field, where it is a list.
pub fn items_of<'v>(value: &'v Value, name: &str) -> Option<&'v [Value]>
    ensures { option_map (λ v. items_view v.now) result ≡ option_and_then as_array (get name.now (view value.now)) }
{
    let list = value.get(name)?.as_array()?;
    Some(list.as_slice())
}

fn up_to(value: &Value, most: u64) -> u64
    ensures { result ≡ number_up_to most (view value.now) }
{
    value.as_u64().unwrap_or(0).min(most)
}

fn short(value: &Value) -> u16
    ensures { result ≡ number_up_to 65535 (view value.now) }
{
    up_to(value, 65535) as u16
}

fn long(value: &Value) -> u32
    ensures { result ≡ number_up_to 4294967295 (view value.now) }
{
    up_to(value, 4294967295) as u32
}

fn short_of(value: &Value, name: &str) -> u16
    ensures { result ≡ short_at name.now (view value.now) }
{
    match value.get(name) {
        Some(number) => short(number),
        None => 0,
    }
}

fn long_of(value: &Value, name: &str) -> u32
    ensures { result ≡ long_at name.now (view value.now) }
{
    match value.get(name) {
        Some(number) => long(number),
        None => 0,
    }
}

fn weight(value: &Value, name: &str) -> u32
    ensures { result ≡ weight_of name.now (view value.now) }
{
    match value.get("weights") {
        Some(weights) => long_of(weights, name),
        None => 0,
    }
}

fn text(alloc: Global, value: &Value, name: &str) -> Result<String, AllocError>
    ensures { IfOk result (λ s. string_bytes s ≡ text_at name.now (view value.now)) }
{
    match value.get(name).and_then(Value::as_str) {
        Some(text) => String::from_str(alloc, text),
        None => Ok(String::new(alloc)),
    }
}

fn longs(alloc: Global, list: &[Value]) -> Result<Vec<u32>, AllocError>
    ensures { IfOk result (λ v. v.items ≡ map (λ x. number_up_to 4294967295 (view x)) list.now) }
{
    list.iter().map(long).collect(alloc)
}

fn longs_of(alloc: Global, value: &Value, name: &str) -> Result<Vec<u32>, AllocError>
    ensures { IfOk result (λ v. v.items ≡ longs_at name.now (view value.now)) }
{
    match items_of(value, name) {
        Some(list) => longs(alloc, list),
        None => Ok(Vec::new(alloc)),
    }
}

/// The most wanted employees of each slot: those that a document states, and else its needs.
fn need_max_of(alloc: Global, value: &Value) -> Result<Vec<u32>, AllocError>
    ensures { IfOk result (λ v. v.items ≡ stated_need_max (view value.now)) }
{
    match value.get("need_max") {
        Some(_) => longs_of(alloc, value, "need_max"),
        None => longs_of(alloc, value, "need"),
    }
}

fn short_in(value: &Value, place: usize) -> u16
    ensures { result ≡ short_in place (view value.now) }
{
    match value.get(place) {
        Some(number) => short(number),
        None => 0,
    }
}

/// An entry of a rule's totals.
fn total(value: &Value) -> (u16, u16)
    ensures { result ≡ total_of (view value.now) }
{
    (short_in(value, 0), short_in(value, 1))
}

fn totals(alloc: Global, list: &[Value]) -> Result<Vec<(u16, u16)>, AllocError>
    ensures { IfOk result (λ v. v.items ≡ map (λ x. total_of (view x)) list.now) }
{
    list.iter().map(total).collect(alloc)
}

fn totals_of(alloc: Global, value: &Value) -> Result<Totals, AllocError>
    ensures { IfOk result (λ t. t ≡ map total_of (items_at (codes "totals") (view value.now))) }
{
    match items_of(value, "totals") {
        Some(list) => Ok(Totals::new(totals(alloc, list)?)),
        None => Ok(Totals::new(Vec::new(alloc))),
    }
}

fn lunch(value: &Value) -> Lunch
    ensures { result ≡ lunch_of (view value.now) }
{
    Lunch {
        from_len: short_in(value, 0),
        size: short_in(value, 1),
        first: short_in(value, 2),
        last: short_in(value, 3),
    }
}

fn lunches(alloc: Global, list: &[Value]) -> Result<Vec<Lunch>, AllocError>
    ensures { IfOk result (λ v. v.items ≡ map (λ x. lunch_of (view x)) list.now) }
{
    list.iter().map(lunch).collect(alloc)
}

fn lunches_of(alloc: Global, value: &Value) -> Result<Lunches, AllocError>
    ensures { IfOk result (λ t. t ≡ map lunch_of (items_at (codes "lunches") (view value.now))) }
{
    match items_of(value, "lunches") {
        Some(list) => Ok(Lunches::new(lunches(alloc, list)?)),
        None => Ok(Lunches::new(Vec::new(alloc))),
    }
}

/// The break rule that an object states.
#[tactic(auto, unfolding(crate::specs::Document::rule_of))]
fn rule_of(alloc: Global, breaks: &Value) -> Result<Rule, AllocError>
    ensures { IfOk result (λ r. r ≡ rule_of (view breaks.now)) }
{
    Ok(Rule {
        lead: short_of(breaks, "lead"),
        tail: short_of(breaks, "tail"),
        work_min: short_of(breaks, "work_min"),
        work_max: short_of(breaks, "work_max"),
        long_work: short_of(breaks, "long_work"),
        long_rest: short_of(breaks, "long_rest"),
        size_min: short_of(breaks, "size_min"),
        size_max: short_of(breaks, "size_max"),
        totals: totals_of(alloc, breaks)?,
        lunches: lunches_of(alloc, breaks)?,
        resettle: short_of(breaks, "resettle"),
    })
}

/// The rule of a shift type: the one that its breaks state, and else the plain rule.
fn rule_stated(alloc: Global, value: &Value) -> Result<Rule, AllocError>
    ensures { IfOk result (λ r. r ≡ option_map_or stated_rule (get (codes "breaks") (view value.now)) plain_rule) }
{
    match value.get("breaks") {
        Some(breaks) if breaks.is_object() => rule_of(alloc, breaks),
        _ => Rule::plain(alloc),
    }
}

/// The shift type that a value states.
#[tactic(auto, unfolding(crate::specs::Document::kind_of))]
fn type_of(alloc: Global, value: &Value) -> Result<TypeParts, AllocError>
    ensures { IfOk result (λ k. k ≡ kind_of (view value.now)) }
{
    Ok(TypeParts {
        name: text(alloc, value, "name")?,
        start_min: short_of(value, "start_min"),
        start_max: short_of(value, "start_max"),
        len_min: short_of(value, "len_min"),
        len_max: short_of(value, "len_max"),
        rule: rule_stated(alloc, value)?,
    })
}

fn types(alloc: Global, list: &[Value]) -> Result<Vec<TypeParts>, AllocError>
    ensures { IfOk result (λ v. v.items ≡ map (λ x. kind_of (view x)) list.now) }
{
    let mut types = Vec::new(alloc);
    for value in list {
        types.push(type_of(alloc, value)?)?;
    }
    Ok(types)
}

fn types_of(alloc: Global, value: &Value) -> Result<Vec<TypeParts>, AllocError>
    ensures { IfOk result (λ v. v.items ≡ map kind_of (items_at (codes "types") (view value.now))) }
{
    match items_of(value, "types") {
        Some(list) => types(alloc, list),
        None => Ok(Vec::new(alloc)),
    }
}

/// The numbers that a document states.
#[tactic(auto, unfolding(crate::specs::Document::problem_of))]
pub fn parts_of(alloc: Global, value: &Value) -> Result<Parts, AllocError>
    ensures { IfOk result (λ p. p ≡ problem_of (view value.now)) }
{
    Ok(Parts {
        slot_minutes: short_of(value, "slot_minutes"),
        days: short_of(value, "days"),
        need: longs_of(alloc, value, "need")?,
        need_max: need_max_of(alloc, value)?,
        max_heads: short_of(value, "max_heads"),
        excess: weight(value, "excess"),
        shortage: weight(value, "shortage"),
        shift: weight(value, "shift"),
        types: types_of(alloc, value)?,
    })
}
