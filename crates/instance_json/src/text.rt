//! The canonical text of an instance.
ghost use Rattle.std.specs.Prelude.{◌≡◌, codes, map, IfOk, OnOk, if◌then◌else◌};
ghost use Rattle.serde_json.specs.Data.{put as with_member};
ghost use Rattle.serde_json.specs.View.{view, members_view};
ghost use Rattle.instance_json.specs.Canonical.{number_data, list_data, total_data, lunch_data, rule_data, kind_data, weights_data, is_banded, document_data, canonical_text};

use break_rules::{Lunch, Rule};
use serde_json::{Map, Value, json, put};
use shift_instance::{Instance, Parts, TypeParts};
use std::alloc::{AllocError, Global};

fn number_values(alloc: Global, list: &[u32]) -> Result<Vec<Value>, AllocError>
    ensures { IfOk result (λ v. map view v.items ≡ map number_data list.now) }
{
    let mut values = Vec::new(alloc);
    for number in list {
        values.push(Value::from(*number))?;
    }
    Ok(values)
}

fn total_value(alloc: Global, entry: (u16, u16)) -> Result<Value, AllocError>
    ensures { IfOk result (λ v. view v ≡ total_data entry) }
{
    json!(in alloc; [entry.0, entry.1])
}

fn total_values(alloc: Global, list: &[(u16, u16)]) -> Result<Vec<Value>, AllocError>
    ensures { IfOk result (λ v. map view v.items ≡ map total_data list.now) }
{
    let mut values = Vec::new(alloc);
    for entry in list {
        values.push(total_value(alloc, *entry)?)?;
    }
    Ok(values)
}

fn lunch_value(alloc: Global, entry: Lunch) -> Result<Value, AllocError>
    ensures { IfOk result (λ v. view v ≡ lunch_data entry) }
{
    json!(in alloc; [entry.from_len, entry.size, entry.first, entry.last])
}

fn lunch_values(alloc: Global, list: &[Lunch]) -> Result<Vec<Value>, AllocError>
    ensures { IfOk result (λ v. map view v.items ≡ map lunch_data list.now) }
{
    let mut values = Vec::new(alloc);
    for entry in list {
        values.push(lunch_value(alloc, *entry)?)?;
    }
    Ok(values)
}

/// A list as a JSON value.
#[tactic(auto, using(crate::proofs::Texts::items_of_values))]
fn list_value(values: Vec<Value>) -> Value
    ensures { view result ≡ list_data (map view values.items) }
{
    Value::Array(values)
}

/// Puts a number under a name into an object.
fn put_number(
    alloc: Global,
    object: &mut Map<String, Value>,
    name: &str,
    number: u16,
) -> Result<(), AllocError>
    ensures { OnOk result (members_view object.new.entries ≡ with_member name.now (number_data number) (members_view object.old.entries)) }
{
    put(object, alloc, name, Value::from(number))
}

#[tactic(auto, unfolding(crate::specs::Canonical::rule_data))]
fn rule_value(alloc: Global, rule: &Rule) -> Result<Value, AllocError>
    ensures { IfOk result (λ v. view v ≡ rule_data rule.now) }
{
    let mut object = Map::new(alloc);
    put_number(alloc, &mut object, "lead", rule.lead)?;
    put_number(alloc, &mut object, "long_rest", rule.long_rest)?;
    put_number(alloc, &mut object, "long_work", rule.long_work)?;
    let lunches = list_value(lunch_values(alloc, rule.lunches.as_slice())?);
    put(&mut object, alloc, "lunches", lunches)?;
    put_number(alloc, &mut object, "resettle", rule.resettle)?;
    put_number(alloc, &mut object, "size_max", rule.size_max)?;
    put_number(alloc, &mut object, "size_min", rule.size_min)?;
    put_number(alloc, &mut object, "tail", rule.tail)?;
    let totals = list_value(total_values(alloc, rule.totals.as_slice())?);
    put(&mut object, alloc, "totals", totals)?;
    put_number(alloc, &mut object, "work_max", rule.work_max)?;
    put_number(alloc, &mut object, "work_min", rule.work_min)?;
    Ok(Value::Object(object))
}

#[tactic(auto, unfolding(crate::specs::Canonical::kind_data))]
fn type_value(alloc: Global, kind: &TypeParts) -> Result<Value, AllocError>
    ensures { IfOk result (λ v. view v ≡ kind_data kind.now) }
{
    let breaks = rule_value(alloc, &kind.rule)?;
    let mut object = Map::new(alloc);
    put(&mut object, alloc, "breaks", breaks)?;
    put_number(alloc, &mut object, "len_max", kind.len_max)?;
    put_number(alloc, &mut object, "len_min", kind.len_min)?;
    let name = Value::String(kind.name.clone()?);
    put(&mut object, alloc, "name", name)?;
    put_number(alloc, &mut object, "start_max", kind.start_max)?;
    put_number(alloc, &mut object, "start_min", kind.start_min)?;
    Ok(Value::Object(object))
}

fn type_values(alloc: Global, list: &[TypeParts]) -> Result<Vec<Value>, AllocError>
    ensures { IfOk result (λ v. map view v.items ≡ map kind_data list.now) }
{
    let mut values = Vec::new(alloc);
    for parts in list {
        values.push(type_value(alloc, parts)?)?;
    }
    Ok(values)
}

#[tactic(auto, unfolding(crate::specs::Canonical::weights_data))]
fn weights_value(alloc: Global, parts: &Parts) -> Result<Value, AllocError>
    ensures { IfOk result (λ v. view v ≡ weights_data parts.now) }
{
    json!(in alloc; {
        "excess": parts.excess,
        "shift": parts.shift,
        "shortage": parts.shortage
    })
}

/// Puts the most wanted employees into a document's object, where they differ from the need in some slot.
fn put_bands(
    alloc: Global,
    object: &mut Map<String, Value>,
    parts: &Parts,
) -> Result<(), AllocError>
    ensures { OnOk result (members_view object.new.entries ≡
        (if is_banded parts.now then with_member (codes "need_max") (list_data (map number_data parts.now.need_max)) (members_view object.old.entries)
        else members_view object.old.entries)) }
{
    if parts.need.as_slice() == parts.need_max.as_slice() {
        return Ok(());
    }
    let most = list_value(number_values(alloc, parts.need_max.as_slice())?);
    put(object, alloc, "need_max", most)
}

fn document_value(alloc: Global, parts: &Parts) -> Result<Value, AllocError>
    ensures { IfOk result (λ v. view v ≡ document_data parts.now) }
{
    let mut object = Map::new(alloc);
    put_number(alloc, &mut object, "days", parts.days)?;
    put_number(alloc, &mut object, "max_heads", parts.max_heads)?;
    let need = list_value(number_values(alloc, parts.need.as_slice())?);
    put(&mut object, alloc, "need", need)?;
    put_bands(alloc, &mut object, parts)?;
    put_number(alloc, &mut object, "slot_minutes", parts.slot_minutes)?;
    let types = list_value(type_values(alloc, parts.types.as_slice())?);
    put(&mut object, alloc, "types", types)?;
    put(&mut object, alloc, "weights", weights_value(alloc, parts)?)?;
    Ok(Value::Object(object))
}

/// The one text that an instance is written as: its document without spaces or a line end, the names of each object in
/// byte order, the break rule of each type as an object with all its fields, and `need_max` exactly where it differs from
/// `need` in some slot.
pub fn canonical(alloc: Global, instance: &Instance) -> Result<Vec<u8>, AllocError>
    ensures { IfOk result (λ v. v.items ≡ canonical_text instance.now) }
{
    let text = document_value(alloc, instance.parts())?.to_string(alloc)?;
    Ok(text.into_bytes())
}
