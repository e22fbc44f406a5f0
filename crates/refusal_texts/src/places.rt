//! Where in a document a refusal is, as a person writes it: `types[1].breaks.totals`, `need[3]`.
ghost use Rattle.std.specs.Prelude.{◌≡◌, IfOk, string_bytes};
ghost use Rattle.refusal_texts.specs.Places.{is_of_weights, is_of_type, place_in_document, place_in_type, field_place, rule_place, fault_place, refusal_place};

use break_rules::RuleFault;
use instance_json::ReadRefusal;
use shift_instance::InstanceFault;
use std::alloc::{AllocError, Global};

/// Whether a name is that of a weight.
fn is_of_weights(field: &str) -> bool
    ensures { result ≡ is_of_weights field.now }
{
    field == "excess" || field == "shortage" || field == "shift"
}

/// Whether a name is that of a shift type's own field.
fn is_of_type(field: &str) -> bool
    ensures { result ≡ is_of_type field.now }
{
    field == "name"
        || field == "start_min"
        || field == "start_max"
        || field == "len_min"
        || field == "len_max"
        || field == "breaks"
}

/// The place of a field that is the document's own or one of its weights.
fn place_in_document(alloc: Global, field: &str) -> Result<String, AllocError>
    ensures { IfOk result (λ place. string_bytes place ≡ place_in_document field.now) }
{
    if is_of_weights(field) {
        format!(in alloc; "weights.{field}")
    } else {
        String::from_str(alloc, field)
    }
}

/// The place of a field of a type or of its breaks.
fn place_in_type(alloc: Global, kind: u64, field: &str) -> Result<String, AllocError>
    ensures { IfOk result (λ place. string_bytes place ≡ place_in_type kind field.now) }
{
    if field == "types" {
        format!(in alloc; "types[{kind}]")
    } else if is_of_type(field) {
        format!(in alloc; "types[{kind}].{field}")
    } else {
        format!(in alloc; "types[{kind}].breaks.{field}")
    }
}

/// The place of a field, where refusals count the document as 0 and types from 1 on.
fn place_of_field(alloc: Global, at: u64, field: &str) -> Result<String, AllocError>
    ensures { IfOk result (λ place. string_bytes place ≡ field_place at field.now) }
{
    if at == 0 {
        place_in_document(alloc, field)
    } else {
        place_in_type(alloc, at - 1, field)
    }
}

/// The place of a fault of a type's break rule.
fn rule_place(alloc: Global, kind: u16, why: RuleFault) -> Result<String, AllocError>
    ensures { IfOk result (λ place. string_bytes place ≡ rule_place kind why) }
{
    match why {
        RuleFault::WorkRange => format!(in alloc; "types[{kind}].breaks.work_min"),
        RuleFault::SizeRange => format!(in alloc; "types[{kind}].breaks.size_min"),
        RuleFault::TotalsOrder => format!(in alloc; "types[{kind}].breaks.totals"),
        RuleFault::LunchOrder => format!(in alloc; "types[{kind}].breaks.lunches"),
        RuleFault::Resettle => format!(in alloc; "types[{kind}].breaks.resettle"),
        RuleFault::TooLarge => format!(in alloc; "types[{kind}].breaks."),
    }
}

/// The place of a fault of a document's numbers.
fn fault_place(alloc: Global, fault: &InstanceFault) -> Result<String, AllocError>
    ensures { IfOk result (λ place. string_bytes place ≡ fault_place fault.now) }
{
    match fault {
        InstanceFault::SlotMinutes => String::from_str(alloc, "slot_minutes"),
        InstanceFault::Days => String::from_str(alloc, "days"),
        InstanceFault::NeedLength {
            found: _,
            wanted: _,
        } => String::from_str(alloc, "need"),
        InstanceFault::NeedTooLarge { slot } => format!(in alloc; "need[{slot}]"),
        InstanceFault::Weight => String::from_str(alloc, "weights."),
        InstanceFault::Heads => String::from_str(alloc, "max_heads"),
        InstanceFault::Types { found: _ } => String::from_str(alloc, "types"),
        InstanceFault::StartRange { kind } => format!(in alloc; "types[{kind}].start_min"),
        InstanceFault::LengthRange { kind } => format!(in alloc; "types[{kind}].len_min"),
        InstanceFault::Rule { kind, why } => rule_place(alloc, *kind, *why),
        InstanceFault::TooManyShifts { found: _ } => String::from_str(alloc, "types"),
        InstanceFault::Name { kind } => format!(in alloc; "types[{kind}].name"),
        InstanceFault::BandLength {
            found: _,
            wanted: _,
        } => String::from_str(alloc, "need_max"),
        InstanceFault::Band { slot } => format!(in alloc; "need_max[{slot}]"),
        InstanceFault::NoMemory => Ok(String::new(alloc)),
    }
}

/// The place of a refusal, as far as the refusal itself tells it. A name that no field has is in the document or its
/// weights, or in a type or its breaks: of it the place of the type is told.
pub(crate) fn refusal_place(alloc: Global, refusal: &ReadRefusal) -> Result<String, AllocError>
    ensures { IfOk result (λ place. string_bytes place ≡ refusal_place refusal.now) }
{
    match refusal {
        ReadRefusal::TooLong => String::from_str(alloc, "document"),
        ReadRefusal::NotJson => String::from_str(alloc, "document"),
        ReadRefusal::Missing { at, field } => place_of_field(alloc, *at, field.as_str()),
        ReadRefusal::WrongKind { at, field } => place_of_field(alloc, *at, field.as_str()),
        ReadRefusal::UnknownField { at, field: _ } => {
            if *at == 0 {
                Ok(String::new(alloc))
            } else {
                place_in_type(alloc, *at - 1, "types")
            }
        }
        ReadRefusal::Invalid(fault) => fault_place(alloc, fault),
        ReadRefusal::NoMemory => Ok(String::new(alloc)),
    }
}
