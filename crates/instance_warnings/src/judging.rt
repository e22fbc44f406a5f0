//! All warnings of an instance.
ghost use Rattle.std.specs.Prelude.{◌≡◌, ◌++◌, ◌≤◌, List, All, length, IfOk, OnOk, IsTrue};
ghost use Rattle.std.specs.List.{list_any, flat_map, enumerate_from};
ghost use Rattle.break_rules.specs.Ranges.{IsRule};
ghost use Rattle.shift_instance.specs.declared.Duty.{Duty};
ghost use Rattle.shift_instance.specs.Listing.{IsListed};
ghost use Rattle.shift_instance.specs.Rota.{cost, is_legal_rota};
ghost use Rattle.instance_warnings.specs.Reached.{unreached, unreached_cost};
ghost use Rattle.instance_warnings.specs.Odd.{most_break_of, odd_kind};
ghost use Rattle.instance_warnings.specs.Warnings.{most_wanted, has_breaks, breakless_warning, kind_warning, slot_warnings, head_warnings, weight_warnings, odd_warnings, warnings_of};

use crate::breaks::{culprit, forgets_totals, has_lists};
use crate::oddities::{
    greatest_need, most_break_of, push_excess, push_few_heads, push_hours, push_if, push_odd,
    push_short,
};
use crate::reaching::unreached;
use crate::slots::Slots;
use crate::telling::Warning;
use break_rules::NoMemory;
use rule_sentences::has_no_break;
use shift_instance::{Instance, TypeParts};
use std::alloc::Global;

/// Whether a shift of a type may have a break.
fn has_breaks(kind: &TypeParts) -> bool
    ensures { result ≡ has_breaks kind.now }
{
    !has_no_break(kind)
}

/// Whether a shift of some types may have a break.
fn have_breaks(kinds: &[TypeParts]) -> bool
    ensures { result ≡ list_any has_breaks kinds.now }
{
    kinds.iter().any(|kind| has_breaks(kind))
}

/// Adds the warning of a type without breaks, where its rule has no totals for it, or where others have breaks.
fn push_breakless(
    others: bool,
    number: u16,
    kind: &TypeParts,
    list: &mut Vec<Warning>,
) -> Result<(), NoMemory>
    ensures { OnOk result (list.new.items ≡ list.old.items ++ breakless_warning others (number, kind.now)) }
{
    if forgets_totals(kind) {
        list.push(Warning::NoTotals { kind: number })?;
        return Ok(());
    }
    let cause = others && has_no_break(kind);
    push_if(list, cause, Warning::Breakless { kind: number })
}

/// Adds the warning of a type where no length of it has a legal break list, or where it has no breaks.
fn push_kind(
    alloc: Global,
    others: bool,
    number: u16,
    kind: &TypeParts,
    list: &mut Vec<Warning>,
) -> Result<(), NoMemory>
    requires listed { IsListed kind.now }
    requires rule { IsRule kind.now.rule }
    ensures { OnOk result (list.new.items ≡ list.old.items ++ kind_warning others (number, kind.now)) }
{
    if has_lists(alloc, kind, &kind.rule)? {
        return push_breakless(others, number, kind, list);
    }
    let part = culprit(alloc, kind)?;
    list.push(Warning::NoBreaks { kind: number, part })?;
    Ok(())
}

/// Adds the warnings of types without a legal break list, or without breaks.
fn push_kinds(alloc: Global, kinds: &[TypeParts], list: &mut Vec<Warning>) -> Result<(), NoMemory>
    requires few { length kinds.now ≤ 16 }
    requires listed { All IsListed kinds.now }
    requires rules { All (λ k. IsRule k.rule) kinds.now }
    ensures { OnOk result (list.new.items ≡ list.old.items ++ flat_map (kind_warning (list_any has_breaks kinds.now)) (enumerate_from 0 kinds.now)) }
{
    let others = have_breaks(kinds);
    for (k, kind) in kinds.iter().enumerate() {
        push_kind(alloc, others, k as u16, kind, list)?;
    }
    Ok(())
}

/// What some slots with a need cost at least if no duty works in them.
fn cost_of(instance: &Instance, slots: &[u16]) -> u64
    requires { slots.now ≡ unreached instance.now }
    ensures { result ≡ unreached_cost instance.now }
{
    let (_, shortage, _) = instance.weights();
    let mut sum = 0;
    for t in slots {
        sum += u64::from(shortage) * u64::from(instance.need(usize::from(*t)));
    }
    sum
}

/// Adds the warning of slots that no duty can reach, where there are any.
fn push_slots(
    alloc: Global,
    instance: &Instance,
    slots: &[u16],
    list: &mut Vec<Warning>,
) -> Result<(), NoMemory>
    requires { slots.now ≡ unreached instance.now }
    ensures { OnOk result (list.new.items ≡ list.old.items ++ slot_warnings instance.now) }
{
    if !slots.is_empty() {
        let least = cost_of(instance, slots);
        let slots = Slots::new(slots.to_vec(alloc)?);
        list.push(Warning::Unreached { slots, least })?;
    }
    Ok(())
}

/// The greatest number of wanted employees of a slot.
fn most_wanted(instance: &Instance) -> u32
    ensures wanted { result ≡ most_wanted instance.now }
    ensures limit { result ≤ 10000 }
{
    let mut greatest = 0u32;
    for t in 0..instance.slots() {
        greatest = greatest.max(instance.need_max(t));
    }
    greatest
}

/// Adds the warning that nobody is wanted, or else of a greatest number of duties that is far above all wanted employees.
fn push_heads(instance: &Instance, list: &mut Vec<Warning>) -> Result<(), NoMemory>
    ensures { OnOk result (list.new.items ≡ list.old.items ++ head_warnings instance.now) }
{
    let most = instance.heads();
    let need = most_wanted(instance);
    if need == 0 {
        list.push(Warning::Nobody)?;
        return Ok(());
    }
    let cause = 2 * need < u32::from(most);
    push_if(list, cause, Warning::Heads { most, need })
}

/// Adds the warnings of weights that are 0.
fn push_weights(instance: &Instance, list: &mut Vec<Warning>) -> Result<(), NoMemory>
    ensures { OnOk result (list.new.items ≡ list.old.items ++ weight_warnings instance.now) }
{
    let (excess, shortage, shift) = instance.weights();
    push_if(list, excess == 0, Warning::NoExcess)?;
    push_if(list, shortage == 0, Warning::NoShortage)?;
    push_if(list, shift == 0, Warning::NoShift)
}

/// Adds the warnings of what is odd in types.
fn push_odd_kinds(
    instance: &Instance,
    kinds: &[TypeParts],
    list: &mut Vec<Warning>,
) -> Result<(), NoMemory>
    requires few { length kinds.now ≤ 16 }
    requires listed { All IsListed kinds.now }
    ensures { OnOk result (list.new.items ≡ list.old.items ++ flat_map (odd_kind instance.now (most_break_of kinds.now)) (enumerate_from 0 kinds.now)) }
{
    let most = most_break_of(kinds);
    for (k, kind) in kinds.iter().enumerate() {
        push_odd(instance, most, k as u16, kind, list)?;
    }
    Ok(())
}

/// Adds the warnings of what is legal and odd, where these are the slots with a need that no duty can reach.
fn push_odd_warnings(
    instance: &Instance,
    slots: &[u16],
    list: &mut Vec<Warning>,
) -> Result<(), NoMemory>
    requires { slots.now ≡ unreached instance.now }
    ensures { OnOk result (list.new.items ≡ list.old.items ++ odd_warnings instance.now) }
{
    push_excess(instance, list)?;
    push_few_heads(instance, greatest_need(instance), list)?;
    push_short(instance, list)?;
    push_hours(instance, slots, list)?;
    let parts = instance.parts();
    push_odd_kinds(instance, parts.types.as_slice(), list)
}

/// What a planner should know of an instance before it is searched: the types without a legal break list, and those that
/// have no breaks by a rule or while others have, in their order; the slots with a need that no duty can reach; that no slot
/// wants anybody, or a greatest number of duties that is more than twice the greatest number of wanted employees; weights of
/// 0; and what is legal and odd. The list is empty where there is nothing to say. Running out of
/// memory is the one refusal.
pub fn warnings(alloc: Global, instance: &Instance) -> Result<Vec<Warning>, NoMemory>
    ensures { IfOk result (λ list. list.items ≡ warnings_of instance.now) }
{
    let mut list = Vec::new(alloc);
    let parts = instance.parts();
    push_kinds(alloc, parts.types.as_slice(), &mut list)?;
    let slots = unreached(alloc, instance)?;
    push_slots(alloc, instance, &slots, &mut list)?;
    push_heads(instance, &mut list)?;
    push_weights(instance, &mut list)?;
    push_odd_warnings(instance, &slots, &mut list)?;
    Ok(list)
}

/// Every legal plan costs at least what is said of the slots that no duty can reach. The contract is the law; the function
/// changes nothing.
pub fn unreached_slots_cost(instance: &Instance)
    ensures least { (rota : List Duty) → IsTrue (is_legal_rota instance.now rota) → unreached_cost instance.now ≤ cost instance.now rota }
{
    let _parts = instance.parts();
}
