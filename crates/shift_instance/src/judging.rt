//! The faults of an instance's numbers, one after another.
ghost use Rattle.std.specs.Prelude.{◌≡◌, ◌≤◌, ◌^◌, ◌+◌, ◌-◌, ℕ, length, map, take};
ghost use Rattle.std.specs.List.{enumerate_from, flat_map, list_all, zip};
ghost use Rattle.break_rules.specs.Causes.{first_cause};
ghost use Rattle.break_rules.specs.RuleFaults.{rule_causes};
ghost use Rattle.shift_instance.specs.Problem.{shifts_of_kind, slots};
ghost use Rattle.shift_instance.specs.Names.{is_name_byte, is_name, has_name, is_taken};
ghost use Rattle.shift_instance.specs.Faults.{period_causes, need_cause, band_cause, band_causes, wanted_causes, size_causes, cause_of_kind, kind_causes, types_causes, part_causes, instance_causes, is_slot_minutes};

use crate::{InstanceFault, Parts, TypeParts};
use break_rules::Rule;

/// Whether a slot may have that many minutes.
fn divides_day(minutes: u16) -> bool
    ensures { result ≡ is_slot_minutes minutes }
{
    minutes == 5
        || minutes == 10
        || minutes == 15
        || minutes == 20
        || minutes == 30
        || minutes == 60
}

/// The first fault of the planning period.
fn judge_period(parts: &Parts) -> Option<InstanceFault>
    ensures { result ≡ first_cause (period_causes parts.now) }
{
    if !divides_day(parts.slot_minutes) {
        return Some(InstanceFault::SlotMinutes);
    }
    if parts.days < 1 || 7 < parts.days {
        return Some(InstanceFault::Days);
    }
    let found = parts.need.len() as u64;
    let wanted = u64::from(parts.days) * (1440 / u64::from(parts.slot_minutes));
    if found != wanted {
        return Some(InstanceFault::NeedLength { found, wanted });
    }
    None
}

/// The first need that is too large.
fn judge_needs(needs: &[u32]) -> Option<InstanceFault>
    ensures { result ≡ first_cause (map need_cause (enumerate_from 0 needs.now)) }
{
    for (t, need) in needs.iter().enumerate() {
        if 10000 < *need {
            return Some(InstanceFault::NeedTooLarge { slot: t as u64 });
        }
    }
    None
}

/// The first band that ends below the need, or is too large.
fn judge_ends(needs: &[u32], ends: &[u32]) -> Option<InstanceFault>
    requires { length ends.now ≡ length needs.now }
    ensures { result ≡ first_cause (map band_cause (enumerate_from 0 (zip needs.now ends.now))) }
{
    for (t, end) in ends.iter().enumerate() {
        if *end < needs[t] || 10000 < *end {
            return Some(InstanceFault::Band { slot: t as u64 });
        }
    }
    None
}

/// The first fault of the bands, where there is a need for each slot.
fn judge_bands(parts: &Parts) -> Option<InstanceFault>
    requires { length parts.now.need ≡ slots parts.now }
    ensures { result ≡ first_cause (band_causes parts.now) }
{
    let found = parts.need_max.len() as u64;
    let wanted = parts.need.len() as u64;
    if found != wanted {
        return Some(InstanceFault::BandLength { found, wanted });
    }
    judge_ends(parts.need.as_slice(), parts.need_max.as_slice())
}

/// The first fault of the wanted employees, where there is a need for each slot.
fn judge_wanted(parts: &Parts) -> Option<InstanceFault>
    requires { length parts.now.need ≡ slots parts.now }
    ensures { result ≡ first_cause (wanted_causes parts.now) }
{
    match judge_needs(parts.need.as_slice()) {
        Some(fault) => Some(fault),
        None => judge_bands(parts),
    }
}

/// The first fault of weights, of the most duties of a shift on a day and of the number of types.
fn judge_sizes(parts: &Parts) -> Option<InstanceFault>
    ensures { result ≡ first_cause (size_causes parts.now) }
{
    if 1_000_000 < parts.excess || 1_000_000 < parts.shortage || 1_000_000 < parts.shift {
        return Some(InstanceFault::Weight);
    }
    if parts.max_heads < 1 || 200 < parts.max_heads {
        return Some(InstanceFault::Heads);
    }
    let found = parts.types.len();
    if found < 1 || 16 < found {
        return Some(InstanceFault::Types {
            found: found as u64,
        });
    }
    None
}

/// Whether a byte is visible ASCII, and no space.
fn may_name(byte: u8) -> bool
    ensures { result ≡ is_name_byte byte }
{
    b'!' <= byte && byte <= b'~'
}

/// Whether all bytes are visible ASCII without space.
fn all_may_name(bytes: &[u8]) -> bool
    ensures { result ≡ list_all is_name_byte bytes.now }
{
    bytes.iter().all(|byte| may_name(*byte))
}

/// Whether a text may name a type.
fn names_type(name: &[u8]) -> bool
    ensures { result ≡ is_name name.now }
{
    1 <= name.len() && name.len() <= 32 && all_may_name(name)
}

/// Whether a type has a name.
fn is_named(kind: &TypeParts, name: &[u8]) -> bool
    ensures { result ≡ has_name name.now kind.now }
{
    kind.name.as_bytes() == name
}

/// Whether one of some types has a name.
fn any_named(kinds: &[TypeParts], name: &[u8]) -> bool
    ensures { result ≡ is_taken kinds.now name.now }
{
    kinds.iter().any(|kind| is_named(kind, name))
}

/// The fault of a type's rule.
fn judge_rule(number: u16, rule: &Rule) -> Option<InstanceFault>
    ensures { result ≡ first_cause (map (cause_of_kind number) (rule_causes rule.now)) }
{
    match rule.check() {
        Ok(()) => None,
        Err(why) => Some(InstanceFault::Rule { kind: number, why }),
    }
}

/// The first fault of a type behind others.
fn judge_kind(
    per_day: u32,
    before: &[TypeParts],
    number: u16,
    kind: &TypeParts,
) -> Option<InstanceFault>
    requires { per_day ≤ 1440 }
    ensures { result ≡ first_cause (kind_causes per_day before.now (number, kind.now)) }
{
    let name = kind.name.as_bytes();
    if !names_type(name) || any_named(before, name) {
        return Some(InstanceFault::Name { kind: number });
    }
    if kind.start_max < kind.start_min || 2 * per_day <= u32::from(kind.start_max) {
        return Some(InstanceFault::StartRange { kind: number });
    }
    if kind.len_min < 1 || kind.len_max < kind.len_min || per_day < u32::from(kind.len_max) {
        return Some(InstanceFault::LengthRange { kind: number });
    }
    judge_rule(number, &kind.rule)
}

/// The first fault of the types.
fn judge_kinds(per_day: u32, kinds: &[TypeParts]) -> Option<InstanceFault>
    requires day { per_day ≤ 1440 }
    requires few { length kinds.now ≤ 16 }
    ensures { result ≡ first_cause (types_causes per_day kinds.now) }
{
    for (k, kind) in kinds.iter().enumerate() {
        match judge_kind(per_day, &kinds[..k], k as u16, kind) {
            Some(fault) => return Some(fault),
            None => {}
        }
    }
    None
}

/// How many numbers there are from one to another.
fn span(low: u16, high: u16) -> u64
    ensures span { result ≡ high + 1 - low }
    ensures few { result ≤ 2 ^ 16 }
{
    (u64::from(high) + 1).saturating_sub(u64::from(low))
}

/// How many shifts a type has.
fn kind_count(kind: &TypeParts) -> u64
    ensures count { (n : ℕ) → result ≡ length (shifts_of_kind (n, kind.now)) }
    ensures few { result ≤ 2 ^ 32 }
{
    span(kind.start_min, kind.start_max) * span(kind.len_min, kind.len_max)
}

/// How many shifts the types have.
fn count_shifts(kinds: &[TypeParts]) -> u64
    requires { length kinds.now ≤ 16 }
    ensures { result ≡ length (flat_map shifts_of_kind (enumerate_from 0 kinds.now)) }
{
    let mut count = 0;
    for kind in kinds {
        count += kind_count(kind);
    }
    count
}

/// The first fault of the numbers, but for the number of shifts.
fn judge_parts(parts: &Parts) -> Option<InstanceFault>
    ensures { result ≡ first_cause (part_causes parts.now) }
{
    match judge_period(parts) {
        Some(fault) => return Some(fault),
        None => {}
    }
    match judge_wanted(parts) {
        Some(fault) => return Some(fault),
        None => {}
    }
    match judge_sizes(parts) {
        Some(fault) => return Some(fault),
        None => {}
    }
    judge_kinds(1440 / u32::from(parts.slot_minutes), parts.types.as_slice())
}

/// The first fault of the numbers.
pub(crate) fn judge(parts: &Parts) -> Option<InstanceFault>
    ensures { result ≡ first_cause (instance_causes parts.now) }
{
    match judge_parts(parts) {
        Some(fault) => Some(fault),
        None => {
            let found = count_shifts(parts.types.as_slice());
            if 1024 < found {
                Some(InstanceFault::TooManyShifts { found })
            } else {
                None
            }
        }
    }
}
