//! What is legal and odd in the numbers of an instance.
ghost use Rattle.std.specs.Prelude.{◌≡◌, ◌≤◌, ◌++◌, All, OnOk};
ghost use Rattle.std.specs.List.{flat_map, list_any, list_all};
ghost use Rattle.instance_warnings.specs.Odd.{warning_if, excess_warnings, greatest_need, few_heads_warnings, longest_of, short_warnings, has_hours, is_like_hours, hour_warning, type_like_hours, beyond, most_break, most_break_of, size_beyond, parted, same_lunch, uses_lunch, odd_lunch, going_round, odd_kind};
ghost use Rattle.shift_instance.specs.Listing.{IsListed};

use crate::telling::{Limit, Warning};
use break_rules::{Lunch, NoMemory, total_among};
use shift_instance::{Instance, TypeParts};

/// The length that stands for no limit.
const NO_LIMIT: u16 = 288;

/// The greatest length of breaks that stands for no limit.
const NO_SIZE_LIMIT: u16 = 48;

/// Adds a warning where there is cause for it.
pub(crate) fn push_if(
    list: &mut Vec<Warning>,
    cause: bool,
    warning: Warning,
) -> Result<(), NoMemory>
    ensures { OnOk result (list.new.items ≡ list.old.items ++ warning_if cause warning) }
{
    if cause {
        list.push(warning)?;
    }
    Ok(())
}

/// Adds the warning of excess that costs more than shortage.
pub(crate) fn push_excess(instance: &Instance, list: &mut Vec<Warning>) -> Result<(), NoMemory>
    ensures { OnOk result (list.new.items ≡ list.old.items ++ excess_warnings instance.now) }
{
    let (excess, shortage, _) = instance.weights();
    let cause = 0 < shortage && shortage < excess;
    push_if(list, cause, Warning::ExcessAbove { excess, shortage })
}

/// The greatest need of a slot.
pub(crate) fn greatest_need(instance: &Instance) -> u32
    ensures need { result ≡ greatest_need instance.now }
    ensures limit { result ≤ 10000 }
{
    let mut greatest = 0u32;
    for t in 0..instance.slots() {
        greatest = greatest.max(instance.need(t));
    }
    greatest
}

/// Adds the warning of fewer duties of one shift on one day than a need.
pub(crate) fn push_few_heads(
    instance: &Instance,
    need: u32,
    list: &mut Vec<Warning>,
) -> Result<(), NoMemory>
    ensures { OnOk result (list.new.items ≡ list.old.items ++ few_heads_warnings instance.now need) }
{
    let most = instance.heads();
    push_if(
        list,
        u32::from(most) < need,
        Warning::HeadsBelow { most, need },
    )
}

/// The length of the longest shift of some types.
fn longest_of(kinds: &[TypeParts]) -> u16
    ensures { result ≡ longest_of kinds.now }
{
    let mut longest = 0;
    for kind in kinds {
        longest = kind.len_max.max(longest);
    }
    longest
}

/// Adds the warning of shifts that are all shorter than two hours.
pub(crate) fn push_short(instance: &Instance, list: &mut Vec<Warning>) -> Result<(), NoMemory>
    ensures { OnOk result (list.new.items ≡ list.old.items ++ short_warnings instance.now) }
{
    let parts = instance.parts();
    let longest = longest_of(parts.types.as_slice());
    let minutes = u32::from(longest) * u32::from(parts.slot_minutes);
    push_if(list, minutes < 120, Warning::Short { longest })
}

/// Whether the starts and the lengths of a type are such as hours have.
fn has_hours(kind: &TypeParts) -> bool
    ensures { result ≡ has_hours kind.now }
{
    kind.start_max < 24 && kind.len_max <= 12
}

/// Whether the starts and the lengths of all types are such as hours have.
fn all_have_hours(kinds: &[TypeParts]) -> bool
    ensures { result ≡ list_all has_hours kinds.now }
{
    kinds.iter().all(|kind| has_hours(kind))
}

/// Whether slots are shorter than hours, and all starts and lengths are such as hours have.
fn is_like_hours(instance: &Instance) -> bool
    ensures { result ≡ is_like_hours instance.now }
{
    let parts = instance.parts();
    parts.slot_minutes < 60 && all_have_hours(parts.types.as_slice())
}

/// Adds the warning of times that look like hours, where some slots with a need aren't reached.
pub(crate) fn push_hours(
    instance: &Instance,
    unreached: &[u16],
    list: &mut Vec<Warning>,
) -> Result<(), NoMemory>
    ensures { OnOk result (list.new.items ≡ list.old.items ++ hour_warning (is_like_hours instance.now) unreached.now) }
{
    if unreached.is_empty() {
        return Ok(());
    }
    push_if(list, is_like_hours(instance), Warning::LikeHours)
}

/// Adds the warning of a type with times that look like hours, where not all types have such.
fn push_type_hours(
    instance: &Instance,
    number: u16,
    kind: &TypeParts,
    list: &mut Vec<Warning>,
) -> Result<(), NoMemory>
    ensures { OnOk result (list.new.items ≡ list.old.items ++ type_like_hours instance.now (number, kind.now)) }
{
    let parts = instance.parts();
    let all = all_have_hours(parts.types.as_slice());
    let cause = parts.slot_minutes <= 15 && has_hours(kind) && !all;
    push_if(list, cause, Warning::TypeLikeHours { kind: number })
}

/// Adds the warning of a limit that is above the longest shift of its type.
fn push_beyond(
    number: u16,
    kind: &TypeParts,
    limit: Limit,
    slots: u16,
    list: &mut Vec<Warning>,
) -> Result<(), NoMemory>
    ensures { OnOk result (list.new.items ≡ list.old.items ++ beyond (number, kind.now) limit slots) }
{
    let longest = kind.len_max;
    let cause = longest < slots && slots != NO_LIMIT;
    push_if(
        list,
        cause,
        Warning::Beyond {
            kind: number,
            limit,
            slots,
            longest,
        },
    )
}

/// The most break time of a shift of a type.
fn most_break(kind: &TypeParts) -> u16
    requires { IsListed kind.now }
    ensures { result ≡ most_break kind.now }
{
    let totals = kind.rule.totals.as_slice();
    let low = kind.len_min;
    let high = kind.len_max + 1;
    let mut most = 0u16;
    for len in low..high {
        most = most.max(total_among(totals, len));
    }
    most
}

/// The most break time of a shift of some types.
pub(crate) fn most_break_of(kinds: &[TypeParts]) -> u16
    requires { All IsListed kinds.now }
    ensures { result ≡ most_break_of kinds.now }
{
    let mut most = 0;
    for kind in kinds {
        most = most_break(kind).max(most);
    }
    most
}

/// Adds the warning of a greatest length of breaks that is above the most break time of all shifts.
fn push_size(
    most: u16,
    number: u16,
    kind: &TypeParts,
    list: &mut Vec<Warning>,
) -> Result<(), NoMemory>
    ensures { OnOk result (list.new.items ≡ list.old.items ++ size_beyond most (number, kind.now)) }
{
    let slots = kind.rule.size_max;
    let cause = 0 < most && most < slots && slots != NO_SIZE_LIMIT;
    push_if(
        list,
        cause,
        Warning::SizeBeyond {
            kind: number,
            slots,
            most,
        },
    )
}

/// Adds the warning of an entry of totals between lengths of its type.
fn push_part(
    number: u16,
    kind: &TypeParts,
    entry: (u16, u16),
    list: &mut Vec<Warning>,
) -> Result<(), NoMemory>
    ensures { OnOk result (list.new.items ≡ list.old.items ++ parted (number, kind.now) entry) }
{
    let (len, from) = entry;
    let before = total_among(kind.rule.totals.as_slice(), len.saturating_sub(1));
    let cause = kind.len_min < len && len <= kind.len_max && before != from;
    push_if(
        list,
        cause,
        Warning::Parted {
            kind: number,
            len,
            before,
            from,
        },
    )
}

/// Adds the warnings of totals between lengths of their type.
fn push_parts(
    number: u16,
    kind: &TypeParts,
    totals: &[(u16, u16)],
    list: &mut Vec<Warning>,
) -> Result<(), NoMemory>
    ensures { OnOk result (list.new.items ≡ list.old.items ++ flat_map (parted (number, kind.now)) totals.now) }
{
    for entry in totals {
        push_part(number, kind, *entry, list)?;
    }
    Ok(())
}

/// Whether two lunches are the same.
fn is_same_lunch(lunch: &Lunch, other: &Lunch) -> bool
    ensures { result ≡ same_lunch lunch.now other.now }
{
    lunch.from_len == other.from_len
        && lunch.size == other.size
        && lunch.first == other.first
        && lunch.last == other.last
}

/// Whether the rule of a type has a lunch.
fn has_lunch(kind: &TypeParts, lunch: &Lunch) -> bool
    ensures { result ≡ list_any (same_lunch lunch.now) kind.now.rule.lunches }
{
    let lunches = kind.rule.lunches.as_slice();
    lunches.iter().any(|other| is_same_lunch(lunch, other))
}

/// Whether a type has a lunch that is asked for in some of its shifts.
fn uses_lunch(kind: &TypeParts, lunch: &Lunch) -> bool
    ensures { result ≡ uses_lunch lunch.now kind.now }
{
    lunch.from_len <= kind.len_max && has_lunch(kind, lunch)
}

/// Whether some type uses a lunch.
fn is_used_lunch(kinds: &[TypeParts], lunch: &Lunch) -> bool
    ensures { result ≡ list_any (uses_lunch lunch.now) kinds.now }
{
    kinds.iter().any(|kind| uses_lunch(kind, lunch))
}

/// Adds the warning of a lunch between lengths of its type, or above all of them where no type uses it.
fn push_lunch(
    kinds: &[TypeParts],
    number: u16,
    kind: &TypeParts,
    lunch: Lunch,
    list: &mut Vec<Warning>,
) -> Result<(), NoMemory>
    ensures { OnOk result (list.new.items ≡ list.old.items ++ odd_lunch kinds.now (number, kind.now) lunch) }
{
    let len = lunch.from_len;
    let longest = kind.len_max;
    push_if(
        list,
        kind.len_min < len && len <= longest,
        Warning::LunchParted {
            kind: number,
            len,
            size: lunch.size,
        },
    )?;
    push_if(
        list,
        longest < len && !is_used_lunch(kinds, &lunch),
        Warning::LunchBeyond {
            kind: number,
            len,
            longest,
        },
    )
}

/// Adds the warnings of lunches between lengths of their type, or above all of them where no type uses them.
fn push_lunches(
    kinds: &[TypeParts],
    number: u16,
    kind: &TypeParts,
    lunches: &[Lunch],
    list: &mut Vec<Warning>,
) -> Result<(), NoMemory>
    ensures { OnOk result (list.new.items ≡ list.old.items ++ flat_map (odd_lunch kinds.now (number, kind.now)) lunches.now) }
{
    for lunch in lunches {
        push_lunch(kinds, number, kind, *lunch, list)?;
    }
    Ok(())
}

/// Adds the warning of shifts that go on into the next day.
fn push_going_round(
    per_day: u16,
    number: u16,
    kind: &TypeParts,
    list: &mut Vec<Warning>,
) -> Result<(), NoMemory>
    ensures { OnOk result (list.new.items ≡ list.old.items ++ going_round per_day (number, kind.now)) }
{
    let end = u32::from(kind.start_max) + u32::from(kind.len_max);
    let end = end.saturating_sub(u32::from(per_day));
    push_if(list, 0 < end, Warning::GoesRound { kind: number, end })
}

/// Adds what is odd in a type, where that is the most break time of all shifts.
pub(crate) fn push_odd(
    instance: &Instance,
    most: u16,
    number: u16,
    kind: &TypeParts,
    list: &mut Vec<Warning>,
) -> Result<(), NoMemory>
    ensures { OnOk result (list.new.items ≡ list.old.items ++ odd_kind instance.now most (number, kind.now)) }
{
    let parts = instance.parts();
    push_type_hours(instance, number, kind, list)?;
    push_beyond(number, kind, Limit::WorkMax, kind.rule.work_max, list)?;
    push_beyond(number, kind, Limit::LongWork, kind.rule.long_work, list)?;
    push_size(most, number, kind, list)?;
    push_parts(number, kind, kind.rule.totals.as_slice(), list)?;
    push_lunches(
        parts.types.as_slice(),
        number,
        kind,
        kind.rule.lunches.as_slice(),
        list,
    )?;
    push_going_round(1440 / parts.slot_minutes, number, kind, list)
}
