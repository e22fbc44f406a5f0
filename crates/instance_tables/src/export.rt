//! From an instance to its tables.
ghost use Rattle.std.specs.Prelude.{◌≡◌, ◌<◌, ◌≤◌, ◌++◌, IfOk, string_bytes};
ghost use Rattle.std.specs.List.{flat_map};
ghost use Rattle.csv.specs.Writing.{default_writer, row_text};
ghost use Rattle.shift_instance.specs.Problem.{day_slots, slots};
ghost use Rattle.table_records.specs.Guarding.{guarded};
ghost use Rattle.instance_tables.specs.Times.{slots_text};
ghost use Rattle.instance_tables.specs.Settings.{need_fields, need_max_text, need_text, settings_fields, settings_text};
ghost use Rattle.instance_tables.specs.Types.{is_plain, rule_name, type_row, types_text};
ghost use Rattle.instance_tables.specs.RuleRows.{rules_text};

use crate::export_rules::{is_plain, rules_table};
use crate::hours::HoursMinutes;
use break_rules::NoMemory;
use shift_instance::{Instance, Parts, TypeParts};
use std::alloc::Global;
use table_records::{Records, guarded};

/// The tables of an instance, as the bytes of their files.
#[derive(Drop)]
pub struct TableTexts {
    /// The table of settings.
    pub settings: Vec<u8>,
    /// The table of needs.
    pub need: Vec<u8>,
    /// The table of types.
    pub types: Vec<u8>,
    /// The table of break rules.
    pub rules: Vec<u8>,
}

/// How long so many slots are together.
pub(crate) fn slots_text(alloc: Global, slot_minutes: u16, slots: u16) -> Result<String, NoMemory>
    ensures { IfOk result (λ text. string_bytes text ≡ slots_text slot_minutes slots) }
{
    let span = HoursMinutes {
        minutes: u64::from(slots) * u64::from(slot_minutes),
    };
    span.to_string(alloc)
}

/// Adds the row of the settings of an instance.
fn with_settings(alloc: Global, records: Records, parts: &Parts) -> Result<Records, NoMemory>
    ensures { IfOk result (λ r. r ≡ records ++ row_text default_writer (settings_fields parts.now)) }
{
    let slot_minutes = parts.slot_minutes.to_string(alloc)?;
    let days = parts.days.to_string(alloc)?;
    let excess = parts.excess.to_string(alloc)?;
    let shortage = parts.shortage.to_string(alloc)?;
    let shift = parts.shift.to_string(alloc)?;
    let max_heads = parts.max_heads.to_string(alloc)?;
    records.with(&[
        slot_minutes.as_bytes(),
        days.as_bytes(),
        excess.as_bytes(),
        shortage.as_bytes(),
        shift.as_bytes(),
        max_heads.as_bytes(),
    ])
}

/// The settings of an instance as a table.
fn settings_table(alloc: Global, parts: &Parts) -> Result<Vec<u8>, NoMemory>
    ensures { IfOk result (λ text. text.items ≡ settings_text parts.now) }
{
    let records = Records::new(alloc).with(&[
        b"slot_minutes",
        b"days",
        b"excess",
        b"shortage",
        b"shift",
        b"max_heads",
    ])?;
    let records = with_settings(alloc, records, parts)?;
    records.into_bytes()
}

/// How many slots a day has.
fn day_slots(instance: &Instance) -> usize
    ensures slots { result ≡ day_slots instance.now }
    ensures few { result ≤ 288 }
{
    let parts = instance.parts();
    1440 / usize::from(parts.slot_minutes)
}

/// When a slot begins, counted from the beginning of its day.
fn time_of_slot(alloc: Global, instance: &Instance, slot: u32) -> Result<String, NoMemory>
    ensures { IfOk result (λ text. string_bytes text ≡ slots_text instance.now.slot_minutes slot) }
{
    let parts = instance.parts();
    let time = HoursMinutes {
        minutes: u64::from(slot) * u64::from(parts.slot_minutes),
    };
    time.to_string(alloc)
}

/// The most wanted employees, and nothing where they are the least.
fn need_max_text(alloc: Global, need: u32, most: u32) -> Result<String, NoMemory>
    ensures { IfOk result (λ text. string_bytes text ≡ need_max_text need most) }
{
    if most == need {
        Ok(String::new(alloc))
    } else {
        most.to_string(alloc)
    }
}

/// Adds the row of a slot.
fn with_slot(
    alloc: Global,
    records: Records,
    instance: &Instance,
    t: usize,
) -> Result<Records, NoMemory>
    requires { t < slots instance.now }
    ensures { IfOk result (λ r. r ≡ records ++ row_text default_writer (need_fields instance.now t)) }
{
    let wanted = instance.need(t);
    let per_day = day_slots(instance);
    let day = (t / per_day + 1).to_string(alloc)?;
    let time = time_of_slot(alloc, instance, (t % per_day) as u32)?;
    let need = wanted.to_string(alloc)?;
    let most = need_max_text(alloc, wanted, instance.need_max(t))?;
    records.with(&[
        day.as_bytes(),
        time.as_bytes(),
        need.as_bytes(),
        most.as_bytes(),
    ])
}

/// The needs of an instance as a table.
fn need_table(alloc: Global, instance: &Instance) -> Result<Vec<u8>, NoMemory>
    ensures { IfOk result (λ text. text.items ≡ need_text instance.now) }
{
    let mut records = Records::new(alloc).with(&[b"day", b"time", b"need", b"need_max"])?;
    for t in 0..instance.slots() {
        records = with_slot(alloc, records, instance, t)?;
    }
    records.into_bytes()
}

/// The name of a type's rule, which is that of the type; none where it has no breaks.
fn rule_name(alloc: Global, kind: &TypeParts) -> Result<String, NoMemory>
    ensures { IfOk result (λ name. string_bytes name ≡ rule_name kind.now) }
{
    if is_plain(&kind.rule) {
        return Ok(String::new(alloc));
    }
    guarded(alloc, kind.name.as_str())
}

/// Adds the row of a type.
fn with_type(
    alloc: Global,
    records: Records,
    slot_minutes: u16,
    kind: &TypeParts,
) -> Result<Records, NoMemory>
    ensures { IfOk result (λ r. r ≡ records ++ type_row slot_minutes kind.now) }
{
    let name = guarded(alloc, kind.name.as_str())?;
    let first_start = slots_text(alloc, slot_minutes, kind.start_min)?;
    let last_start = slots_text(alloc, slot_minutes, kind.start_max)?;
    let shortest = slots_text(alloc, slot_minutes, kind.len_min)?;
    let longest = slots_text(alloc, slot_minutes, kind.len_max)?;
    let rule = rule_name(alloc, kind)?;
    records.with(&[
        name.as_bytes(),
        first_start.as_bytes(),
        last_start.as_bytes(),
        shortest.as_bytes(),
        longest.as_bytes(),
        rule.as_bytes(),
    ])
}

/// Adds the rows of types.
fn with_types(
    alloc: Global,
    records: Records,
    slot_minutes: u16,
    kinds: &[TypeParts],
) -> Result<Records, NoMemory>
    ensures { IfOk result (λ r. r ≡ records ++ flat_map (type_row slot_minutes) kinds.now) }
{
    let mut records = records;
    for kind in kinds {
        records = with_type(alloc, records, slot_minutes, kind)?;
    }
    Ok(records)
}

/// The types of an instance as a table.
fn types_table(alloc: Global, parts: &Parts) -> Result<Vec<u8>, NoMemory>
    ensures { IfOk result (λ text. text.items ≡ types_text parts.now) }
{
    let records = Records::new(alloc).with(&[
        b"name",
        b"first_start",
        b"last_start",
        b"shortest",
        b"longest",
        b"rule",
    ])?;
    let records = with_types(alloc, records, parts.slot_minutes, parts.types.as_slice())?;
    records.into_bytes()
}

/// The tables that an instance is written as.
///
/// Each has the names of its columns as its first line. The settings are one row; the needs have a row for each slot; the types have a row
/// for each, and the break rules one for each type with breaks, by the type's name. Names that a spreadsheet would calculate have an
/// apostrophe before them.
pub fn exported(alloc: Global, instance: &Instance) -> Result<TableTexts, NoMemory>
    ensures settings { IfOk result (λ texts. texts.settings.items ≡ settings_text instance.now) }
    ensures need { IfOk result (λ texts. texts.need.items ≡ need_text instance.now) }
    ensures types { IfOk result (λ texts. texts.types.items ≡ types_text instance.now) }
    ensures rules { IfOk result (λ texts. texts.rules.items ≡ rules_text instance.now) }
{
    let parts = instance.parts();
    Ok(TableTexts {
        settings: settings_table(alloc, parts)?,
        need: need_table(alloc, instance)?,
        types: types_table(alloc, parts)?,
        rules: rules_table(alloc, parts)?,
    })
}
