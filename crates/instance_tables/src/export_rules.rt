//! Break rules as a table.
ghost use Rattle.std.specs.Prelude.{◌≡◌, ◌*◌, ◌++◌, IfOk, OnOk, codes, string_bytes};
ghost use Rattle.std.specs.List.{flat_map};
ghost use Rattle.csv.specs.Writing.{default_writer, row_text};
ghost use Rattle.instance_tables.specs.Types.{is_plain};
ghost use Rattle.instance_tables.specs.RuleRows.{entries_text, lunch_text, part_text, rest_text, rule_fields, rule_row, rules_text, total_text};

use crate::export::slots_text;
use crate::hours::HoursMinutes;
use break_rules::{Lunch, NoMemory, Rule};
use shift_instance::{Parts, TypeParts};
use std::alloc::Global;
use std::fmt::Write;
use table_records::{Records, guarded};

/// Whether a rule is the plain one.
pub(crate) fn is_plain(rule: &Rule) -> bool
    ensures { result ≡ is_plain rule.now }
{
    rule.lead == 0
        && rule.tail == 0
        && rule.work_min == 1
        && rule.work_max == 288
        && rule.long_work == 288
        && rule.long_rest == 1
        && rule.size_min == 1
        && rule.size_max == 48
        && rule.resettle == 0
        && rule.totals.as_slice().is_empty()
        && rule.lunches.as_slice().is_empty()
}

/// A part of a rule, and nothing where it is as if it weren't said.
fn part_text(alloc: Global, slot_minutes: u16, unsaid: u16, slots: u16) -> Result<String, NoMemory>
    ensures { IfOk result (λ text. string_bytes text ≡ part_text slot_minutes unsaid slots) }
{
    if slots == unsaid {
        Ok(String::new(alloc))
    } else {
        slots_text(alloc, slot_minutes, slots)
    }
}

/// How long a break behind long work is; nothing only where no work is long.
fn rest_text(alloc: Global, slot_minutes: u16, rule: &Rule) -> Result<String, NoMemory>
    ensures { IfOk result (λ text. string_bytes text ≡ rest_text slot_minutes rule.now) }
{
    if rule.long_work == 288 && rule.long_rest == 1 {
        Ok(String::new(alloc))
    } else {
        slots_text(alloc, slot_minutes, rule.long_rest)
    }
}

/// How long so many slots are together.
fn span_of(slot_minutes: u16, slots: u16) -> HoursMinutes
    ensures { result.minutes ≡ slots * slot_minutes }
{
    HoursMinutes {
        minutes: u64::from(slots) * u64::from(slot_minutes),
    }
}

/// Adds an entry of break times by length.
fn add_total(text: &mut String, slot_minutes: u16, entry: (u16, u16)) -> Result<(), NoMemory>
    ensures { OnOk result (string_bytes text.new ≡ string_bytes text.old ++ total_text slot_minutes entry) }
{
    let from = span_of(slot_minutes, entry.0);
    let breaks = span_of(slot_minutes, entry.1);
    write!(text, "{from}={breaks}")
}

/// Adds further entries of break times, each with a space before it.
fn add_totals(text: &mut String, slot_minutes: u16, entries: &[(u16, u16)]) -> Result<(), NoMemory>
    ensures { OnOk result (string_bytes text.new ≡ string_bytes text.old ++ flat_map (λ next. codes " " ++ total_text slot_minutes next) entries.now) }
{
    for next in entries {
        text.push_str(" ")?;
        add_total(text, slot_minutes, *next)?;
    }
    Ok(())
}

/// The break times by length, with a space between two.
fn totals_text(alloc: Global, slot_minutes: u16, entries: &[(u16, u16)]) -> Result<String, NoMemory>
    ensures { IfOk result (λ text. string_bytes text ≡ entries_text (total_text slot_minutes) entries.now) }
{
    let mut text = String::new(alloc);
    if let [first, further @ ..] = entries {
        add_total(&mut text, slot_minutes, *first)?;
        add_totals(&mut text, slot_minutes, further)?;
    }
    Ok(text)
}

/// Adds an entry of lunches by length.
fn add_lunch(text: &mut String, slot_minutes: u16, entry: Lunch) -> Result<(), NoMemory>
    ensures { OnOk result (string_bytes text.new ≡ string_bytes text.old ++ lunch_text slot_minutes entry) }
{
    let from = span_of(slot_minutes, entry.from_len);
    let size = span_of(slot_minutes, entry.size);
    let first = span_of(slot_minutes, entry.first);
    let last = span_of(slot_minutes, entry.last);
    write!(text, "{from}={size}@{first}-{last}")
}

/// Adds further entries of lunches, each with a space before it.
fn add_lunches(text: &mut String, slot_minutes: u16, entries: &[Lunch]) -> Result<(), NoMemory>
    ensures { OnOk result (string_bytes text.new ≡ string_bytes text.old ++ flat_map (λ next. codes " " ++ lunch_text slot_minutes next) entries.now) }
{
    for next in entries {
        text.push_str(" ")?;
        add_lunch(text, slot_minutes, *next)?;
    }
    Ok(())
}

/// The lunches by length, with a space between two.
fn lunches_text(alloc: Global, slot_minutes: u16, entries: &[Lunch]) -> Result<String, NoMemory>
    ensures { IfOk result (λ text. string_bytes text ≡ entries_text (lunch_text slot_minutes) entries.now) }
{
    let mut text = String::new(alloc);
    if let [first, further @ ..] = entries {
        add_lunch(&mut text, slot_minutes, *first)?;
        add_lunches(&mut text, slot_minutes, further)?;
    }
    Ok(text)
}

/// The parts of a rule that limit work, as a table has them.
#[derive(Drop)]
struct WorkTexts {
    lead: String,
    tail: String,
    work_min: String,
    work_max: String,
    long_work: String,
}

/// The parts of a rule that limit each break, as a table has them.
#[derive(Drop)]
struct BreakTexts {
    long_rest: String,
    size_min: String,
    size_max: String,
    resettle: String,
}

/// The parts of a rule that limit work.
fn work_texts(alloc: Global, slot_minutes: u16, rule: &Rule) -> Result<WorkTexts, NoMemory>
    ensures lead { IfOk result (λ texts. string_bytes texts.lead ≡ part_text slot_minutes 0 rule.now.lead) }
    ensures tail { IfOk result (λ texts. string_bytes texts.tail ≡ part_text slot_minutes 0 rule.now.tail) }
    ensures work_min { IfOk result (λ texts. string_bytes texts.work_min ≡ part_text slot_minutes 1 rule.now.work_min) }
    ensures work_max { IfOk result (λ texts. string_bytes texts.work_max ≡ part_text slot_minutes 288 rule.now.work_max) }
    ensures long_work { IfOk result (λ texts. string_bytes texts.long_work ≡ part_text slot_minutes 288 rule.now.long_work) }
{
    Ok(WorkTexts {
        lead: part_text(alloc, slot_minutes, 0, rule.lead)?,
        tail: part_text(alloc, slot_minutes, 0, rule.tail)?,
        work_min: part_text(alloc, slot_minutes, 1, rule.work_min)?,
        work_max: part_text(alloc, slot_minutes, 288, rule.work_max)?,
        long_work: part_text(alloc, slot_minutes, 288, rule.long_work)?,
    })
}

/// The parts of a rule that limit each break.
fn break_texts(alloc: Global, slot_minutes: u16, rule: &Rule) -> Result<BreakTexts, NoMemory>
    ensures long_rest { IfOk result (λ texts. string_bytes texts.long_rest ≡ rest_text slot_minutes rule.now) }
    ensures size_min { IfOk result (λ texts. string_bytes texts.size_min ≡ part_text slot_minutes 1 rule.now.size_min) }
    ensures size_max { IfOk result (λ texts. string_bytes texts.size_max ≡ part_text slot_minutes 48 rule.now.size_max) }
    ensures resettle { IfOk result (λ texts. string_bytes texts.resettle ≡ part_text slot_minutes 0 rule.now.resettle) }
{
    Ok(BreakTexts {
        long_rest: rest_text(alloc, slot_minutes, rule)?,
        size_min: part_text(alloc, slot_minutes, 1, rule.size_min)?,
        size_max: part_text(alloc, slot_minutes, 48, rule.size_max)?,
        resettle: part_text(alloc, slot_minutes, 0, rule.resettle)?,
    })
}

/// Adds the row of the rule of a type.
fn with_rule(
    alloc: Global,
    records: Records,
    slot_minutes: u16,
    name: &str,
    rule: &Rule,
) -> Result<Records, NoMemory>
    ensures { IfOk result (λ r. r ≡ records ++ row_text default_writer (rule_fields slot_minutes name.now rule.now)) }
{
    let name = guarded(alloc, name)?;
    let work = work_texts(alloc, slot_minutes, rule)?;
    let breaks = break_texts(alloc, slot_minutes, rule)?;
    let totals = totals_text(alloc, slot_minutes, rule.totals.as_slice())?;
    let lunches = lunches_text(alloc, slot_minutes, rule.lunches.as_slice())?;
    records.with(&[
        name.as_bytes(),
        work.lead.as_bytes(),
        work.tail.as_bytes(),
        work.work_min.as_bytes(),
        work.work_max.as_bytes(),
        work.long_work.as_bytes(),
        breaks.long_rest.as_bytes(),
        breaks.size_min.as_bytes(),
        breaks.size_max.as_bytes(),
        totals.as_bytes(),
        lunches.as_bytes(),
        breaks.resettle.as_bytes(),
    ])
}

/// Adds the row of a type's rule, unless the type has no breaks.
fn with_rule_of(
    alloc: Global,
    records: Records,
    slot_minutes: u16,
    kind: &TypeParts,
) -> Result<Records, NoMemory>
    ensures { IfOk result (λ r. r ≡ records ++ rule_row slot_minutes kind.now) }
{
    if is_plain(&kind.rule) {
        return Ok(records);
    }
    with_rule(alloc, records, slot_minutes, kind.name.as_str(), &kind.rule)
}

/// Adds the rows of the rules of types.
fn with_rules(
    alloc: Global,
    records: Records,
    slot_minutes: u16,
    kinds: &[TypeParts],
) -> Result<Records, NoMemory>
    ensures { IfOk result (λ r. r ≡ records ++ flat_map (rule_row slot_minutes) kinds.now) }
{
    let mut records = records;
    for kind in kinds {
        records = with_rule_of(alloc, records, slot_minutes, kind)?;
    }
    Ok(records)
}

/// The break rules of an instance as a table.
pub(crate) fn rules_table(alloc: Global, parts: &Parts) -> Result<Vec<u8>, NoMemory>
    ensures { IfOk result (λ text. text.items ≡ rules_text parts.now) }
{
    let records = Records::new(alloc).with(&[
        b"rule",
        b"lead",
        b"tail",
        b"work_min",
        b"work_max",
        b"long_work",
        b"long_rest",
        b"size_min",
        b"size_max",
        b"totals",
        b"lunches",
        b"resettle",
    ])?;
    let records = with_rules(alloc, records, parts.slot_minutes, parts.types.as_slice())?;
    records.into_bytes()
}
