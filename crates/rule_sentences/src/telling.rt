//! All rules of an instance in words.
ghost use Rattle.std.specs.Prelude.{IfOk};

use crate::kinds::{Clause, clauses};
use crate::needs::{DayNeed, NeedRange, day_needs};
use crate::saying::Said;
use crate::weights::weight_sentence;
use crate::wrapping::wrapped;
use break_rules::NoMemory;
use plan_tables::Hours;
use shift_instance::{Instance, TypeParts};
use short_slots::{enough_shortage, most_worked};
use std::alloc::Global;

/// The greatest weight that a document may have.
const WEIGHT_MOST: u64 = 1_000_000;

/// What stands before a part of what is said of a type.
fn before(clause: Clause) -> &'static str {
    match clause {
        Clause::Starts { .. } => ": ",
        Clause::Sizes { .. } => " ",
        _ => ", ",
    }
}

/// What is said of a shift type: its name, and each part of its times and of its break rule.
pub fn type_sentence(
    alloc: Global,
    slot_minutes: u16,
    kind: &TypeParts,
) -> Result<String, NoMemory> {
    let mut text = String::from_str(alloc, kind.name.as_str())?;
    for clause in &clauses(alloc, kind)? {
        let said = Said {
            clause: *clause,
            slot_minutes,
        };
        text.push_str(before(*clause))?;
        let words = format!(in alloc; "{said}")?;
        text.push_str(words.as_str())?;
    }
    Ok(text)
}

/// The planning period in words.
fn period_sentence(alloc: Global, instance: &Instance) -> Result<String, NoMemory> {
    let parts = instance.parts();
    let minutes = parts.slot_minutes;
    match parts.days {
        1 => format!(in alloc;
            "Period: a day in slots of {minutes} minutes; what passes its end works at its beginning"
        ),
        days => format!(in alloc;
            "Period: {days} days in slots of {minutes} minutes; what passes the end of the last works at the beginning of the first"
        ),
    }
}

/// What is said of how many employees are wanted at a time: one number, or the least and the greatest.
fn employees(alloc: Global, range: NeedRange) -> Result<String, NoMemory> {
    let NeedRange {
        least,
        greatest,
        ..
    } = range;
    if least == greatest {
        format!(in alloc; "{least} at each time")
    } else {
        format!(in alloc; "{least} to {greatest} at a time")
    }
}

/// The need of a day in words, the day counted from 1. Where more than the need will do as well, the greatest numbers of wanted employees
/// are said too, and the hours as a range.
fn need_sentence(
    alloc: Global,
    instance: &Instance,
    day: usize,
    wanted: DayNeed,
) -> Result<String, NoMemory> {
    let DayNeed { need, need_max } = wanted;
    let least = employees(alloc, need)?;
    let hours = Hours::of_slots(instance, need.wanted);
    if need == need_max {
        return format!(in alloc;
            "Need on day {day}: {}, {hours} hours in all",
            least.as_str()
        );
    }
    let greatest = employees(alloc, need_max)?;
    let most = Hours::of_slots(instance, need_max.wanted);
    format!(in alloc;
        "Need on day {day}: at least {} and at most {}, {hours} to {most} hours in all",
        least.as_str(),
        greatest.as_str()
    )
}

/// The most employees of one shift in words, beside the greatest need.
fn heads_sentence(
    alloc: Global,
    instance: &Instance,
    days: &[DayNeed],
) -> Result<String, NoMemory> {
    let (mut least, mut most) = (0, 0);
    for day in days {
        least = day.need.greatest.max(least);
        most = day.need_max.greatest.max(most);
    }
    let heads = instance.heads();
    if least == most {
        format!(in alloc;
            "Heads: at most {heads} in one shift on one day; the greatest need is {least}"
        )
    } else {
        format!(in alloc;
            "Heads: at most {heads} in one shift on one day; the greatest need is {least}, and at most {most} are wanted"
        )
    }
}

/// From which weight of shortage on no slot stays short, in words.
fn cover_sentence(alloc: Global, instance: &Instance) -> Result<String, NoMemory> {
    let most = most_worked(alloc, instance)?;
    let enough = enough_shortage(instance, most);
    let (_, shortage, _) = instance.weights();
    if WEIGHT_MOST < enough {
        format!(in alloc;
            "Cover: no shortage that may be written is enough to leave no slot short that one more duty within max_heads could help; lower excess or shift"
        )
    } else if enough <= u64::from(shortage) {
        format!(in alloc;
            "Cover: shortage {shortage} is enough ({enough} would be): in a cheapest plan no slot stays short that one more duty within max_heads could help"
        )
    } else {
        format!(in alloc;
            "Cover: from shortage {enough} on no slot stays short in a cheapest plan that one more duty within max_heads could help; it is {shortage}"
        )
    }
}

/// All rules of an instance, a sentence for each: the planning period, the types, the need of each day, the weights, the most
/// employees of one shift, and from which weight of shortage on no slot stays short.
pub fn rule_lines(alloc: Global, instance: &Instance) -> Result<Vec<String>, NoMemory> {
    let parts = instance.parts();
    let mut lines = Vec::new(alloc);
    lines.push(period_sentence(alloc, instance)?)?;
    for kind in parts.types.as_slice() {
        lines.push(type_sentence(alloc, parts.slot_minutes, kind)?)?;
    }
    let needs = day_needs(alloc, instance)?;
    for (k, need) in needs.iter().enumerate() {
        lines.push(need_sentence(alloc, instance, k.saturating_add(1), *need)?)?;
    }
    let weights = weight_sentence(alloc, instance)?;
    lines.push(format!(in alloc; "Weights: {}", weights.as_str())?)?;
    lines.push(heads_sentence(alloc, instance, &needs)?)?;
    lines.push(cover_sentence(alloc, instance)?)?;
    Ok(lines)
}

/// The same as a text in lines that a terminal shows whole.
pub fn rules_text(alloc: Global, instance: &Instance) -> Result<String, NoMemory> {
    let mut text = String::new(alloc);
    for line in &rule_lines(alloc, instance)? {
        let lines = wrapped(alloc, line.as_str())?;
        text.push_str(lines.as_str())?;
    }
    Ok(text)
}
