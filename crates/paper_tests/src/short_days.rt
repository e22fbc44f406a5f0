//! Plans that were worked out by hand.
ghost use Rattle.std.specs.Prelude.{◌≡◌, IsTrue, length};
ghost use Rattle.shift_instance.specs.Rota.{are_legal_rows};

use break_rules::{Break, Breaks, NoMemory, Rule, Totals};
use rota_cost::legal_rows;
use shift_instance::{Instance, Parts, Row, Rows, TypeParts};
use std::alloc::Global;
use std::process::Abort;
use std::test::Fail;

/// A type of one shift with so many breaks of one slot each.
fn one_shift(
    alloc: Global,
    name: &str,
    start: u16,
    len: u16,
    breaks: u16,
) -> Result<TypeParts, NoMemory> {
    let mut rule = Rule::plain(alloc)?;
    rule.size_max = 1;
    rule.totals = Totals::new(vec![in alloc; (len, breaks)]?);
    Ok(TypeParts {
        name: String::from_str(alloc, name)?,
        start_min: start,
        start_max: start,
        len_min: len,
        len_max: len,
        rule,
    })
}

/// Days of hours in which so many are wanted at least and at most, in the slots that are listed, and nobody in others.
fn days_of_hours(
    alloc: Global,
    days: u16,
    wanted: &[(usize, u32, u32)],
    types: Vec<TypeParts>,
) -> Result<Instance, Fail> {
    let mut need = Vec::new(alloc);
    let mut need_max = Vec::new(alloc);
    for slot in 0..usize::from(days) * 24 {
        let band = wanted.iter().find(|band| band.0 == slot);
        let (least, most) = band.map_or((0, 0), |band| (band.1, band.2));
        need.push(least)?;
        need_max.push(most)?;
    }
    Ok(Instance::new(
        alloc,
        Parts {
            slot_minutes: 60,
            days,
            need,
            need_max,
            max_heads: 5,
            excess: 1,
            shortage: 2,
            shift: 3,
            types,
        },
    )?)
}

/// A row, with breaks of one slot each that begin at two offsets, or at one where both are the same.
fn row(
    alloc: Global,
    shift: u16,
    day: u8,
    first: u16,
    last: u16,
    count: u16,
) -> Result<Row, NoMemory> {
    let mut breaks = vec![in alloc;
        Break {
            start: first,
            len: 1
        },
    ]?;
    if first < last {
        breaks.push(Break {
            start: last,
            len: 1,
        })?;
    }
    Ok(Row {
        shift,
        day,
        breaks: Breaks::new(breaks),
        count,
    })
}

/// A day of two shifts, with bands: shift 0 from 8 to 14 with two breaks, and shift 1 from 8 to 13 with one. From 8 to 14 more are
/// wanted than one, and one at 20.
pub fn day(alloc: Global) -> Result<Instance, Fail> {
    let wanted = [
        (8, 4, 5),
        (9, 3, 4),
        (10, 3, 4),
        (11, 5, 6),
        (12, 3, 4),
        (13, 3, 4),
        (20, 1, 1),
    ];
    let mut types = Vec::new(alloc);
    types.push(one_shift(alloc, "M<b>", 8, 6, 2)?)?;
    types.push(one_shift(alloc, "K\"k\"", 8, 5, 1)?)?;
    days_of_hours(alloc, 1, &wanted, types)
}

/// Three duties of shift 0, of which one has its first break an hour before the two others, and one of shift 1.
pub fn rows_of_day(alloc: Global) -> Result<Rows, NoMemory> {
    let mut rows = Vec::new(alloc);
    rows.push(row(alloc, 0, 0, 1, 4, 1)?)?;
    rows.push(row(alloc, 0, 0, 2, 4, 2)?)?;
    rows.push(row(alloc, 1, 0, 2, 2, 1)?)?;
    Ok(Rows::new(rows))
}

/// A week of three shifts: shift 0 from 6 to 14 and shift 1 from 22 to 6 with a break, and shift 2 from 1 to 5 on the next day with
/// one. Four are wanted on the first day at 2, and two on the third at 12.
pub fn week(alloc: Global) -> Result<Instance, Fail> {
    let wanted = [(2, 4, 4), (60, 2, 2)];
    let mut types = Vec::new(alloc);
    types.push(one_shift(alloc, "early", 6, 8, 1)?)?;
    types.push(one_shift(alloc, "N\"x\"", 22, 8, 1)?)?;
    types.push(one_shift(alloc, "late<b>", 25, 4, 1)?)?;
    days_of_hours(alloc, 7, &wanted, types)
}

/// Three early duties on the first day, one night on the first day and two on the last, and three of shift 2 that start an hour behind
/// the last day, which is on the first.
pub fn rows_of_week(alloc: Global) -> Result<Rows, NoMemory> {
    let mut rows = Vec::new(alloc);
    rows.push(row(alloc, 0, 0, 3, 3, 2)?)?;
    rows.push(row(alloc, 0, 0, 4, 4, 1)?)?;
    rows.push(row(alloc, 1, 0, 3, 3, 1)?)?;
    rows.push(row(alloc, 1, 6, 4, 4, 2)?)?;
    rows.push(row(alloc, 2, 6, 2, 2, 3)?)?;
    Ok(Rows::new(rows))
}

/// A day of the shift from 8 to 14 on which nobody is wanted but one at 9.
pub fn slack_day(alloc: Global) -> Result<Instance, Fail> {
    let mut types = Vec::new(alloc);
    types.push(one_shift(alloc, "M", 8, 6, 1)?)?;
    days_of_hours(alloc, 1, &[(9, 1, 1)], types)
}

/// One duty, whose break begins so many hours after its start.
pub fn one_row(alloc: Global, first: u16) -> Result<Rows, NoMemory> {
    let mut rows = Vec::new(alloc);
    rows.push(row(alloc, 0, 0, first, first, 1)?)?;
    Ok(Rows::new(rows))
}

/// Stops the test where the rows aren't legal, or there isn't a name for each day.
pub fn judge(rt: &impl Abort, instance: &Instance, rows: &Rows, days: &[&str])
    ensures legal { IsTrue (are_legal_rows instance.now rows.now) }
    ensures names { length days.now ≡ instance.now.days }
{
    assert!(rt; legal_rows(instance, rows).is_ok());
    assert!(rt; days.len() == usize::from(instance.days()));
}
