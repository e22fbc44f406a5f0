//! Rules as they are said back.
use break_rules::{Lunch, Lunches, Rule, Totals};
use fixtures::morning;
use rule_sentences::{Ratio, rules_text, type_sentence};
use shift_instance::TypeParts;
use std::alloc::Global;
use std::test::Fail;

/// The rules of the morning.
const OF_MORNING: &str = "Period: a day in slots of 60 minutes; what passes its end works at its
    beginning
M: starts 08:00, 4:00 long, no breaks
Need on day 1: 0 to 1 at a time, 4:00 hours in all
Weights: one employee too few costs as much as 2 too many, a further shift
    costs as much as 3 too many; employees are counted in each slot of 60
    minutes
Heads: at most 1 in one shift on one day; the greatest need is 1
Cover: from shortage 8 on no slot stays short in a cheapest plan that one more
    duty within max_heads could help; it is 2
";

/// A type of long shifts with a lunch, in slots of 15 minutes.
fn early(alloc: Global) -> Result<TypeParts, Fail> {
    let mut rule = Rule::plain(alloc)?;
    rule.work_max = 9;
    rule.size_max = 2;
    rule.totals = Totals::new(vec![in alloc; (16, 1), (32, 4)]?);
    let lunch = Lunch {
        from_len: 28,
        size: 2,
        first: 12,
        last: 22,
    };
    rule.lunches = Lunches::new(vec![in alloc; lunch]?);
    Ok(TypeParts {
        name: String::from_str(alloc, "early8")?,
        start_min: 28,
        start_max: 34,
        len_min: 32,
        len_max: 34,
        rule,
    })
}

/// A type of short shifts at night, of which the longer ones have a break.
fn night(alloc: Global) -> Result<TypeParts, Fail> {
    let mut rule = Rule::plain(alloc)?;
    rule.lead = 4;
    rule.work_min = 2;
    rule.long_work = 10;
    rule.long_rest = 2;
    rule.totals = Totals::new(vec![in alloc; (17, 1)]?);
    rule.resettle = 1;
    Ok(TypeParts {
        name: String::from_str(alloc, "night")?,
        start_min: 88,
        start_max: 100,
        len_min: 16,
        len_max: 17,
        rule,
    })
}

#[test]
fn types_are_said_in_clock_time(rt: HostRuntime) -> Result<(), Fail> {
    let alloc = rt.alloc();
    let said = type_sentence(alloc, 15, &early(alloc)?)?;
    assert_eq!(rt;
        said.as_str(),
        "early8: starts 07:00 to 08:30, 8:00 to 8:30 long, 1:00 of breaks in pieces of 15 or 30 minutes, a lunch of 30 minutes between 3:00 and 5:30 after the start, at most 2:15 of work without a break, no limit on the break after long work, no limit on how short work between breaks is, no limit on breaks near the ends"
    );
    let said = type_sentence(alloc, 15, &night(alloc)?)?;
    assert_eq!(rt;
        said.as_str(),
        "night: starts 22:00 to 01:00 on the next day, 4:00 or 4:15 long, no break, 15 minutes of breaks from 4:15 long on, no limit on the length of a break, no lunch, no limit on work without a break, a break of at least 30 minutes after more than 2:30 of work, at least 30 minutes of work before, between and after breaks, no break in the first 1:00, whoever comes back from a break counts 15 minutes later"
    );
    Ok(())
}

#[test]
fn rules_are_said(rt: HostRuntime) -> Result<(), Fail> {
    let alloc = rt.alloc();
    let instance = morning(alloc)?;
    assert_eq!(rt; rules_text(alloc, &instance)?.as_str(), OF_MORNING);
    Ok(())
}

#[test]
fn ratios_have_two_digits_at_most(rt: HostRuntime) -> Result<(), Fail> {
    let alloc = rt.alloc();
    let cases = [
        (4, 1, "4"),
        (5, 2, "2.5"),
        (9, 4, "2.25"),
        (7, 3, "about 2.33"),
        (1, 1000, "less than 0.01"),
        (61, 60, "about 1.01"),
    ];
    for (number, unit, wanted) in cases {
        let shown = Ratio::of(number, unit).to_string(alloc)?;
        assert_eq!(rt; shown.as_str(), wanted);
    }
    Ok(())
}
