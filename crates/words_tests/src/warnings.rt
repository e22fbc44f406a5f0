//! What a planner is told of numbers that are odd.
use fixtures::instance_of;
use instance_warnings::{WordedWarning, warnings};
use std::alloc::Global;
use std::test::Fail;

/// A day of hours that needs one employee from 8 to 12, and one shift of these hours whose first break is to begin 30 hours
/// behind its start.
const LATE_BREAKS: &str =
    "{\"slot_minutes\":60,\"days\":1,\"need\":[0,0,0,0,0,0,0,0,1,1,1,1,0,0,0,0,0,0,0,0,0,0,0,0],\"max_heads\":9,\"weights\":{\"excess\":1,\"shortage\":2,\"shift\":0},\"types\":[{\"name\":\"M\",\"start_min\":8,\"start_max\":8,\"len_min\":4,\"len_max\":5,\"breaks\":{\"lead\":30,\"tail\":1,\"work_min\":1,\"work_max\":3,\"long_work\":3,\"long_rest\":1,\"size_min\":1,\"size_max\":1,\"totals\":[[0,1]]}}]}";

/// The warnings of it, each on a line of its own.
const OF_LATE_BREAKS: &str =
    "type M can have no duty: no length of it has a legal list of breaks, since lead and tail leave no room for the breaks
slots with a need in which no duty can work: 4, the first of them on day 1 at 08:00; they cost every plan at least 8
max_heads is 9, and no slot wants more than 1: each class of duties counts up to 9 times in a bound, so bounds get weak; twice that will do
weights.shift is 0: shifts cost nothing, so plans may use all of them
";

/// A day of half hours that needs three employees at 08:00, and shifts that were written in hours, with limits in minutes.
const HOURS: &str =
    "{\"slot_minutes\":30,\"days\":1,\"need\":[0,0,0,0,0,0,0,0,0,0,0,0,0,0,0,0,3,0,0,0,0,0,0,0,0,0,0,0,0,0,0,0,0,0,0,0,0,0,0,0,0,0,0,0,0,0,0,0],\"max_heads\":2,\"weights\":{\"excess\":5,\"shortage\":1,\"shift\":2},\"types\":[{\"name\":\"day\",\"start_min\":8,\"start_max\":9,\"len_min\":2,\"len_max\":3,\"breaks\":{\"lead\":0,\"tail\":0,\"work_min\":1,\"work_max\":100,\"long_work\":40,\"long_rest\":1,\"size_min\":1,\"size_max\":1,\"totals\":[[3,1]],\"lunches\":[[3,1,1,2]]}}]}";

/// The warnings of it.
const OF_HOURS: &str =
    "slots with a need in which no duty can work: 1, the first of them on day 1 at 08:00; they cost every plan at least 3
weights.excess is 5 and shortage 1: one employee too many costs more than one too few, so plans leave slots short sooner than they have one too many
max_heads is 2, and a slot needs 3: no shift alone can cover it
no shift is as long as two hours: the longest has 3 slots of 30 minutes, 1:30; an hour is 2 of them
starts and lengths look like hours, and a slot has 30 minutes: with them a shift that starts at 8 starts at 04:00
type day: work_max is 100 slots, 50:00, and its longest shift has 3, 1:30, so it limits nothing; if minutes are meant, write 3
type day: long_work is 40 slots, 20:00, and its longest shift has 3, 1:30, so it limits nothing; if minutes are meant, write 1
type day: 1:00 shifts have no break, 1:30 shifts 30 minutes of breaks
type day: 1:30 shifts have a lunch of 30 minutes, and 1:00 shifts don't have to
";

/// A day of hours that needs one employee at night, and a shift that goes on into the morning of the same day.
const NIGHT: &str =
    "{\"slot_minutes\":60,\"days\":1,\"need\":[1,1,0,0,0,0,0,0,0,0,0,0,0,0,0,0,0,0,0,0,0,0,1,1],\"max_heads\":1,\"weights\":{\"excess\":1,\"shortage\":2,\"shift\":3},\"types\":[{\"name\":\"N\",\"start_min\":22,\"start_max\":22,\"len_min\":4,\"len_max\":4,\"breaks\":null}]}";

/// The warning of it.
const OF_NIGHT: &str =
    "type N: shifts of the last day may go on 2:00 into the first day, since the period goes round, and work there
";

/// A day of quarters that needs one employee at noon, shifts with breaks of up to 30 slots, where 30 minutes are meant, a type
/// that was written in hours, with a rule without totals and a lunch of longer shifts, and one without breaks.
const FORGOTTEN: &str =
    "{\"slot_minutes\":15,\"days\":1,\"need\":[0,0,0,0,0,0,0,0,0,0,0,0,0,0,0,0,0,0,0,0,0,0,0,0,0,0,0,0,0,0,0,0,0,0,0,0,0,0,0,0,0,0,0,0,0,0,0,0,1,0,0,0,0,0,0,0,0,0,0,0,0,0,0,0,0,0,0,0,0,0,0,0,0,0,0,0,0,0,0,0,0,0,0,0,0,0,0,0,0,0,0,0,0,0,0,0],\"max_heads\":1,\"weights\":{\"excess\":1,\"shortage\":90,\"shift\":2},\"types\":[{\"name\":\"full\",\"start_min\":32,\"start_max\":32,\"len_min\":32,\"len_max\":34,\"breaks\":{\"lead\":4,\"tail\":4,\"work_min\":4,\"work_max\":34,\"long_work\":34,\"long_rest\":1,\"size_min\":1,\"size_max\":30,\"totals\":[[16,4]]}},{\"name\":\"early\",\"start_min\":7,\"start_max\":9,\"len_min\":8,\"len_max\":8,\"breaks\":{\"lead\":2,\"tail\":2,\"work_min\":1,\"work_max\":8,\"long_work\":8,\"long_rest\":1,\"size_min\":1,\"size_max\":2,\"totals\":[[16,1]],\"lunches\":[[40,2,12,22]]}},{\"name\":\"lunch\",\"start_min\":40,\"start_max\":40,\"len_min\":24,\"len_max\":24,\"breaks\":{\"lead\":0,\"tail\":0,\"work_min\":1,\"work_max\":24,\"long_work\":24,\"long_rest\":1,\"size_min\":1,\"size_max\":2,\"totals\":[],\"lunches\":[[16,2,8,16]]}},{\"name\":\"short\",\"start_min\":44,\"start_max\":44,\"len_min\":16,\"len_max\":16,\"breaks\":null}]}";

/// The warnings of it.
const OF_FORGOTTEN: &str =
    "type early has a break rule, and its shifts have no breaks, since totals has no entry for them
type lunch can have no duty: no length of it has a legal list of breaks, since totals has no entry for its shifts
type short has no breaks, and other types have
type full: size_max is 30 slots, 7:30, and no shift has more than 4, 1:00, of breaks, so it limits nothing; if minutes are meant, write 2
starts and lengths of type early look like hours: they count slots of 15 minutes, so its shifts start 01:45 to 02:15 and are 2:00 long
a lunch of type early begins at shifts of 10:00, and its longest shift has 2:00
";

/// A day of hours on which nobody is wanted.
const NOBODY: &str =
    "{\"slot_minutes\":60,\"days\":1,\"need\":[0,0,0,0,0,0,0,0,0,0,0,0,0,0,0,0,0,0,0,0,0,0,0,0],\"max_heads\":9,\"weights\":{\"excess\":1,\"shortage\":2,\"shift\":3},\"types\":[{\"name\":\"M\",\"start_min\":8,\"start_max\":8,\"len_min\":4,\"len_max\":4,\"breaks\":null}]}";

/// The warning of it.
const OF_NOBODY: &str = "no slot wants anybody, so a plan without duties is a cheapest one
";

/// The warnings of a document, each on a line of its own.
fn warned(alloc: Global, document: &str) -> Result<String, Fail> {
    let instance = instance_of(alloc, document)?;
    let list = warnings(alloc, &instance)?;
    let mut text = String::new(alloc);
    for warning in &list {
        let told = WordedWarning {
            warning,
            instance: &instance,
        };
        let line = format!(in alloc; "{told}\n")?;
        text.push_str(line.as_str())?;
    }
    Ok(text)
}

#[test]
fn warns_of_what_is_odd(rt: HostRuntime) -> Result<(), Fail> {
    let cases = [
        (LATE_BREAKS, OF_LATE_BREAKS),
        (HOURS, OF_HOURS),
        (NIGHT, OF_NIGHT),
        (FORGOTTEN, OF_FORGOTTEN),
        (NOBODY, OF_NOBODY),
    ];
    for (document, wanted) in cases {
        let text = warned(rt.alloc(), document)?;
        assert_eq!(rt; text.as_str(), wanted);
    }
    Ok(())
}
