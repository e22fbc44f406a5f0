//! How well plans cover what is wanted.
use crate::short_days::{day, judge, one_row, rows_of_day, rows_of_week, slack_day, week};
use plan_tables::Attendance;
use shift_instance::{Instance, Rows};
use short_cover::short_text;
use std::alloc::Global;
use std::process::Abort;
use std::test::Fail;

/// The cover of the day: at 10 and at 12 one works of three that are wanted, at 20 nobody, and at 11 four of five.
const OF_DAY: &str = "\
Below need in 4 slots, the worst first:
day  time    wanted  working  on break
  1  10:00        3        1         3
  1  12:00        3        1         3
  1  20:00        1        0         0  nobody works
and 1 more

Least cover of each day:
day 1  20:00  0 at work, 1 wanted
";

/// The cover of the week: at 2 the night duties of the last day are on break.
const OF_WEEK: &str = "\
Below need in 2 slots, the worst first:
day  time    wanted  working  on break
  3  12:00        2        0         0  nobody works
  1  02:00        4        3         2

Least cover of each day:
day 1  02:00  3 at work, 4 wanted
day 2  nobody is wanted
day 3  12:00  0 at work, 2 wanted
day 4  nobody is wanted
day 5  nobody is wanted
day 6  nobody is wanted
day 7  nobody is wanted
";

/// The cover of the slack day, by a duty that is on break at 9.
const OF_BREAK: &str = "\
Below need in 1 slot:
day  time    wanted  working  on break
  1  09:00        1        0         1  nobody works

Least cover of each day:
day 1  09:00  0 at work, 1 wanted
";

/// The cover of the slack day, by a duty that works at 9.
const OF_WORK: &str = "\
No slot is below its need.

Least cover of each day:
day 1  09:00  1 at work, 1 wanted
";

/// The text of a plan.
fn text(
    rt: &impl Abort,
    alloc: Global,
    instance: &Instance,
    rows: &Rows,
    days: &[&str],
) -> Result<String, Fail> {
    judge(rt, instance, rows, days);
    let attendance = Attendance::new(alloc, instance, rows)?;
    Ok(short_text(alloc, instance, &attendance, 3)?)
}

#[test]
fn a_day_with_bands_is_short(rt: HostRuntime) -> Result<(), Fail> {
    let alloc = rt.alloc();
    let text = text(&rt, alloc, &day(alloc)?, &rows_of_day(alloc)?, &["1"])?;
    assert_eq!(rt; text.as_str(), OF_DAY);
    Ok(())
}

#[test]
fn nights_go_round_the_week(rt: HostRuntime) -> Result<(), Fail> {
    let alloc = rt.alloc();
    let days = ["1", "2", "3", "4", "5", "6", "7"];
    let text = text(&rt, alloc, &week(alloc)?, &rows_of_week(alloc)?, &days)?;
    assert_eq!(rt; text.as_str(), OF_WEEK);
    Ok(())
}

#[test]
fn one_slot_is_short_or_none(rt: HostRuntime) -> Result<(), Fail> {
    let alloc = rt.alloc();
    let instance = slack_day(alloc)?;
    let at_break = text(&rt, alloc, &instance, &one_row(alloc, 1)?, &["1"])?;
    assert_eq!(rt; at_break.as_str(), OF_BREAK);
    let at_work = text(&rt, alloc, &instance, &one_row(alloc, 3)?, &["1"])?;
    assert_eq!(rt; at_work.as_str(), OF_WORK);
    Ok(())
}
