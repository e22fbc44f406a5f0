//! The sheets of plans.
use crate::short_days::{day, judge, rows_of_day, rows_of_week, week};
use rota_sheets::{breaks_text, heads_text};
use std::test::Fail;

/// The days of the week.
const DAYS: [&str; 7] = ["Mon", "Tue", "Wed", "Thu", "Fri", "Sat", "Sun"];

/// The numbers of duties of the day.
const HEADS_OF_DAY: &str = "\
shift               1  sum
K\"k\"   08:00-13:00  1    1
M<b>   08:00-14:00  3    3
all                 4    4
";

/// The numbers of duties of the week: the night on Sunday is the last day's, and the three of shift 2 start on Monday.
const HEADS_OF_WEEK: &str = "\
shift                 Mon  Tue  Wed  Thu  Fri  Sat  Sun  sum
early    06:00-14:00    3    -    -    -    -    -    -    3
N\"x\"     22:00-06:00    1    -    -    -    -    -    2    3
late<b>  01:00-05:00    3    -    -    -    -    -    -    3
all                     7    -    -    -    -    -    2    9
";

/// The breaks of the day: the last break of three duties stands in one line, though they are of two rows.
const BREAKS_OF_DAY: &str = "\
day 1
09:00-10:00  1 M<b> 08:00-14:00
10:00-11:00  2 M<b> 08:00-14:00, 1 K\"k\" 08:00-13:00
12:00-13:00  3 M<b> 08:00-14:00
";

/// The breaks of the week: those of Sunday's nights are on Monday, and that of Monday's night is on Tuesday.
const BREAKS_OF_WEEK: &str = "\
Mon
02:00-03:00  2 N\"x\" 22:00-06:00
03:00-04:00  3 late<b> 01:00-05:00
09:00-10:00  2 early 06:00-14:00
10:00-11:00  1 early 06:00-14:00

Tue
01:00-02:00  1 N\"x\" 22:00-06:00

Wed
no breaks

Thu
no breaks

Fri
no breaks

Sat
no breaks

Sun
no breaks
";

#[test]
fn heads_stand_below_their_days(rt: HostRuntime) -> Result<(), Fail> {
    let alloc = rt.alloc();
    let (instance, rows) = (day(alloc)?, rows_of_day(alloc)?);
    judge(&rt, &instance, &rows, &["1"]);
    let text = heads_text(alloc, &instance, &rows, &["1"])?;
    assert_eq!(rt; text.as_str(), HEADS_OF_DAY);
    Ok(())
}

#[test]
fn heads_of_a_week_are_by_the_day_of_their_start(rt: HostRuntime) -> Result<(), Fail> {
    let alloc = rt.alloc();
    let (instance, rows) = (week(alloc)?, rows_of_week(alloc)?);
    judge(&rt, &instance, &rows, &DAYS);
    let text = heads_text(alloc, &instance, &rows, &DAYS)?;
    assert_eq!(rt; text.as_str(), HEADS_OF_WEEK);
    Ok(())
}

#[test]
fn breaks_at_once_stand_in_one_line(rt: HostRuntime) -> Result<(), Fail> {
    let alloc = rt.alloc();
    let (instance, rows) = (day(alloc)?, rows_of_day(alloc)?);
    judge(&rt, &instance, &rows, &["day 1"]);
    let text = breaks_text(alloc, &instance, &rows, &["day 1"])?;
    assert_eq!(rt; text.as_str(), BREAKS_OF_DAY);
    Ok(())
}

#[test]
fn breaks_of_nights_are_on_the_day_on_which_they_begin(rt: HostRuntime) -> Result<(), Fail> {
    let alloc = rt.alloc();
    let (instance, rows) = (week(alloc)?, rows_of_week(alloc)?);
    judge(&rt, &instance, &rows, &DAYS);
    let text = breaks_text(alloc, &instance, &rows, &DAYS)?;
    assert_eq!(rt; text.as_str(), BREAKS_OF_WEEK);
    Ok(())
}
