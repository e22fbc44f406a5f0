//! The lines of text for the plan.
use crate::two_days::{instance, judge, rows};
use plan_tables::{Summary, duties_table, summary_text};
use std::process::Abort;
use std::test::Fail;

/// What the plan adds up to.
const SUMMARY: &str = "\
part              amount   weight              cost
excess                12        1                12
shortage               9        2                18
shifts used            3        3                 9
cost                                             39

day   duties      wanted      worked        over       under
  1        4        9:00       16:00        8:00        1:00
  2        1        8:00        4:00        4:00        8:00
all        5       17:00       20:00       12:00        9:00

day  time    wanted  working              cost
  2  08:00        2        0                 4
  2  09:00        2        0                 4
  2  10:00        2        0                 4
  2  11:00        2        0                 4
  1  10:00        2        1                 2
";

/// The duties of the plan.
const DUTIES: &str = "\
day  time         employees  type   breaks
  1  08:00-12:00          1  M<&>   -
  1  08:00-13:00          2  M<&>   10:00-11:00
  1  22:00-02:00          1  N,\"x\"  -
  2  22:00-02:00          1  N,\"x\"  -
";

#[test]
fn columns_stand_below_one_another(rt: HostRuntime) -> Result<(), Fail> {
    let alloc = rt.alloc();
    let instance = instance(alloc)?;
    let rows = rows(alloc)?;
    judge(&rt, &instance, &rows);
    let summary = Summary::new(alloc, &instance, &rows)?;
    assert_eq!(rt; summary_text(alloc, &instance, &summary)?.as_str(), SUMMARY);
    assert_eq!(rt; duties_table(alloc, &instance, &rows)?.as_str(), DUTIES);
    Ok(())
}
