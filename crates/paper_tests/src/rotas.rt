//! The rota of the plan.
use crate::two_days::{instance, judge, rows};
use rota_table::rota_csv;
use std::test::Fail;

/// A line for each duty of the plan, on days of which the second has a name that a spreadsheet would calculate.
const NAMED_ROTA: &str = "\
day,day_name,start,end,next_day,type,paid,worked,break_1_start,break_1_end
1,Tuesday 2026-12-01,08:00,12:00,no,M<&>,4:00,4:00,,
1,Tuesday 2026-12-01,08:00,13:00,no,M<&>,5:00,4:00,10:00,11:00
1,Tuesday 2026-12-01,08:00,13:00,no,M<&>,5:00,4:00,10:00,11:00
1,Tuesday 2026-12-01,22:00,02:00,yes,\"N,\"\"x\"\"\",4:00,4:00,,
2,'=2,22:00,02:00,yes,\"N,\"\"x\"\"\",4:00,4:00,,
";

/// A line for each duty of the plan, on days without names.
const NAMELESS_ROTA: &str = "\
day,day_name,start,end,next_day,type,paid,worked,break_1_start,break_1_end
1,,08:00,12:00,no,M<&>,4:00,4:00,,
1,,08:00,13:00,no,M<&>,5:00,4:00,10:00,11:00
1,,08:00,13:00,no,M<&>,5:00,4:00,10:00,11:00
1,,22:00,02:00,yes,\"N,\"\"x\"\"\",4:00,4:00,,
2,,22:00,02:00,yes,\"N,\"\"x\"\"\",4:00,4:00,,
";

#[test]
fn each_duty_has_a_line(rt: HostRuntime) -> Result<(), Fail> {
    let alloc = rt.alloc();
    let instance = instance(alloc)?;
    let rows = rows(alloc)?;
    judge(&rt, &instance, &rows);
    let first = String::from_str(alloc, "Tuesday 2026-12-01")?;
    let second = String::from_str(alloc, "=2")?;
    let names = vec![in alloc; first, second]?;
    let rota = rota_csv(alloc, &instance, &rows, names.as_slice())?;
    let rota = String::from_utf8(rota)?;
    assert_eq!(rt; rota.as_str(), NAMED_ROTA);
    Ok(())
}

#[test]
fn days_may_have_no_names(rt: HostRuntime) -> Result<(), Fail> {
    let alloc = rt.alloc();
    let instance = instance(alloc)?;
    let rows = rows(alloc)?;
    judge(&rt, &instance, &rows);
    let rota = String::from_utf8(rota_csv(alloc, &instance, &rows, &[])?)?;
    assert_eq!(rt; rota.as_str(), NAMELESS_ROTA);
    Ok(())
}
