//! A plan that was worked out by hand.
ghost use Rattle.std.specs.Prelude.{IsTrue};
ghost use Rattle.shift_instance.specs.Rota.{are_legal_rows};

use certificate::read;
use fixtures::instance_of;
use rota_cost::legal_rows;
use shift_instance::{Instance, Rows};
use std::alloc::Global;
use std::process::Abort;
use std::test::Fail;

/// Two days of hours. From 8 to 12 two are wanted on each day, and one in the very first hour. Shifts 0 and 1 are of 4 and 5 hours
/// from 8 on, that of 5 with a break of one hour after at least 2, and shift 2 is of 4 hours from 22 on.
const DOCUMENT: &str =
    "{\"slot_minutes\":60,\"days\":2,\"need\":[1,0,0,0,0,0,0,0,2,2,2,2,0,0,0,0,0,0,0,0,0,0,0,0,0,0,0,0,0,0,0,0,2,2,2,2,0,0,0,0,0,0,0,0,0,0,0,0],\"max_heads\":5,\"weights\":{\"excess\":1,\"shortage\":2,\"shift\":3},\"types\":[{\"name\":\"M<&>\",\"start_min\":8,\"start_max\":8,\"len_min\":4,\"len_max\":5,\"breaks\":{\"lead\":0,\"tail\":0,\"work_min\":2,\"work_max\":288,\"long_work\":288,\"long_rest\":1,\"size_min\":1,\"size_max\":48,\"totals\":[[5,1]],\"lunches\":[],\"resettle\":0}},{\"name\":\"N,\\\"x\\\"\",\"start_min\":22,\"start_max\":22,\"len_min\":4,\"len_max\":4,\"breaks\":null}]}";

/// The same, but for from 8 to 12 on the first day: there two or three are wanted.
const BANDED: &str =
    "{\"slot_minutes\":60,\"days\":2,\"need\":[1,0,0,0,0,0,0,0,2,2,2,2,0,0,0,0,0,0,0,0,0,0,0,0,0,0,0,0,0,0,0,0,2,2,2,2,0,0,0,0,0,0,0,0,0,0,0,0],\"need_max\":[1,0,0,0,0,0,0,0,3,3,3,3,0,0,0,0,0,0,0,0,0,0,0,0,0,0,0,0,0,0,0,0,2,2,2,2,0,0,0,0,0,0,0,0,0,0,0,0],\"max_heads\":5,\"weights\":{\"excess\":1,\"shortage\":2,\"shift\":3},\"types\":[{\"name\":\"M<&>\",\"start_min\":8,\"start_max\":8,\"len_min\":4,\"len_max\":5,\"breaks\":{\"lead\":0,\"tail\":0,\"work_min\":2,\"work_max\":288,\"long_work\":288,\"long_rest\":1,\"size_min\":1,\"size_max\":48,\"totals\":[[5,1]],\"lunches\":[],\"resettle\":0}},{\"name\":\"N,\\\"x\\\"\",\"start_min\":22,\"start_max\":22,\"len_min\":4,\"len_max\":4,\"breaks\":null}]}";

/// On the first day one from 8 to 12, two from 8 to 13 with a break from 10 to 11, and one from 22 to 2; on the second day one from
/// 22 to 2, the first two hours of the planning period.
const REPORT: &str =
    "shift-report 1\nstatus stopped\ncost 39\nbound 0\nrows 4\nrow 0 0 1 -\nrow 1 0 2 2+1\nrow 2 0 1 -\nrow 2 1 1 -\nproof 0\nend\n";

/// The instance.
pub fn instance(alloc: Global) -> Result<Instance, Fail> {
    instance_of(alloc, DOCUMENT)
}

/// The instance with bands.
pub fn banded(alloc: Global) -> Result<Instance, Fail> {
    instance_of(alloc, BANDED)
}

/// The rows of the plan.
pub fn rows(alloc: Global) -> Result<Rows, Fail> {
    let (_cost, rows) = read(alloc, REPORT.as_bytes())?.plan.ok_or("no plan")?;
    Ok(rows)
}

/// Stops the test where the rows aren't legal.
pub fn judge(rt: &impl Abort, instance: &Instance, rows: &Rows)
    ensures { IsTrue (are_legal_rows instance.now rows.now) }
{
    assert!(rt; legal_rows(instance, rows).is_ok());
}
