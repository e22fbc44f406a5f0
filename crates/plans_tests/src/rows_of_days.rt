//! Small instances, and rows of plans for them.
ghost use Rattle.std.specs.Prelude.{◌≡◌, IfOk};

use break_rules::{Breaks, NoMemory};
use fixtures::one_break;
use rota_cost::{Costed, cost_rows};
use shift_instance::{Instance, Row, Rows};
use std::alloc::Global;
use std::test::Fail;

/// Hour slots of two days that need nobody. Early shifts have four hours from 8 or 9 o'clock on, late ones five from 12, all without breaks
/// and with at most three duties. Its shifts are: early at 8, early at 9, late.
pub const OLD: &str =
    "{\"slot_minutes\":60,\"days\":2,\"need\":[0,0,0,0,0,0,0,0,0,0,0,0,0,0,0,0,0,0,0,0,0,0,0,0,0,0,0,0,0,0,0,0,0,0,0,0,0,0,0,0,0,0,0,0,0,0,0,0],\"max_heads\":3,\"weights\":{\"excess\":1,\"shortage\":2,\"shift\":3},\"types\":[{\"name\":\"early\",\"start_min\":8,\"start_max\":9,\"len_min\":4,\"len_max\":4,\"breaks\":null},{\"name\":\"late\",\"start_min\":12,\"start_max\":12,\"len_min\":5,\"len_max\":5,\"breaks\":null}]}";

/// The same with the late type first, which may also have six hours, without the early shift at 9, and with at most two duties. Its
/// shifts are: late of five hours, late of six, early.
pub const SWAPPED: &str =
    "{\"slot_minutes\":60,\"days\":2,\"need\":[0,0,0,0,0,0,0,0,0,0,0,0,0,0,0,0,0,0,0,0,0,0,0,0,0,0,0,0,0,0,0,0,0,0,0,0,0,0,0,0,0,0,0,0,0,0,0,0],\"max_heads\":2,\"weights\":{\"excess\":1,\"shortage\":2,\"shift\":3},\"types\":[{\"name\":\"late\",\"start_min\":12,\"start_max\":12,\"len_min\":5,\"len_max\":6,\"breaks\":null},{\"name\":\"early\",\"start_min\":8,\"start_max\":8,\"len_min\":4,\"len_max\":4,\"breaks\":null}]}";

/// The old days with other names.
pub const RENAMED: &str =
    "{\"slot_minutes\":60,\"days\":2,\"need\":[0,0,0,0,0,0,0,0,0,0,0,0,0,0,0,0,0,0,0,0,0,0,0,0,0,0,0,0,0,0,0,0,0,0,0,0,0,0,0,0,0,0,0,0,0,0,0,0],\"max_heads\":3,\"weights\":{\"excess\":1,\"shortage\":2,\"shift\":3},\"types\":[{\"name\":\"a\",\"start_min\":8,\"start_max\":9,\"len_min\":4,\"len_max\":4,\"breaks\":null},{\"name\":\"b\",\"start_min\":12,\"start_max\":12,\"len_min\":5,\"len_max\":5,\"breaks\":null}]}";

/// The old days in slots of half an hour.
pub const HALVED: &str =
    "{\"slot_minutes\":30,\"days\":2,\"need\":[0,0,0,0,0,0,0,0,0,0,0,0,0,0,0,0,0,0,0,0,0,0,0,0,0,0,0,0,0,0,0,0,0,0,0,0,0,0,0,0,0,0,0,0,0,0,0,0,0,0,0,0,0,0,0,0,0,0,0,0,0,0,0,0,0,0,0,0,0,0,0,0,0,0,0,0,0,0,0,0,0,0,0,0,0,0,0,0,0,0,0,0,0,0,0,0],\"max_heads\":3,\"weights\":{\"excess\":1,\"shortage\":2,\"shift\":3},\"types\":[{\"name\":\"early\",\"start_min\":8,\"start_max\":9,\"len_min\":4,\"len_max\":4,\"breaks\":null},{\"name\":\"late\",\"start_min\":12,\"start_max\":12,\"len_min\":5,\"len_max\":5,\"breaks\":null}]}";

/// The old days with late shifts of six hours.
pub const LONGER: &str =
    "{\"slot_minutes\":60,\"days\":2,\"need\":[0,0,0,0,0,0,0,0,0,0,0,0,0,0,0,0,0,0,0,0,0,0,0,0,0,0,0,0,0,0,0,0,0,0,0,0,0,0,0,0,0,0,0,0,0,0,0,0],\"max_heads\":3,\"weights\":{\"excess\":1,\"shortage\":2,\"shift\":3},\"types\":[{\"name\":\"early\",\"start_min\":8,\"start_max\":9,\"len_min\":4,\"len_max\":4,\"breaks\":null},{\"name\":\"late\",\"start_min\":12,\"start_max\":12,\"len_min\":6,\"len_max\":6,\"breaks\":null}]}";

/// The first of the old days alone.
pub const SHORTER: &str =
    "{\"slot_minutes\":60,\"days\":1,\"need\":[0,0,0,0,0,0,0,0,0,0,0,0,0,0,0,0,0,0,0,0,0,0,0,0],\"max_heads\":3,\"weights\":{\"excess\":1,\"shortage\":2,\"shift\":3},\"types\":[{\"name\":\"early\",\"start_min\":8,\"start_max\":9,\"len_min\":4,\"len_max\":4,\"breaks\":null},{\"name\":\"late\",\"start_min\":12,\"start_max\":12,\"len_min\":5,\"len_max\":5,\"breaks\":null}]}";

/// The old days with an hour of breaks in early shifts.
pub const PAUSED: &str =
    "{\"slot_minutes\":60,\"days\":2,\"need\":[0,0,0,0,0,0,0,0,0,0,0,0,0,0,0,0,0,0,0,0,0,0,0,0,0,0,0,0,0,0,0,0,0,0,0,0,0,0,0,0,0,0,0,0,0,0,0,0],\"max_heads\":3,\"weights\":{\"excess\":1,\"shortage\":2,\"shift\":3},\"types\":[{\"name\":\"early\",\"start_min\":8,\"start_max\":9,\"len_min\":4,\"len_max\":4,\"breaks\":{\"lead\":2,\"tail\":1,\"work_min\":1,\"work_max\":5,\"long_work\":5,\"long_rest\":1,\"size_min\":1,\"size_max\":1,\"totals\":[[4,1]],\"lunches\":[],\"resettle\":0}},{\"name\":\"late\",\"start_min\":12,\"start_max\":12,\"len_min\":5,\"len_max\":5,\"breaks\":null}]}";

/// Two days of four hours from midnight on in which one employee is needed, and two shifts with these hours, of which each may have one duty.
pub const TWINS: &str =
    "{\"slot_minutes\":60,\"days\":2,\"need\":[1,1,1,1,0,0,0,0,0,0,0,0,0,0,0,0,0,0,0,0,0,0,0,0,1,1,1,1,0,0,0,0,0,0,0,0,0,0,0,0,0,0,0,0,0,0,0,0],\"max_heads\":1,\"weights\":{\"excess\":1,\"shortage\":2,\"shift\":3},\"types\":[{\"name\":\"X\",\"start_min\":0,\"start_max\":0,\"len_min\":4,\"len_max\":4,\"breaks\":null},{\"name\":\"Y\",\"start_min\":0,\"start_max\":0,\"len_min\":4,\"len_max\":4,\"breaks\":null}]}";

/// A row as a table spells it: shift, day, the hours before its one break, if it has one, and how many duties there are.
pub type Spelled = (u16, u8, Option<u16>, u16);

/// A break of one hour, or none.
fn breaks_of(alloc: Global, start: Option<u16>) -> Result<Breaks, NoMemory> {
    match start {
        Some(start) => one_break(alloc, start),
        None => Ok(Breaks::new(Vec::new(alloc))),
    }
}

/// Rows as they are spelled.
pub fn rows_of(alloc: Global, spelled: &[Spelled]) -> Result<Rows, NoMemory> {
    let mut rows = Vec::new(alloc);
    for (shift, day, start, count) in spelled {
        rows.push(Row {
            shift: *shift,
            day: *day,
            breaks: breaks_of(alloc, *start)?,
            count: *count,
        })?;
    }
    Ok(Rows::new(rows))
}

/// Legal rows as they are spelled.
pub fn plan_of(alloc: Global, instance: &Instance, spelled: &[Spelled]) -> Result<Costed, Fail>
    ensures { IfOk result (λ plan. plan.instance ≡ instance.now) }
{
    let rows = rows_of(alloc, spelled)?;
    Ok(cost_rows(instance, rows).ok().ok_or("not legal")?)
}

/// How rows without breaks are spelled.
pub fn spelled(alloc: Global, rows: &Rows) -> Result<Vec<(u16, u8, u16)>, NoMemory> {
    let mut list = Vec::new(alloc);
    for row in rows.as_slice() {
        list.push((row.shift, row.day, row.count))?;
    }
    Ok(list)
}
