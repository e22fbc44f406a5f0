//! Days of hours with one shift from 8 on, as documents. An employee too many costs 1, one too few costs 2, and the shift 3.
ghost use Rattle.std.specs.Prelude.{◌≡◌, IfOk, length};

use break_rules::NoMemory;
use fixtures::one_break;
use head_splits::{Class, Cut, Cuts, Side};
use std::alloc::Global;

/// A shift of six hours with a break of one hour. Its hours but that from 11 on need one employee each.
pub const LONG: &str =
    "{\"slot_minutes\":60,\"days\":1,\"need\":[0,0,0,0,0,0,0,0,1,1,1,0,1,1,0,0,0,0,0,0,0,0,0,0],\"max_heads\":1,\"weights\":{\"excess\":1,\"shortage\":2,\"shift\":3},\"types\":[{\"name\":\"D\",\"start_min\":8,\"start_max\":8,\"len_min\":6,\"len_max\":6,\"breaks\":{\"lead\":0,\"tail\":0,\"work_min\":1,\"work_max\":288,\"long_work\":288,\"long_rest\":1,\"size_min\":1,\"size_max\":1,\"totals\":[[6,1]]}}]}";

/// The same with a band: an employee in the hour from 11 on is one of those who will do.
pub const BANDED: &str =
    "{\"slot_minutes\":60,\"days\":1,\"need\":[0,0,0,0,0,0,0,0,1,1,1,0,1,1,0,0,0,0,0,0,0,0,0,0],\"need_max\":[0,0,0,0,0,0,0,0,1,1,1,1,1,1,0,0,0,0,0,0,0,0,0,0],\"max_heads\":1,\"weights\":{\"excess\":1,\"shortage\":2,\"shift\":3},\"types\":[{\"name\":\"D\",\"start_min\":8,\"start_max\":8,\"len_min\":6,\"len_max\":6,\"breaks\":{\"lead\":0,\"tail\":0,\"work_min\":1,\"work_max\":288,\"long_work\":288,\"long_rest\":1,\"size_min\":1,\"size_max\":1,\"totals\":[[6,1]]}}]}";

/// The cut to at least one duty whose first break lies at this offset.
pub fn first_break(alloc: Global, start: u16) -> Result<Cuts, NoMemory>
    ensures { IfOk result (λ cuts. length cuts ≡ 1) }
{
    let class = Class {
        shift: 0,
        day: 0,
        prefix: one_break(alloc, start)?,
    };
    let side = Side::AtLeast;
    Ok(Cuts::new(vec![in alloc; Cut { class, side, m: 1 }]?))
}
