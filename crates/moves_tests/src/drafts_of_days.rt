//! A small day, and drafts of plans for it.
ghost use Rattle.std.specs.Prelude.{◌≡◌, IfOk};

use break_rules::NoMemory;
use fixtures::one_break;
use local_moves::{Draft, Move, MoveFault};
use rota_cost::cost_rows;
use shift_instance::{Instance, Rows};
use std::alloc::Global;
use std::test::Fail;

/// Hour slots of one day. Two employees are needed from 8 to 16 o'clock, but one from 11 to 13. A shift has at most two
/// duties on a day. Excess costs 1, shortage 2 and a shift 3. The one shift has 8 hours from 8 o'clock on, with one break
/// of an hour after 2 to 5 hours.
pub const DAY: &str =
    "{\"slot_minutes\":60,\"days\":1,\"need\":[0,0,0,0,0,0,0,0,2,2,2,1,1,2,2,2,0,0,0,0,0,0,0,0],\"max_heads\":2,\"weights\":{\"excess\":1,\"shortage\":2,\"shift\":3},\"types\":[{\"name\":\"M\",\"start_min\":8,\"start_max\":8,\"len_min\":8,\"len_max\":8,\"breaks\":{\"lead\":2,\"tail\":2,\"work_min\":2,\"work_max\":5,\"long_work\":5,\"long_rest\":1,\"size_min\":1,\"size_max\":1,\"totals\":[[8,1]],\"lunches\":[],\"resettle\":0}}]}";

/// The same with a second shift, of 9 hours, and with 3 hours or more before a break and 4 or more behind it.
pub const LONGER: &str =
    "{\"slot_minutes\":60,\"days\":1,\"need\":[0,0,0,0,0,0,0,0,2,2,2,1,1,2,2,2,0,0,0,0,0,0,0,0],\"max_heads\":2,\"weights\":{\"excess\":1,\"shortage\":2,\"shift\":3},\"types\":[{\"name\":\"M\",\"start_min\":8,\"start_max\":8,\"len_min\":8,\"len_max\":9,\"breaks\":{\"lead\":3,\"tail\":4,\"work_min\":2,\"work_max\":5,\"long_work\":5,\"long_rest\":1,\"size_min\":1,\"size_max\":1,\"totals\":[[8,1]],\"lunches\":[],\"resettle\":0}}]}";

/// The night with bands: two or three employees will do in each of its hours.
pub const BANDED_NIGHT: &str =
    "{\"slot_minutes\":60,\"days\":1,\"need\":[2,2,2,2,2,2,2,2,0,0,0,0,0,0,0,0,0,0,0,0,0,0,0,0],\"need_max\":[3,3,3,3,3,3,3,3,0,0,0,0,0,0,0,0,0,0,0,0,0,0,0,0],\"max_heads\":3,\"weights\":{\"excess\":1,\"shortage\":2,\"shift\":3},\"types\":[{\"name\":\"N\",\"start_min\":0,\"start_max\":0,\"len_min\":8,\"len_max\":8,\"breaks\":{\"lead\":2,\"tail\":2,\"work_min\":2,\"work_max\":5,\"long_work\":5,\"long_rest\":1,\"size_min\":1,\"size_max\":1,\"totals\":[[8,1]],\"lunches\":[],\"resettle\":0}}]}";

/// A move as a table spells it: shift, day and breaks, or two shifts. Breaks are of one hour, and told by the hours before them.
#[derive(Clone, Copy, Drop)]
pub enum Step {
    Add(u16, u8, u16),
    Drop(u16, u8, u16),
    Rebreak(u16, u8, u16, u16),
    Reshift(u16, u16),
}

/// The draft of the plan without duties.
pub fn empty(alloc: Global, instance: &Instance) -> Result<Draft, Fail>
    ensures { IfOk result (λ d. d.instance ≡ instance.now) }
{
    let rows = Rows::new(Vec::new(alloc));
    let costed = cost_rows(instance, rows).ok().ok_or("refused")?;
    Ok(Draft::new(alloc, instance, costed.into_rows())?)
}

/// The move of a duty from some breaks to others.
fn rebreak(alloc: Global, shift: u16, day: u8, from: u16, to: u16) -> Result<Move, NoMemory> {
    let from = one_break(alloc, from)?;
    let to = one_break(alloc, to)?;
    Ok(Move::Rebreak {
        shift,
        day,
        from,
        to,
    })
}

/// The move that a step spells.
pub fn move_of(alloc: Global, step: Step) -> Result<Move, NoMemory> {
    Ok(match step {
        Step::Add(shift, day, start) => Move::Add {
            shift,
            day,
            breaks: one_break(alloc, start)?,
        },
        Step::Drop(shift, day, start) => Move::Drop {
            shift,
            day,
            breaks: one_break(alloc, start)?,
        },
        Step::Rebreak(shift, day, from, to) => rebreak(alloc, shift, day, from, to)?,
        Step::Reshift(from, to) => Move::Reshift { from, to },
    })
}

/// Applies the move that a step spells, and gives what the plan costs then.
pub fn take(instance: &Instance, draft: &mut Draft, step: Step) -> Result<u64, MoveFault>
    requires { draft.old.instance ≡ instance.now }
    ensures { draft.new.instance ≡ draft.old.instance }
{
    let step = move_of(draft.allocator(), step)?;
    let _done = draft.apply(instance, &step)?;
    Ok(draft.cost())
}

/// Adds two duties that break in the first hours.
fn add_early(instance: &Instance, draft: &mut Draft) -> Result<(), MoveFault>
    requires { draft.old.instance ≡ instance.now }
    ensures { draft.new.instance ≡ draft.old.instance }
{
    let _first = take(instance, draft, Step::Add(0, 0, 2))?;
    let _second = take(instance, draft, Step::Add(0, 0, 3))?;
    Ok(())
}

/// The draft of two duties that break in the first hours.
pub fn early(alloc: Global, instance: &Instance) -> Result<Draft, Fail>
    ensures { IfOk result (λ d. d.instance ≡ instance.now) }
{
    let mut draft = empty(alloc, instance)?;
    add_early(instance, &mut draft)?;
    Ok(draft)
}
