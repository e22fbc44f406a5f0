//! A day with one shift, cuts on its duties, and prices below them.
ghost use Rattle.std.specs.Prelude.{◌≡◌, length, IfOk};
ghost use Rattle.shift_instance.specs.Problem.{shift_list, slots};

use break_rules::NoMemory;
use fixtures::{instance_of, one_break};
use head_splits::{Class, Cut, CutPrices, Cuts, Prices, Side, SlotPrices};
use shift_instance::Instance;
use std::alloc::Global;
use std::test::Fail;

/// A day of hours that needs one employee from 8 to 12. The one shift has these hours, of which that from 9 or that from 10 on is a break,
/// and at most two duties. Excess costs 1, shortage 2 and the shift 3.
const DAY: &str =
    "{\"slot_minutes\":60,\"days\":1,\"need\":[0,0,0,0,0,0,0,0,1,1,1,1,0,0,0,0,0,0,0,0,0,0,0,0],\"max_heads\":2,\"weights\":{\"excess\":1,\"shortage\":2,\"shift\":3},\"types\":[{\"name\":\"D\",\"start_min\":8,\"start_max\":8,\"len_min\":4,\"len_max\":4,\"breaks\":{\"lead\":1,\"tail\":1,\"work_min\":1,\"work_max\":4,\"long_work\":4,\"long_rest\":1,\"size_min\":1,\"size_max\":1,\"totals\":[[4,1]]}}]}";

/// The instance of that day.
pub fn day(alloc: Global) -> Result<Instance, Fail>
    ensures shifts { IfOk result (λ day. length (shift_list day) ≡ 1) }
    ensures slots { IfOk result (λ day. slots day ≡ 24) }
{
    let day = instance_of(alloc, DAY)?;
    if day.shifts().len() == 1 && day.slots() == 24 {
        Ok(day)
    } else {
        Err("it is another day".into())
    }
}

/// A cut on the duties with the break at this offset.
fn cut_at(alloc: Global, start: u16, side: Side, m: u16) -> Result<Cut, NoMemory> {
    let class = Class {
        shift: 0,
        day: 0,
        prefix: one_break(alloc, start)?,
    };
    Ok(Cut { class, side, m })
}

/// No duty with a break from 9 on, and at least two with one from 10 on.
pub fn two_cuts(alloc: Global) -> Result<Cuts, NoMemory>
    ensures { IfOk result (λ cuts. length cuts ≡ 2) }
{
    let mut cuts = Vec::new(alloc);
    cuts.push(cut_at(alloc, 1, Side::AtMost, 0)?)?;
    cuts.push(cut_at(alloc, 2, Side::AtLeast, 2)?)?;
    Ok(Cuts::new(cuts))
}

/// Prices at scale 1: one of the hours from 8 to 12, 0 of all others and of the first cut, and one of the second cut.
pub fn prices(alloc: Global, hour: i64, cut: u64) -> Result<Prices, NoMemory> {
    let cuts = CutPrices::new(Vec::from_slice(alloc, &[0, cut])?);
    let mut hours = [0i64; 24];
    hours[8..12].fill(hour);
    let slots = SlotPrices::new(Vec::from_slice(alloc, &hours)?);
    Ok(Prices { q: 1, slots, cuts })
}
