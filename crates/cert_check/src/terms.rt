//! The values of the duties of shifts, by the walk over their breaks.

ghost use Rattle.std.specs.Prelude.{◌≡◌, ◌≤◌, ◌<◌, ◌^◌, ⊤, ℕ, [], false, IfOk, IfSome, IsSomeAnd, IsTrue, MatchOption, length, slice_get, slice_index};
ghost use Rattle.std.specs.Int.RustNames.{unsigned_abs};
ghost use Rattle.break_rules.specs.Breaks.{is_live};
ghost use Rattle.break_rules.specs.Ranges.{IsRule};
ghost use Rattle.break_graph.specs.Graph.{IsGraph};
ghost use Rattle.shift_instance.specs.Problem.{shift_list, slots};
ghost use Rattle.shift_instance.specs.Rota.{lists_of};
ghost use Rattle.shift_instance.specs.Valid.{IsValid};
ghost use Rattle.head_splits.specs.Bound.{are_prices, bound_of, is_nil};
ghost use Rattle.price_sums.specs.Along.{AreSmallPrices, AreSums, Completes};
ghost use Rattle.price_sums.specs.Days.{sums_on};
ghost use Rattle.bound_sums.specs.Values.{AreValues};
ghost use Rattle.cert_check.specs.Rests.{IsGreatest};
ghost use Rattle.cert_check.specs.Below.{whole_worth};

use crate::below::{Duties, PricedWork, best_below};
use crate::layers::ByLayers;
use crate::nodes::ByNodes;
use crate::rests::set_rest_lanes;
use bound_sums::{DayValues, KeptValues, has_prefix_cut, values_of_lane};
use break_graph::Graph;
use break_layers::{LayerValues, most_by_lane};
use break_rules::{NoMemory, Spot};
use head_splits::{Cuts, Prices};
use price_sums::{DaySums, LANES, Lane, lane_at};
use shift_instance::Instance;
use std::alloc::Global;
use std::marker::Model;

/// The greatest reduced values of the duties of a shift, day by day, by the nodes of the shift's graph, and `None` where no
/// list is legal. What rests earn is found in one walk along the graph for all days, in lent lanes. Where no cut bounds duties of the
/// shift that begin with some break, whole lists are worth what they earn.
fn values_by_nodes(
    alloc: Global,
    instance: &Instance,
    cuts: &Cuts,
    prices: &Prices,
    sums: &DaySums,
    graph: &Graph,
    shift: u16,
    lanes: &mut Vec<Lane>,
) -> Result<Option<[i128; LANES]>, NoMemory>
    requires shift { shift < length (shift_list instance.now) }
    requires few { length cuts.now ≤ 2 ^ 33 }
    requires passes { IsTrue (are_prices instance.now cuts.now prices.now) }
    requires sums { sums.now ≡ record { instance = instance.now; prices = prices.now.slots } }
    requires graph { IsSomeAnd (slice_get (shift_list instance.now) shift) (λ x. IsGraph x.1 x.0.len graph.now) }
    ensures { IfOk result (λ found. MatchOption found (IsTrue (is_nil (lists_of instance.now shift))) (λ values. AreValues instance.now cuts.now prices.now shift instance.now.days values)) }
{
    let nodes = graph.node_count();
    if nodes == 0 {
        return Ok(None);
    }
    let rule = instance.rule_of(shift);
    let len = instance.shift(shift).len;
    let sums = sums.along(instance, shift);
    set_rest_lanes(rule, len, sums, graph, lanes)?;
    if !has_prefix_cut(cuts, shift) {
        return Ok(Some(values_of_lane(lane_at(lanes, nodes - 1))));
    }
    let work = PricedWork { rule, len, sums };
    let mut values = [0; LANES];
    for day in 0..instance.days() {
        let duties = Duties {
            cuts: cuts.as_slice(),
            prices: prices.cuts.as_slice(),
            shift,
            day,
        };
        let walk = ByNodes {
            graph,
            values: lanes,
            day,
        };
        let value = best_below(alloc, &duties, &work, &walk, &[], nodes - 1)?;
        values[usize::from(day)] = value;
    }
    Ok(Some(values))
}

/// The sums of a day, of those of all days side by side.
fn sums_of_day(alloc: Global, lanes: &[Lane], day: u8) -> Result<Vec<i64>, NoMemory>
    requires { day < 8 }
    ensures { IfOk result (λ sums. sums.items ≡ sums_on day lanes.now) }
{
    let mut sums = Vec::with_capacity(alloc, lanes.len())?;
    for lane in lanes {
        sums.push(lane[usize::from(day)])?;
    }
    Ok(sums)
}

/// The most that a duty of a shift on a day is worth, by layers, and `None` where no list is legal.
fn layered_value(
    alloc: Global,
    duties: &Duties<'_>,
    work: &PricedWork<'_>,
) -> Result<Option<i128>, NoMemory>
    requires rule { IsRule work.now.rule.now }
    requires day { duties.now.day < 8 }
    requires sums { AreSums work.now.len (sums_on duties.now.day work.now.sums.now) }
    requires count { length duties.now.prices.now ≡ length duties.now.cuts.now }
    requires few { length duties.now.cuts.now ≤ 2 ^ 33 }
    requires small { (k : ℕ) → slice_index duties.now.prices.now k ≤ 1000000000000 }
    ensures greatest { IfOk result (λ found. MatchOption found (is_live work.now.rule.now work.now.len [] ≡ false) (λ v. IsGreatest (Completes work.now.rule.now work.now.len []) (whole_worth duties.now.cuts.now duties.now.prices.now duties.now.shift duties.now.day (sums_on duties.now.day work.now.sums.now) work.now.rule.now work.now.len []) v)) }
    ensures size { IfOk result (λ found. MatchOption found ⊤ (λ v. unsigned_abs v ≤ 2 ^ 74)) }
{
    let sums = sums_of_day(alloc, work.sums, duties.day)?;
    let layers = LayerValues::new(alloc, work.rule, work.len, sums)?;
    let opening = Spot::opening();
    if layers.value_at(opening).is_none() {
        return Ok(None);
    }
    let walk = ByLayers { layers };
    let value = best_below(alloc, duties, work, &walk, &[], opening)?;
    Ok(Some(value))
}

/// The greatest reduced values of the duties of a shift, day by day, by layers, and `None` where no list is legal. Where no cut
/// bounds duties of the shift that begin with some break, whole lists are worth what they earn, and all days go side by side, in
/// lent lanes.
fn values_by_layers(
    alloc: Global,
    instance: &Instance,
    cuts: &Cuts,
    prices: &Prices,
    sums: &DaySums,
    shift: u16,
    lanes: &mut Vec<Lane>,
) -> Result<Option<[i128; LANES]>, NoMemory>
    requires shift { shift < length (shift_list instance.now) }
    requires few { length cuts.now ≤ 2 ^ 33 }
    requires passes { IsTrue (are_prices instance.now cuts.now prices.now) }
    requires sums { sums.now ≡ record { instance = instance.now; prices = prices.now.slots } }
    ensures { IfOk result (λ found. MatchOption found (IsTrue (is_nil (lists_of instance.now shift))) (λ values. AreValues instance.now cuts.now prices.now shift instance.now.days values)) }
{
    let work = PricedWork {
        rule: instance.rule_of(shift),
        len: instance.shift(shift).len,
        sums: sums.along(instance, shift),
    };
    if !has_prefix_cut(cuts, shift) {
        return match most_by_lane(alloc, work.rule, work.len, work.sums, lanes)? {
            Some(most) => Ok(Some(values_of_lane(&most))),
            None => Ok(None),
        };
    }
    let mut values = [0; LANES];
    for day in 0..instance.days() {
        let duties = Duties {
            cuts: cuts.as_slice(),
            prices: prices.cuts.as_slice(),
            shift,
            day,
        };
        match layered_value(alloc, &duties, &work)? {
            Some(value) => values[usize::from(day)] = value,
            None => return Ok(None),
        }
    }
    Ok(Some(values))
}

/// The sums of slot prices, and the prices themselves.
#[derive(Drop)]
struct SlotSums {
    sums: DaySums,
    slots: Vec<i64>,
    ghost same: { sums.prices ≡ slots.items },
}

/// The sums of slot prices: those that were kept where they are of these prices, and else new ones.
fn slot_sums(
    alloc: Global,
    kept: Option<SlotSums>,
    instance: &Instance,
    prices: &[i64],
) -> Result<SlotSums, NoMemory>
    requires count { length prices.now ≡ slots instance.now }
    requires prices { AreSmallPrices prices.now }
    requires kept { IfSome kept (λ k. k.sums.instance ≡ instance.now) }
    ensures { IfOk result (λ s. s.sums ≡ record { instance = instance.now; prices = prices.now }) }
{
    if let Some(kept) = kept {
        if kept.slots.as_slice() == prices {
            return Ok(kept);
        }
    }
    Ok(SlotSums {
        sums: DaySums::new(alloc, instance, prices)?,
        slots: prices.to_vec(alloc)?,
    })
}

/// The values of duties by the walk over their breaks, at slot prices with these sums, and lanes whose memory is used for each shift.
#[derive(Drop)]
struct ByWalk {
    sums: SlotSums,
    lanes: Vec<Lane>,
}

impl DayValues for ByWalk {
    ghost use Rattle.std.specs.Prelude.{◌≡◌};

    ghost serves = { λ values i _ prices. values.sums.sums ≡ record { instance = i; prices = prices.slots } };

    fn of_shift(
        &mut self,
        alloc: Global,
        instance: &Instance,
        cuts: &Cuts,
        prices: &Prices,
        shift: u16,
    ) -> Result<Option<[i128; LANES]>, NoMemory> {
        let slot_sums = &self.sums;
        let sums = &slot_sums.sums;
        let lanes = &mut self.lanes;
        match instance.graph(shift) {
            Some(graph) => values_by_nodes(
                alloc, instance, cuts, prices, sums, graph, shift, lanes,
            ),
            None => values_by_layers(alloc, instance, cuts, prices, sums, shift, lanes),
        }
    }
}

/// What is kept from one bound to the next: the values of an instance's shifts, the sums of the slot prices, and lanes whose memory
/// serves again.
#[derive(Drop)]
pub(crate) struct WalkMemory {
    values: KeptValues,
    sums: Option<SlotSums>,
    lanes: Vec<Lane>,
}

impl Model for WalkMemory {
    ghost use Rattle.shift_instance.specs.Problem.{Problem};

    ghost Value = { Problem };

    ghost view = { λ m. m.values };

    ghost use Rattle.std.specs.Prelude.{◌≡◌, IfSome};

    ghost invariant = { λ m. IfSome m.sums (λ s. s.sums.instance ≡ m.values) };
}

impl WalkMemory {
    /// Nothing yet of an instance. It takes no memory.
    pub(crate) fn new(alloc: Global, instance: &Instance) -> WalkMemory
        ensures { result ≡ instance.now }
    {
        WalkMemory {
            values: KeptValues::new(alloc, instance),
            sums: None,
            lanes: Vec::new(alloc),
        }
    }
}

/// The bound of a price set, with the values of duties that are kept, and all others by the walk over their breaks.
pub(crate) fn bound_by_walk(
    alloc: Global,
    memory: &mut WalkMemory,
    instance: &Instance,
    cuts: &Cuts,
    prices: &Prices,
) -> Result<u64, NoMemory>
    requires valid { IsValid instance.now }
    requires memory { memory.old ≡ instance.now }
    requires few { length cuts.now ≤ 2 ^ 33 }
    requires passes { IsTrue (are_prices instance.now cuts.now prices.now) }
    ensures bound { IfOk result (λ b. b ≡ bound_of instance.now cuts.now prices.now) }
    ensures memory { memory.new ≡ memory.old }
{
    let kept = std::mem::replace(&mut memory.sums, None);
    let sums = slot_sums(alloc, kept, instance, prices.slots.as_slice())?;
    let lanes = std::mem::replace(&mut memory.lanes, Vec::new(alloc));
    let mut walk = ByWalk { sums, lanes };
    let bound = memory
        .values
        .bound_by(alloc, &mut walk, instance, cuts, prices);
    memory.lanes = walk.lanes;
    memory.sums = Some(walk.sums);
    bound
}
