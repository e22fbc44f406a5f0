//! What the adviser keeps of its instance.
ghost use Rattle.std.specs.Prelude.{◌≡◌, IfOk, IfSome};

use crate::pacing::{Budget, Pacing};
use crate::prices::{SCALE, begin_prices, cut_prices, slot_prices};
use crate::sharing::{Sharing, plan_work};
use crate::splits::{HeadSplit, NodeView, best_split};
use advice::{Ask, Stop};
use break_rules::NoMemory;
use greedy::greedy_plan_until;
use head_splits::{CutPrices, Prices, SlotPrices};
use plan_search::{Guide, PlanSearch};
use price_climb::{Climb, Limits, Ranges};
use rota_cost::{Costed, cost_rows, legal_rows, recount};
use shift_instance::{Instance, Rows};
use shift_tables::ShiftTables;
use std::alloc::Global;
use std::cmp::OrderedFloat;
use std::num::nearest_u64_to_f64;

/// By how much a value that closes a node may lie below the least cost known: bounds are rounded up.
const ROUNDED: f64 = 0.99;

/// How far above that value no rounding of prices leads below it.
const CLEAR: f64 = 0.25;

/// What the adviser keeps of its instance.
#[derive(Drop)]
pub(crate) struct AdviserState<S: Stop + Drop> {
    alloc: Global,
    tables: ShiftTables,
    plans: PlanSearch<S>,
    climb: Climb,
    /// Whether it searches for plans.
    seeks_plans: bool,
    /// What the cheapest plan of hints costs that was offered to the plan search.
    offered: u64,
    /// Whether the greedy plan was made, whole or as far as the stop let it.
    is_greedy_made: bool,
    /// The rows of the greedy plan, where it wasn't advised yet.
    greedy: Option<Rows>,
    /// How climbs and the plan search share the time.
    sharing: Sharing,
    /// How much more work steps get than usual ones.
    pacing: Pacing,
}

/// The shifts whose averaged part isn't 0, the most used first.
fn used_shifts(alloc: Global, parts: &[f64]) -> Result<Vec<u16>, NoMemory> {
    let mut used = Vec::new(alloc);
    for (shift, part) in parts.iter().enumerate() {
        if 0.001 < *part {
            let number = u16::try_from(shift).unwrap_or(u16::MAX);
            used.push((OrderedFloat(-*part), number))?;
        }
    }
    used.sort_unstable();
    let mut shifts = Vec::new(alloc);
    for (_, shift) in used.as_slice() {
        shifts.push(*shift)?;
    }
    Ok(shifts)
}

/// When a climb to a value ends: at the node without cuts much later than below, and later with more effort.
fn limits_of(ask: &Ask, goal: f64, effort: u32) -> Limits {
    if ask.cuts.is_empty() {
        return Limits {
            rounds: effort.saturating_mul(2000),
            goal,
            stalls: effort.saturating_mul(1000),
            step: 0.1,
        };
    }
    Limits {
        rounds: effort.saturating_mul(120),
        goal,
        stalls: effort.saturating_mul(4),
        step: 0.05,
    }
}

impl<S: Stop + Drop> AdviserState<S> {
    /// What is known at first of an instance, for a search within a budget, where there is one.
    pub(crate) fn new(
        alloc: Global,
        instance: &Instance,
        seed: u64,
        stop: S,
        budget: Option<Budget>,
    ) -> Result<AdviserState<S>, NoMemory> {
        let tables = ShiftTables::new(alloc, instance)?;
        let plans = PlanSearch::new(alloc, &tables, seed, stop)?;
        let climb = Climb::new(alloc, &tables)?;
        Ok(AdviserState {
            alloc,
            tables,
            plans,
            climb,
            seeks_plans: true,
            offered: u64::MAX,
            is_greedy_made: false,
            greedy: None,
            sharing: Sharing::new(),
            pacing: Pacing::new(budget),
        })
    }

    /// The same, which searches for plans or doesn't.
    pub(crate) fn seeking(self, plans: bool) -> AdviserState<S> {
        let mut kept = self;
        kept.seeks_plans = plans;
        kept
    }

    /// Whether the best plan so far is cheaper than a cost.
    fn is_cheaper_than(&self, cost: u64) -> bool {
        self.plans.best_cost() < nearest_u64_to_f64(cost)
    }

    /// The best plan of the search so far, with its cost, judged, where it is cheaper than a cost.
    pub(crate) fn best_plan_below(
        &self,
        instance: &Instance,
        cost: u64,
    ) -> Result<Option<Costed>, NoMemory>
        ensures { IfOk result (λ plan. IfSome plan (λ c. c.instance ≡ instance.now)) }
    {
        if !self.is_cheaper_than(cost) {
            return Ok(None);
        }
        self.plans.best_plan(instance)
    }

    /// The greedy plan, with its cost, judged, where it was made and not taken out yet.
    pub(crate) fn take_greedy(&mut self, instance: &Instance) -> Option<Costed>
        ensures { IfSome result (λ c. c.instance ≡ instance.now) }
    {
        let rows = self.greedy.take()?;
        match cost_rows(instance, rows) {
            Ok(plan) => Some(plan),
            Err(_) => None,
        }
    }

    /// Notes that the best plan got cheaper, where it did.
    fn note_gain(&mut self, before: f64) {
        if self.plans.best_cost() < before {
            self.sharing.gain(self.plans.work());
        }
    }

    /// Has the plan search go on from the hint's rows, where they are legal and cheaper than its best and than all that it was
    /// offered before.
    fn take_hint(&mut self, instance: &Instance, ask: &Ask) -> Result<(), NoMemory> {
        let before = self.plans.best_cost();
        if self.offered <= ask.best || before <= nearest_u64_to_f64(ask.best) {
            return Ok(());
        }
        self.offered = ask.best;
        if legal_rows(instance, &ask.hint.rows).is_ok() {
            self.plans.offer(&self.tables, &ask.hint.rows)?;
        }
        self.note_gain(before);
        Ok(())
    }

    /// Searches for plans as long as it is due.
    fn search_plans(&mut self, effort: u32) -> Result<(), NoMemory> {
        let before = self.plans.best_cost();
        let due = self
            .sharing
            .due(self.climb.work(), self.plans.work(), effort);
        self.plans.run(&self.tables, due)?;
        self.note_gain(before);
        Ok(())
    }

    /// Makes the greedy plan, once and only where the best rota has no duty, and not where a stop is asked for. Once the stop asks, the
    /// plan is the one after the rounds that were made by then. Where the plan search has none that is cheaper, the plan is kept to be
    /// advised, and offered to the search, which doesn't take it where a duty has too many breaks.
    fn make_greedy(&mut self, instance: &Instance, ask: &Ask) -> Result<(), NoMemory> {
        let is_wanted = !self.is_greedy_made && ask.hint.rows.as_slice().is_empty();
        if !is_wanted || self.plans.stop().is_asked() {
            return Ok(());
        }
        self.is_greedy_made = true;
        let rows = greedy_plan_until(self.alloc, instance, self.plans.stop())?;
        if self.is_cheaper_than(recount(instance, &rows)) {
            return Ok(());
        }
        self.plans.offer(&self.tables, &rows)?;
        self.greedy = Some(rows);
        Ok(())
    }

    /// Tells the plan search what the last climb knows: that of the node without cuts, or else of the first node.
    fn guide_plans(&mut self, ask: &Ask) -> Result<(), NoMemory> {
        if !ask.cuts.is_empty() && !self.plans.is_unguided() {
            return Ok(());
        }
        let shifts = used_shifts(self.alloc, self.climb.parts())?;
        let heads = Vec::from_slice(self.alloc, self.climb.heads())?;
        self.plans.set_guide(Guide { shifts, heads });
        Ok(())
    }

    /// The value that closes a node, from the least cost known.
    fn closing_value(&self, best: u64) -> f64 {
        self.plans.best_cost().min(nearest_u64_to_f64(best)) - ROUNDED
    }

    /// Climbs from the hint's prices, and gives the value reached.
    fn climb_from(&mut self, ask: &Ask, ranges: &Ranges, effort: u32) -> Result<f64, NoMemory> {
        let limits = limits_of(ask, self.closing_value(ask.best), effort);
        let start = begin_prices(self.alloc, &self.tables, ranges, ask)?;
        self.climb
            .climb(&self.tables, ranges, &start, limits, self.plans.stop())
    }

    /// The prices of the last climb, as they are advised for so many cuts.
    fn prices(&self, ranges: &Ranges, cuts: usize) -> Result<Prices, NoMemory> {
        let best = self.climb.best();
        let slots = slot_prices(self.alloc, &self.tables, best)?;
        let cuts = cut_prices(self.alloc, &self.tables, ranges, best, cuts)?;
        Ok(Prices {
            q: SCALE,
            slots: SlotPrices::new(slots),
            cuts: CutPrices::new(cuts),
        })
    }

    /// The split that promises most after the last climb, which lacks so much of what would close the node.
    fn split(&mut self, ranges: &Ranges, room: f64) -> Result<Option<HeadSplit>, NoMemory> {
        let worth = self.climb.worth(&self.tables, ranges)?;
        let view = NodeView {
            ranges,
            worth: &worth,
            heads: self.climb.heads(),
            prices: self.climb.best(),
        };
        Ok(best_split(&self.tables, &view, room))
    }

    /// The effort of the next step.
    fn effort(&self) -> u32 {
        let climbed = plan_work(self.climb.work());
        self.pacing
            .effort(climbed.saturating_add(self.plans.work()))
    }

    /// Searches for plans after a climb, with the greedy plan at first, where it searches for any.
    fn seek_plans(&mut self, instance: &Instance, ask: &Ask, effort: u32) -> Result<(), NoMemory> {
        if !self.seeks_plans {
            return Ok(());
        }
        self.guide_plans(ask)?;
        self.search_plans(effort)?;
        self.make_greedy(instance, ask)
    }

    /// Climbs for a node and searches for plans, with the greedy plan at first: the prices, and a split where the climb doesn't
    /// clearly close the node.
    pub(crate) fn look(
        &mut self,
        instance: &Instance,
        ask: &Ask,
    ) -> Result<(Prices, Option<HeadSplit>), NoMemory> {
        let effort = self.effort();
        if self.seeks_plans {
            self.take_hint(instance, ask)?;
        }
        let ranges = Ranges::new(self.alloc, &self.tables, ask.cuts.as_slice())?;
        let value = self.climb_from(ask, &ranges, effort)?;
        self.seek_plans(instance, ask, effort)?;
        let prices = self.prices(&ranges, ask.cuts.len())?;
        self.pacing
            .count(self.tables.slots.saturating_add(ask.cuts.len()));
        let room = self.closing_value(ask.best) - value;
        if room <= -CLEAR {
            return Ok((prices, None));
        }
        let split = self.split(&ranges, room.max(0.0))?;
        Ok((prices, split))
    }
}
