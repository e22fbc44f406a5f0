//! The state of a plan search, and what its moves are made of.

use crate::boundaries::Successor;
use crate::chains::Chain;
use crate::chance::Chance;
use crate::changes::Repair;
use crate::copies::Likeness;
use crate::guide::Guide;
use crate::legs::Leg;
use crate::mixing::Pruning;
use crate::nearness::Nearness;
use crate::pool::Pool;
use advice::Stop;
use break_rules::NoMemory;
use shift_tables::{ListGraph, Pauses, ShiftTables};
use std::alloc::Global;
use working_plan::{FREE, FULL, Placed, Plan, Stretches, count_of};

/// The most slots of a shift.
const WINDOW: usize = 288;

/// From how many places noise is taken.
const TURNS: usize = 256;

/// A duty that was put in, or taken out.
#[derive(Clone, Copy)]
pub(crate) struct Change {
    placed: Placed,
    is_put: bool,
}

/// What a search is at. All but a move itself may be left at the end of a run, and the next run goes on with it.
#[derive(Clone, Copy)]
pub(crate) enum Task {
    /// Moves of the running chain.
    Moves,
    /// The pruning that the running chain begins with.
    Pruning(Pruning),
    /// The repair of a change of the set of shifts.
    Repair(Repair),
}

/// What a walk along a graph of break lists reads and writes.
#[derive(Drop)]
struct Walk {
    /// The prices before each offset of a window.
    sums: Vec<f64>,
    /// What the best rest behind each node of a graph earns.
    values: Vec<f64>,
}

/// A search for plans of one instance. It does the same for the same seed, for as long as it isn't asked to stop.
#[derive(Drop)]
pub struct PlanSearch<S: Stop + Drop> {
    pub(crate) alloc: Global,
    pub(crate) chance: Chance,
    walk: Walk,
    /// Small numbers that are added to prices, so that equals are told apart at random.
    noise: Vec<f64>,
    near: Nearness,
    pub(crate) likeness: Likeness,
    pub(crate) guide: Guide,
    /// What the running move did.
    pub(crate) log: Vec<Change>,
    pub(crate) plan: Plan,
    /// The shifts that a sweep goes through.
    pub(crate) order: Vec<u16>,
    /// Duties that a move chooses from.
    pub(crate) near_duties: Vec<(u16, usize)>,
    /// The duties of a day that are copied to another one.
    pub(crate) copied: Vec<Placed>,
    /// The shifts of which it is tried what the plan costs without them.
    pub(crate) removals: Vec<u16>,
    /// The used shifts whose ends move.
    pub(crate) successors: Vec<Successor>,
    pub(crate) task: Task,
    pub(crate) pool: Pool,
    pub(crate) best: Vec<Placed>,
    pub(crate) best_cost: f64,
    pub(crate) leg: Leg,
    /// The best plans of the legs before.
    pub(crate) elite: Pool,
    /// How many legs ended.
    pub(crate) legs: u32,
    pub(crate) chain: Chain,
    /// How many chains began.
    pub(crate) chains: u32,
    /// The rise of cost below which changes of the set of shifts are repaired.
    pub(crate) repaired_rise: f64,
    pub(crate) work: u64,
    /// The work at which a move that is under way is cut short.
    pub(crate) limit: u64,
    /// What may ask the search to stop.
    stop: S,
}

/// Numbers from 0 to below 1 / 256, in eighths of that.
fn noise(alloc: Global, seed: u64) -> Result<Vec<f64>, NoMemory> {
    let mut chance = Chance::new(seed);
    let mut list = Vec::new(alloc);
    for _ in 0..TURNS + WINDOW {
        let eighths = u32::try_from(chance.below(8)).unwrap_or(0);
        list.push(f64::from(eighths) / 2048.0)?;
    }
    Ok(list)
}

/// A list from a place on, and nothing past its end.
fn from_place(list: &[f64], place: usize) -> &[f64] {
    list.get(place..).unwrap_or(&[])
}

/// How often a byte stands in a part of a list.
fn count_between(list: &[u8], from: usize, to: usize, byte: u8) -> f64 {
    match list.get(from..to) {
        Some(part) => f64::from(count_of(part, byte)),
        None => 0.0,
    }
}

/// How many slots of a part of a window are free.
fn free_between(tables: &ShiftTables, bytes: &[u8], from: usize, to: usize) -> f64 {
    if tables.banded {
        count_between(bytes, from, to, FREE)
    } else {
        0.0
    }
}

/// Lays the sums of the prices of a window: `short` for a slot with too few employees, less `spare` for a full one, and nothing for a
/// free one.
fn lay_sums(sums: &mut [f64], bytes: &[u8], noise: &[f64], short: f64, spare: f64) {
    let mut sum = 0.0;
    for ((place, byte), extra) in sums.iter_mut().skip(1).zip(bytes).zip(noise) {
        let price = if *byte == FULL {
            -spare
        } else if *byte == FREE {
            0.0
        } else {
            short
        };
        sum += price + *extra;
        *place = sum;
    }
}

impl Walk {
    /// What the best list of a graph earns at the first so many sums.
    fn best_value(&mut self, graph: &ListGraph, count: usize) -> f64 {
        let sums = self.sums.get(..count).unwrap_or(&[]);
        graph.best_value(sums, &mut self.values)
    }

    /// The list of a graph that earns most at the first so many sums.
    fn best_list(&mut self, graph: &ListGraph, count: usize) -> Option<Pauses> {
        let sums = self.sums.get(..count).unwrap_or(&[]);
        let _ = graph.best_value(sums, &mut self.values);
        graph.best_list(sums, &self.values)
    }
}

impl<S: Stop + Drop> PlanSearch<S> {
    /// A search that hasn't begun, and ends early once it is asked to stop.
    pub fn new(
        alloc: Global,
        tables: &ShiftTables,
        seed: u64,
        stop: S,
    ) -> Result<PlanSearch<S>, NoMemory> {
        let plan = Plan::new(alloc, tables)?;
        let likeness = Likeness::new(alloc, tables)?;
        let leg = Leg::begun(alloc, 0, likeness.kinds());
        Ok(PlanSearch {
            alloc,
            chance: Chance::new(seed),
            walk: Walk {
                sums: vec![in alloc; 0.0; WINDOW + 1]?,
                values: vec![in alloc; 0.0; tables.most_nodes()]?,
            },
            noise: noise(alloc, seed)?,
            near: Nearness::new(alloc, tables)?,
            likeness,
            guide: Guide::none(alloc),
            log: Vec::new(alloc),
            plan,
            order: Vec::new(alloc),
            near_duties: Vec::new(alloc),
            copied: Vec::new(alloc),
            removals: Vec::new(alloc),
            successors: Vec::new(alloc),
            task: Task::Moves,
            pool: Pool::new(alloc),
            best: Vec::new(alloc),
            best_cost: f64::INFINITY,
            leg,
            elite: Pool::new(alloc),
            legs: 0,
            chain: Chain::ended(),
            chains: 0,
            repaired_rise: 0.0,
            work: 0,
            limit: 0,
            stop,
        })
    }

    /// The work done so far: edges of graphs, and slots.
    pub fn work(&self) -> u64 {
        self.work
    }

    /// What the best plan so far costs.
    pub fn best_cost(&self) -> f64 {
        self.best_cost
    }

    /// Whether nothing was told of good plans.
    pub fn is_unguided(&self) -> bool {
        self.guide.shifts.is_empty()
    }

    /// Tells what is known of good plans.
    pub fn set_guide(&mut self, guide: Guide) {
        self.guide = guide;
    }

    /// What may ask the search to stop.
    pub fn stop(&self) -> &S {
        &self.stop
    }

    /// Whether a move that is under way is cut short.
    pub(crate) fn is_spent(&self) -> bool {
        self.limit <= self.work || self.stop.is_asked()
    }

    /// Counts work.
    pub(crate) fn count(&mut self, work: usize) {
        self.work = self.work.saturating_add(work as u64);
    }

    /// Lays the sums of a shift's window on a day at marginal prices, with noise, and tells how many there are.
    fn lay_window(&mut self, tables: &ShiftTables, shift: u16, day: usize) -> usize {
        let len = tables.len_of(shift);
        let turn = self.chance.below(TURNS);
        let noise = from_place(&self.noise, turn);
        let bytes = self.plan.levels.bytes(tables.base(shift, day), len);
        lay_sums(
            &mut self.walk.sums,
            bytes,
            noise,
            tables.shortage,
            tables.excess,
        );
        len.saturating_add(1)
    }

    /// What one more duty of a shift on a day gains, less what the shift costs.
    pub(crate) fn value(&mut self, tables: &ShiftTables, shift: u16, day: usize) -> f64 {
        let count = self.lay_window(tables, shift, day);
        let Some(graph) = tables.graph(shift) else {
            return f64::MIN;
        };
        self.count(graph.edge_count().saturating_add(count));
        self.walk.best_value(graph, count).floor()
    }

    /// The breaks of a duty of a shift on a day that gains most, one of them at random.
    pub(crate) fn list(&mut self, tables: &ShiftTables, shift: u16, day: usize) -> Option<Pauses> {
        let count = self.lay_window(tables, shift, day);
        let graph = tables.graph(shift)?;
        self.count(graph.edge_count().saturating_add(count));
        self.walk.best_list(graph, count)
    }

    /// No duty of a shift on a day gains more than this.
    pub(crate) fn bound(&mut self, tables: &ShiftTables, shift: u16, day: usize) -> f64 {
        let Some(place) = tables.shifts.get(usize::from(shift)) else {
            return f64::MIN;
        };
        let len = usize::from(place.len);
        self.count(len / 8);
        let losses = place.losses;
        let bytes = self.plan.levels.bytes(tables.base(shift, day), len);
        let inner = count_between(bytes, losses.from, losses.to, FULL);
        let spare = f64::from(count_of(bytes, FULL));
        let lost = inner.max(losses.least).min(losses.most);
        let saved = inner.min(lost);
        let free = free_between(tables, bytes, losses.from, losses.to);
        let missed = (lost - saved - free).max(0.0);
        let short = f64::from(place.len) - spare - free_between(tables, bytes, 0, len);
        tables.shortage * (short - missed) - tables.excess * (spare - saved)
    }

    /// Puts a duty in.
    pub(crate) fn put(&mut self, tables: &ShiftTables, placed: Placed) -> Result<(), NoMemory> {
        self.log.push(Change {
            placed,
            is_put: true,
        })?;
        self.count(tables.len_of(placed.shift));
        self.plan.put(tables, &placed)
    }

    /// Takes a duty out.
    pub(crate) fn take(&mut self, tables: &ShiftTables, placed: Placed) -> Result<(), NoMemory> {
        self.log.push(Change {
            placed,
            is_put: false,
        })?;
        self.count(tables.len_of(placed.shift));
        self.plan.take(tables, &placed);
        Ok(())
    }

    /// Puts a duty of a shift in on a day that gains most, whatever that is.
    pub(crate) fn put_best(
        &mut self,
        tables: &ShiftTables,
        shift: u16,
        day: usize,
    ) -> Result<bool, NoMemory> {
        let Some(pauses) = self.list(tables, shift, day) else {
            return Ok(false);
        };
        self.put(tables, Placed { shift, day, pauses })?;
        Ok(true)
    }

    /// Undoes the running move back to that many changes.
    pub(crate) fn undo_to(&mut self, tables: &ShiftTables, mark: usize) -> Result<(), NoMemory> {
        for _ in mark..self.log.len() {
            let Some(change) = self.log.pop() else {
                break;
            };
            self.count(tables.len_of(change.placed.shift));
            if change.is_put {
                self.plan.take(tables, &change.placed);
            } else {
                self.plan.put(tables, &change.placed)?;
            }
        }
        Ok(())
    }

    /// Keeps the plan where it is the best of the running leg, or of all.
    pub(crate) fn note_best(&mut self, tables: &ShiftTables) -> Result<(), NoMemory> {
        if self.plan.cost < self.leg.cost {
            self.leg.best.clear();
            self.plan.list_into(tables, &mut self.leg.best)?;
            self.leg.note_gain(self.plan.cost, self.work);
        }
        if self.plan.cost < self.best_cost {
            self.best.clear();
            self.plan.list_into(tables, &mut self.best)?;
            self.best_cost = self.plan.cost;
        }
        Ok(())
    }

    /// Whether a change that raises the cost by so much is taken at a temperature.
    pub(crate) fn is_taken(&mut self, rise: f64, temperature: f64) -> bool {
        rise <= 0.0 || rise < self.chance.exponential() * temperature
    }

    /// A shift that may be worth using.
    pub(crate) fn candidate(&mut self, tables: &ShiftTables) -> Option<u16> {
        if !self.guide.shifts.is_empty() && !self.chance.is_once_in(3) {
            return self.chance.pick(&self.guide.shifts);
        }
        self.chance.pick(&tables.usable)
    }

    /// A shift near one, or else a candidate.
    pub(crate) fn neighbour(&mut self, tables: &ShiftTables, shift: u16) -> Option<u16> {
        match self.chance.pick(self.near.of(shift)) {
            Some(near) => Some(near),
            None => self.candidate(tables),
        }
    }

    /// A used shift.
    pub(crate) fn some_used(&mut self) -> Option<u16> {
        self.chance.pick(&self.plan.used)
    }
}

/// The stretches of work of a duty.
pub(crate) fn stretches(tables: &ShiftTables, placed: &Placed) -> Stretches {
    Stretches::of(tables, placed.shift, placed.day, &placed.pauses)
}
