//! The numbers of an instance that a search reads, by place.

ghost use Rattle.std.specs.Prelude.{◌<◌, length};
ghost use Rattle.shift_instance.specs.Problem.{shift_list};

use crate::lists::ListGraph;
use break_rules::{NoMemory, Rule};
use shift_instance::{Instance, Shift};
use std::alloc::Global;

/// Where the duties of a shift stand.
#[derive(Clone, Copy)]
pub struct DutyPlace {
    /// The first slot, from the start of the day.
    pub start: u16,
    /// The length in slots.
    pub len: u16,
    /// The slots of resettling behind a break.
    pub resettle: u16,
    /// The break time of a duty.
    pub total: f64,
    /// The number of its graph.
    graph: usize,
    /// How much work its breaks may cost.
    pub losses: LostWork,
}

/// Where breaks of a shift may lie, and how many slots of work they take with their resettling.
#[derive(Clone, Copy)]
pub struct LostWork {
    /// The first offset that may be lost.
    pub from: usize,
    /// The first offset behind all that may be lost.
    pub to: usize,
    /// The fewest slots lost.
    pub least: f64,
    /// The most slots lost.
    pub most: f64,
}

/// What a search reads of an instance.
#[derive(Drop)]
pub struct ShiftTables {
    /// The slots of the planning period.
    pub slots: usize,
    /// The slots of a day.
    pub day_slots: usize,
    /// The days of the planning period.
    pub days: usize,
    /// The most duties of a shift on a day.
    pub heads: usize,
    /// What an employee above its band costs in a slot.
    pub excess: f64,
    /// What an employee below its band costs in a slot.
    pub shortage: f64,
    /// What a shift costs that is used.
    pub weight: f64,
    /// The least wanted employees of each slot.
    pub need: Vec<i32>,
    /// The most wanted employees of each slot.
    pub need_max: Vec<i32>,
    /// Whether some slot has more than one wanted number.
    pub banded: bool,
    /// The shifts, by number.
    pub shifts: Vec<DutyPlace>,
    /// The shifts that have a legal list, and whose graph the instance keeps.
    pub usable: Vec<u16>,
    /// The first slot of each shift on each day, shift by shift.
    bases: Vec<usize>,
    graphs: Vec<ListGraph>,
    whole: bool,
}

/// The total break time of a length.
fn total(rule: &Rule, len: u16) -> u16 {
    let mut total = 0;
    for (from, sum) in rule.totals.as_slice() {
        if *from <= len {
            total = *sum;
        }
    }
    total
}

/// The rest of a number by another, and 0 by 0.
fn rest(a: usize, b: usize) -> usize {
    a.checked_rem(b).unwrap_or(0)
}

/// How much work the breaks of a length may cost.
fn losses(rule: &Rule, len: u16) -> LostWork {
    let from = rule.lead.min(len);
    let behind = len.saturating_sub(rule.tail).saturating_add(rule.resettle);
    let to = behind.min(len).max(from);
    let total = total(rule, len);
    let pause = f64::from(rule.resettle);
    let fewest = (f64::from(total) / f64::from(rule.size_max.max(1))).ceil();
    let most = (f64::from(total) / f64::from(rule.size_min.max(1))).floor();
    let lost_at_end = rule.work_min.min(rule.tail) < rule.resettle;
    let least = if lost_at_end { 0.0 } else { pause * fewest };
    LostWork {
        from: usize::from(from),
        to: usize::from(to),
        least: f64::from(total) + least,
        most: f64::from(total) + pause * most,
    }
}

/// The least wanted employees of all slots.
fn needs(alloc: Global, instance: &Instance) -> Result<Vec<i32>, NoMemory> {
    let mut need = Vec::new(alloc);
    for t in 0..instance.slots() {
        need.push(instance.need(t) as i32)?;
    }
    Ok(need)
}

/// The most wanted employees of all slots.
fn greatest_needs(alloc: Global, instance: &Instance) -> Result<Vec<i32>, NoMemory> {
    let mut most = Vec::new(alloc);
    for t in 0..instance.slots() {
        most.push(instance.need_max(t) as i32)?;
    }
    Ok(most)
}

impl ShiftTables {
    /// The tables of an instance.
    pub fn new(alloc: Global, instance: &Instance) -> Result<ShiftTables, NoMemory> {
        let (excess, shortage, weight) = instance.weights();
        let slots = instance.slots();
        let days = usize::from(instance.days());
        let need = needs(alloc, instance)?;
        let need_max = greatest_needs(alloc, instance)?;
        let banded = need.as_slice() != need_max.as_slice();
        let mut tables = ShiftTables {
            slots,
            day_slots: slots.checked_div(days).unwrap_or(0),
            days,
            heads: usize::from(instance.heads()),
            excess: f64::from(excess),
            shortage: f64::from(shortage),
            weight: f64::from(weight),
            need,
            need_max,
            banded,
            shifts: Vec::new(alloc),
            usable: Vec::new(alloc),
            bases: Vec::new(alloc),
            graphs: Vec::new(alloc),
            whole: true,
        };
        for shift in 0..instance.shifts().len() as u16 {
            tables.add(alloc, instance, shift)?;
        }
        Ok(tables)
    }

    /// Adds the next shift.
    fn add(&mut self, alloc: Global, instance: &Instance, shift: u16) -> Result<(), NoMemory>
        requires { shift < length (shift_list instance.now) }
    {
        let whole = instance.shift(shift);
        let graph = self.graph_number(alloc, instance, shift)?;
        let rule = instance.rule_of(shift);
        self.shifts.push(DutyPlace {
            start: whole.start,
            len: whole.len,
            resettle: rule.resettle,
            total: f64::from(total(rule, whole.len)),
            graph,
            losses: losses(rule, whole.len),
        })?;
        self.add_bases(&whole)?;
        if let Some(graph) = self.graphs.get(graph) {
            if !graph.is_empty() {
                self.usable.push(shift)?;
            }
        }
        Ok(())
    }

    /// Adds the first slots of a shift.
    fn add_bases(&mut self, shift: &Shift) -> Result<(), NoMemory> {
        for day in 0..self.days {
            let first = day
                .wrapping_mul(self.day_slots)
                .wrapping_add(usize::from(shift.start));
            self.bases.push(rest(first, self.slots))?;
        }
        Ok(())
    }

    /// The number of the graph of a shift: that of an earlier shift of its type and length, or a new one. Where the instance
    /// doesn't keep it, the number is that of no graph.
    fn graph_number(
        &mut self,
        alloc: Global,
        instance: &Instance,
        shift: u16,
    ) -> Result<usize, NoMemory>
        requires { shift < length (shift_list instance.now) }
    {
        let whole = instance.shift(shift);
        for (k, other) in instance.shifts().iter().enumerate() {
            if k >= usize::from(shift) {
                break;
            }
            if other.kind == whole.kind && other.len == whole.len {
                return Ok(self.graph_at(k));
            }
        }
        let Some(graph) = instance.graph(shift) else {
            self.whole = false;
            return Ok(usize::MAX);
        };
        let resettle = instance.rule_of(shift).resettle;
        self.graphs.push(ListGraph::new(alloc, graph, resettle)?)?;
        Ok(self.graphs.len().wrapping_sub(1))
    }

    /// Whether these are the tables of an instance, as far as its bands, its weights, and the starts and lengths of its shifts
    /// tell.
    pub fn is_of(&self, instance: &Instance) -> bool {
        let (excess, shortage, weight) = instance.weights();
        let weights = [f64::from(excess), f64::from(shortage), f64::from(weight)];
        let days = usize::from(instance.days());
        self.days == days
            && self.slots == instance.slots()
            && self.heads == usize::from(instance.heads())
            && [self.excess, self.shortage, self.weight] == weights
            && self.has_bands(instance)
            && self.has_shifts(instance)
    }

    /// Whether the bands of all slots are those of an instance with as many slots.
    fn has_bands(&self, instance: &Instance) -> bool {
        if self.need.len() != self.need_max.len() {
            return false;
        }
        for (t, need) in self.need.iter().enumerate() {
            if instance.slots() <= t
                || *need != instance.need(t) as i32
                || self.need_max[t] != instance.need_max(t) as i32
            {
                return false;
            }
        }
        true
    }

    /// Whether the shifts are those of an instance.
    fn has_shifts(&self, instance: &Instance) -> bool {
        if self.shifts.len() != instance.shifts().len() {
            return false;
        }
        for (place, shift) in self.shifts.iter().zip(instance.shifts()) {
            if place.start != shift.start || place.len != shift.len {
                return false;
            }
        }
        true
    }

    /// Whether the graph of every shift is kept.
    pub fn is_whole(&self) -> bool {
        self.whole
    }

    /// The graphs, by number.
    pub fn graphs(&self) -> &[ListGraph] {
        self.graphs.as_slice()
    }

    /// The number of the graph of the shift at a place.
    fn graph_at(&self, shift: usize) -> usize {
        match self.shifts.get(shift) {
            Some(place) => place.graph,
            None => usize::MAX,
        }
    }

    /// The number of the graph of a shift.
    pub fn graph_of(&self, shift: u16) -> usize {
        self.graph_at(usize::from(shift))
    }

    /// The graph of a shift, where it has one.
    pub fn graph(&self, shift: u16) -> Option<&ListGraph> {
        self.graphs.get(self.graph_of(shift))
    }

    /// The place of a shift and a day in tables that have one entry for each; for a day that isn't there the place of none.
    pub fn place(&self, shift: u16, day: usize) -> usize {
        if self.days <= day {
            return usize::MAX;
        }
        usize::from(shift).wrapping_mul(self.days).wrapping_add(day)
    }

    /// The first slot of a shift on a day.
    pub fn base(&self, shift: u16, day: usize) -> usize {
        self.bases.get(self.place(shift, day)).copied().unwrap_or(0)
    }

    /// The slots of a shift from its first on.
    pub fn len_of(&self, shift: u16) -> usize {
        match self.shifts.get(usize::from(shift)) {
            Some(place) => usize::from(place.len),
            None => 0,
        }
    }

    /// The greatest number of nodes that a graph has.
    pub fn most_nodes(&self) -> usize {
        let mut most = 0;
        for graph in self.graphs.as_slice() {
            most = graph.node_count().max(most);
        }
        most
    }

    /// The number of shifts.
    pub fn shift_count(&self) -> usize {
        self.shifts.len()
    }

    /// The offset of a slot in the window of a shift on a day, which may lie behind it.
    pub fn offset(&self, shift: u16, day: usize, slot: usize) -> usize {
        let base = self.base(shift, day);
        if slot < base {
            slot.wrapping_add(self.slots).wrapping_sub(base)
        } else {
            slot.wrapping_sub(base)
        }
    }
}
