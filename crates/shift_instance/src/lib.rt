//! Instances of the shift design problem, duties, and the rows of a rota.
#![tactic(auto)]

mod graphs;
mod judging;
mod listing;
mod rows;

ghost use Rattle.std.specs.Prelude.{◌≡◌, ◌<◌, ◌≤◌, length, map, slice_get, IsSomeAnd, IfOk, IfSome, MatchOption, MatchResult, None};
ghost use Rattle.std.specs.Arc.{arc_value};
ghost use Rattle.break_rules.specs.Breaks.{is_live};
ghost use Rattle.break_rules.specs.Causes.{first_cause};
ghost use Rattle.break_rules.specs.RuleFaults.{rule_causes};
ghost use Rattle.break_rules.specs.Ranges.{IsRule};
ghost use Rattle.break_graph.specs.Graph.{IsGraph};
ghost use Rattle.shift_instance.specs.Problem.{need_at, need_max_at, shift_list, slot_of, slots, day_slots};
ghost use Rattle.shift_instance.specs.AllDuties.{row_of};
ghost use Rattle.shift_instance.specs.Faults.{instance_causes, Answers};
ghost use Rattle.shift_instance.specs.Valid.{IsValid, IsShift};

use break_graph::Graph;
use break_rules::{Break, Breaks, NoMemory, Rule, RuleFault, live};
use graphs::TypeGraphs;
pub use rows::Rows;
use std::alloc::Global;
use std::error::Error;
use std::fmt;
use std::marker::Model;
use std::sync::Arc;

/// The number that stands for the cost of a rota where there is none to be had. It is meant to lie above every legal rota's cost.
pub const TOP: u64 = 1_000_000_000_000_000;

/// A shift of the shift list: the number of its type, its first slot, counted from the start of the day that a duty
/// is on, and its length in slots.
#[derive(Clone, Copy, PartialEq, Eq, Drop)]
pub struct Shift {
    /// The number of its type, from 0 on.
    pub kind: u16,
    /// Its first slot, counted from the start of the day that a duty is on.
    pub start: u16,
    /// Its length in slots.
    pub len: u16,
}

/// One duty of a rota: one employee works a shift, given by its number, on a day, from 0 on, with these breaks.
#[derive(Drop)]
pub struct Duty {
    /// The number of its shift, its place in the shift list.
    pub shift: u16,
    /// Its day, from 0 on.
    pub day: u8,
    /// Its breaks.
    pub breaks: Breaks,
}

/// Duties that are alike, with their number.
#[derive(Clone, Drop)]
pub struct Row {
    /// The number of their shift, its place in the shift list.
    pub shift: u16,
    /// Their day, from 0 on.
    pub day: u8,
    /// The breaks of each of them.
    pub breaks: Breaks,
    /// How many duties there are.
    pub count: u16,
}

/// A shift type, before it is judged: its name, its windows for start and length in slots, and its break rule.
#[derive(Drop)]
pub struct TypeParts {
    /// Its name.
    pub name: String,
    /// The earliest slot at which its shifts start, counted from the start of a day.
    pub start_min: u16,
    /// The latest slot at which they start.
    pub start_max: u16,
    /// Their least length in slots.
    pub len_min: u16,
    /// Their greatest length in slots.
    pub len_max: u16,
    /// Their break rule.
    pub rule: Rule,
}

impl Model for TypeParts {
    ghost use Rattle.shift_instance.specs.Kind.{Kind};

    ghost Value = { Kind };

    ghost use Rattle.std.specs.Prelude.{string_bytes};

    ghost view = { λ k. record {
      name = string_bytes k.name;
      start_min = k.start_min;
      start_max = k.start_max;
      len_min = k.len_min;
      len_max = k.len_max;
      rule = k.rule;
    } };
}

/// The numbers of an instance, before they are judged.
#[derive(Drop)]
pub struct Parts {
    /// The minutes of a slot.
    pub slot_minutes: u16,
    /// The days of the planning period.
    pub days: u16,
    /// The least wanted employees of each slot of the planning period.
    pub need: Vec<u32>,
    /// The most wanted employees of each slot, from which on more of them are too many. Where a slot has one wanted number, this is
    /// its need once more.
    pub need_max: Vec<u32>,
    /// The most duties of one shift on one day.
    pub max_heads: u16,
    /// The cost of an employee above the band in a slot.
    pub excess: u32,
    /// The cost of an employee that a slot lacks to its need.
    pub shortage: u32,
    /// The cost of a shift that is used.
    pub shift: u32,
    /// The shift types.
    pub types: Vec<TypeParts>,
}

impl Model for Parts {
    ghost use Rattle.shift_instance.specs.Problem.{Problem};

    ghost Value = { Problem };

    ghost view = { λ i. record {
      slot_minutes = i.slot_minutes;
      days = i.days;
      need = i.need.items;
      need_max = i.need_max.items;
      heads = i.max_heads;
      excess = i.excess;
      shortage = i.shortage;
      shift = i.shift;
      kinds = i.types.items;
    } };
}

/// Why numbers don't make an instance. A `kind` is the number of a type, from 0 on.
#[derive(Clone, Copy, Debug, PartialEq, Eq, Drop)]
pub enum InstanceFault {
    /// The minutes of a slot aren't 5, 10, 15, 20, 30 or 60.
    SlotMinutes,
    /// There isn't 1 day to 7 days.
    Days,
    /// There are `found` needs, and the planning period has `wanted` slots.
    NeedLength { found: u64, wanted: u64 },
    /// The need of a slot is above 10,000.
    NeedTooLarge { slot: u64 },
    /// A weight is above 1,000,000.
    Weight,
    /// The most duties of one shift on one day aren't 1 to 200.
    Heads,
    /// There is no type, or more than 16.
    Types { found: u64 },
    /// The starts of a type aren't a range within two days.
    StartRange { kind: u16 },
    /// The lengths of a type aren't a range from 1 slot to a day.
    LengthRange { kind: u16 },
    /// The break rule of a type isn't well formed.
    Rule { kind: u16, why: RuleFault },
    /// The types have more than 1,024 shifts.
    TooManyShifts { found: u64 },
    /// The name of a type isn't 1 to 32 bytes of visible ASCII without space, or a type before has it.
    Name { kind: u16 },
    /// There are `found` greatest numbers of wanted employees, and the planning period has `wanted` slots.
    BandLength { found: u64, wanted: u64 },
    /// The most wanted employees of a slot are fewer than its need, or more than 10,000.
    Band { slot: u64 },
    /// No memory was left.
    NoMemory,
}

impl fmt::Display for InstanceFault {
    ghost use Rattle.std.specs.Prelude.{Some};
    ghost use Rattle.shift_instance.specs.FaultText.{instance_fault_text};

    ghost output = { λ e. Some (instance_fault_text e) };

    /// Writes the fault's number and its fields, separated by single spaces.
    fn fmt<W: fmt::Write>(&self, f: &mut fmt::Formatter<W>) -> fmt::Result {
        match self {
            InstanceFault::SlotMinutes => f.write_str("1"),
            InstanceFault::Days => f.write_str("2"),
            InstanceFault::NeedLength { found, wanted } => write!(f, "3 {found} {wanted}"),
            InstanceFault::NeedTooLarge { slot } => write!(f, "4 {slot}"),
            InstanceFault::Weight => f.write_str("5"),
            InstanceFault::Heads => f.write_str("6"),
            InstanceFault::Types { found } => write!(f, "7 {found}"),
            InstanceFault::StartRange { kind } => write!(f, "8 {kind}"),
            InstanceFault::LengthRange { kind } => write!(f, "9 {kind}"),
            InstanceFault::Rule { kind, why } => write!(f, "10 {kind} {why}"),
            InstanceFault::TooManyShifts { found } => write!(f, "11 {found}"),
            InstanceFault::Name { kind } => write!(f, "12 {kind}"),
            InstanceFault::BandLength { found, wanted } => write!(f, "13 {found} {wanted}"),
            InstanceFault::Band { slot } => write!(f, "14 {slot}"),
            InstanceFault::NoMemory => f.write_str("no memory"),
        }
    }
}

impl Error for InstanceFault {}

/// An instance of the shift design problem: numbers within all limits, with their shift list.
#[derive(Drop)]
pub struct Instance {
    parts: Parts,
    shifts: Vec<Shift>,
    graphs: Vec<TypeGraphs>,
}

impl Model for Instance {
    ghost use Rattle.shift_instance.specs.Problem.{Problem};

    ghost Value = { Problem };

    ghost view = { λ i. i.parts };

    ghost use Rattle.shift_instance.specs.Valid.{IsInside};

    ghost invariant = { λ i. IsInside i.parts i.shifts.items i.graphs.items };
}

impl Row {
    /// The row of one duty. It takes no memory.
    pub fn of_one(duty: Duty) -> Row
        ensures row { result ≡ row_of duty 1 }
    {
        let Duty { shift, day, breaks } = duty;
        Row {
            shift,
            day,
            breaks,
            count: 1,
        }
    }
}

impl Instance {
    /// The instance of these numbers, or their first fault: first those of the slots' length, the days, the needs, the bands, the
    /// weights, the most duties of a shift on a day and the number of types, then of each type in order its name, its starts,
    /// its lengths and its rule, and at last the number of shifts. Where no fault applies, the only refusal left is running out of memory.
    pub fn new(alloc: Global, parts: Parts) -> Result<Instance, InstanceFault>
        ensures ok { IfOk result (λ i. i ≡ parts) }
        ensures fault { MatchResult result (λ _. first_cause (instance_causes parts) ≡ None) (λ e. Answers e (first_cause (instance_causes parts))) }
    {
        match judging::judge(&parts) {
            Some(fault) => Err(fault),
            None => match Instance::completed(alloc, parts) {
                Ok(instance) => Ok(instance),
                Err(_) => Err(InstanceFault::NoMemory),
            },
        }
    }

    /// The instance of faultless numbers.
    fn completed(alloc: Global, parts: Parts) -> Result<Instance, NoMemory>
        requires { None ≡ first_cause (instance_causes parts) }
        ensures { IfOk result (λ i. i ≡ parts) }
    {
        let shifts = listing::list_shifts(alloc, parts.types.as_slice())?;
        let graphs = graphs::type_graphs(alloc, parts.types.as_slice())?;
        Ok(Instance {
            parts,
            shifts,
            graphs,
        })
    }

    /// The numbers of the instance.
    pub fn parts(&self) -> &Parts
        ensures parts { result.now ≡ self.now }
        ensures faultless { first_cause (instance_causes self.now) ≡ None }
        ensures valid { IsValid self.now }
    {
        &self.parts
    }

    /// The shift list: every shift, by type, then by start, then by length. A shift's number is its place.
    pub fn shifts(&self) -> &[Shift]
        ensures shifts { result.now ≡ map (λ p. p.0) (shift_list self.now) }
        ensures count { length result.now ≡ length (shift_list self.now) }
        ensures valid { IsValid self.now }
    {
        self.shifts.as_slice()
    }

    /// The shift of a number.
    pub fn shift(&self, shift: u16) -> Shift
        requires { shift < length (shift_list self.now) }
        ensures shift { IsSomeAnd (slice_get (shift_list self.now) shift) (λ x. result ≡ x.0) }
        ensures within { IsShift self.now result }
        ensures valid { IsValid self.now }
    {
        self.shifts[usize::from(shift)]
    }

    /// The break rule of a shift, which is that of its type.
    pub fn rule_of(&self, shift: u16) -> &Rule
        requires { shift < length (shift_list self.now) }
        ensures rule { IsSomeAnd (slice_get (shift_list self.now) shift) (λ x. result.now ≡ x.1) }
        ensures passes { first_cause (rule_causes result.now) ≡ None }
        ensures within { IsRule result.now }
        ensures valid { IsValid self.now }
    {
        let shift = self.shift(shift);
        let parts = &self.parts;
        let kind = &parts.types[usize::from(shift.kind)];
        &kind.rule
    }

    /// The graph of a shift as it is kept, if it is.
    fn kept_graph(&self, shift: u16) -> Option<&Arc<Graph>>
        requires { shift < length (shift_list self.now) }
        ensures { IfSome result (λ g. IsSomeAnd (slice_get (shift_list self.now) shift) (λ x. IsGraph x.1 x.0.len (arc_value g.now))) }
    {
        let shift = self.shift(shift);
        let parts = &self.parts;
        let number = usize::from(shift.kind);
        let kind = &parts.types[number];
        let above = shift.len.checked_sub(kind.len_min)?;
        self.graphs.get(number)?.at(above)
    }

    /// The graph of the break lists of a shift, by the rule of its type and its length, and `None` where the instance
    /// doesn't keep it. It keeps the graphs of all shifts unless they have together more than some 16 million edges, as for
    /// much break time in slots of five minutes: then those of the longest shifts of a type are left out. Shifts of one
    /// length share their graph where their types have the same rule.
    pub fn graph(&self, shift: u16) -> Option<&Graph>
        requires { shift < length (shift_list self.now) }
        ensures graph { MatchOption result Unit (λ g. IsSomeAnd (slice_get (shift_list self.now) shift) (λ x. IsGraph x.1 x.0.len g.now)) }
    {
        let kept = self.kept_graph(shift)?;
        Some(kept)
    }

    /// The same graph, shared: it stays as long as someone has it.
    pub fn shared_graph(&self, shift: u16) -> Result<Option<Arc<Graph>>, NoMemory>
        requires { shift < length (shift_list self.now) }
        ensures graph { IfOk result (λ found. IfSome found (λ g. IsSomeAnd (slice_get (shift_list self.now) shift) (λ x. IsGraph x.1 x.0.len (arc_value g)))) }
    {
        match self.kept_graph(shift) {
            Some(kept) => Ok(Some(Arc::try_clone(kept)?)),
            None => Ok(None),
        }
    }

    /// Whether some legal break list of a shift begins with some breaks. Where the instance keeps the shift's graph it is
    /// walked along the breaks, which takes no memory.
    pub fn is_live(&self, alloc: Global, shift: u16, front: &[Break]) -> Result<bool, NoMemory>
        requires { shift < length (shift_list self.now) }
        ensures live { IfOk result (λ answer. IsSomeAnd (slice_get (shift_list self.now) shift) (λ x. answer ≡ is_live x.1 x.0.len front.now)) }
    {
        match self.graph(shift) {
            Some(graph) => Ok(graph.node_behind(front).is_some()),
            None => {
                let len = self.shift(shift).len;
                live(alloc, self.rule_of(shift), len, front)
            }
        }
    }

    /// The least wanted employees of a slot.
    pub fn need(&self, t: usize) -> u32
        requires { t < slots self.now }
        ensures need { result ≡ need_at self.now t }
        ensures limit { result ≤ 10000 }
        ensures valid { IsValid self.now }
    {
        let parts = &self.parts;
        parts.need[t]
    }

    /// The most wanted employees of a slot, which are no fewer than its need.
    pub fn need_max(&self, t: usize) -> u32
        requires { t < slots self.now }
        ensures need_max { result ≡ need_max_at self.now t }
        ensures band { need_at self.now t ≤ result }
        ensures limit { result ≤ 10000 }
        ensures valid { IsValid self.now }
    {
        let parts = &self.parts;
        parts.need_max[t]
    }

    /// The costs of an employee above the band and of an employee below it in a slot, and of a shift that is used.
    pub fn weights(&self) -> (u32, u32, u32)
        ensures weights { result ≡ (self.now.excess, self.now.shortage, self.now.shift) }
        ensures valid { IsValid self.now }
    {
        let parts = &self.parts;
        (parts.excess, parts.shortage, parts.shift)
    }

    /// The most duties of one shift on one day.
    pub fn heads(&self) -> u16
        ensures heads { result ≡ self.now.heads }
        ensures valid { IsValid self.now }
    {
        let parts = &self.parts;
        parts.max_heads
    }

    /// The days of the planning period.
    pub fn days(&self) -> u8
        ensures days { result ≡ self.now.days }
        ensures valid { IsValid self.now }
    {
        let parts = &self.parts;
        parts.days as u8
    }

    /// The slots of the planning period.
    pub fn slots(&self) -> usize
        ensures slots { result ≡ slots self.now }
        ensures valid { IsValid self.now }
    {
        let parts = &self.parts;
        parts.need.len()
    }

    /// The slots of a day.
    fn day_slots(&self) -> u32
        ensures day_slots { result ≡ day_slots self.now }
        ensures few { result ≤ 288 }
    {
        let parts = &self.parts;
        1440 / u32::from(parts.slot_minutes)
    }

    /// The slot of the planning period at an offset of a shift on a day, both counted from 0.
    pub fn slot_of(&self, shift: u16, day: u8, offset: u16) -> usize
        requires { shift < length (shift_list self.now) }
        ensures slot { IsSomeAnd (slice_get (shift_list self.now) shift) (λ x. result ≡ slot_of self.now x.0 day offset) }
        ensures below { result < slots self.now }
        ensures valid { IsValid self.now }
    {
        let shift = self.shift(shift);
        let at = u32::from(day) * self.day_slots() + u32::from(shift.start) + u32::from(offset);
        (at as usize) % self.slots()
    }
}
