//! The running cover of a rota that grows and shrinks.
ghost use Rattle.std.specs.Prelude.{◌≡◌, ℕ, ◌+◌, ◌*◌, ◌^◌, ◌<◌, ◌≤◌, ◌++◌, ◌∷◌, [], length, replicate, slice_index, slice_set, IfOk, if◌then◌else◌};
ghost use Rattle.shift_instance.specs.Problem.{shift_list, slots};
ghost use Rattle.shift_instance.specs.Rota.{cost, count_of, cover, works};
ghost use Rattle.shift_instance.specs.Valid.{IsValid};
ghost use Rattle.rota_cost.specs.Cover.{without};
ghost use Rattle.rota_cost.specs.Counted.{changed, shift_cost, slots_cost};

use crate::covered::Covered;
use crate::recounting::{slot_cost, slots_cost};
use break_rules::NoMemory;
use patterns::works;
use shift_instance::{Duty, Instance};
use std::alloc::Global;
use std::marker::Model;

/// How a number of duties changes.
#[derive(Clone, Copy, Drop)]
enum Change {
    /// There is one more.
    More,
    /// There is one less.
    Less,
}

/// A number of duties after its change.
fn changed(count: u32, change: Change) -> u32
    requires { count ≤ 2 ^ 31 + 1 }
    ensures { result ≡ changed change count }
{
    match change {
        Change::More => count + 1,
        Change::Less => count.saturating_sub(1),
    }
}

/// Changes the number of duties that work in a slot, and gives the cost of excess and shortage after that.
fn change_slot(instance: &Instance, working: &mut [u32], t: usize, change: Change, cost: u64) -> u64
    requires valid { IsValid instance.now }
    requires t { t < slots instance.now }
    requires slots { length working.old ≡ slots instance.now }
    requires few { (s : ℕ) → s < slots instance.now → slice_index working.old s ≤ 2 ^ 31 + 1 }
    requires cost { cost ≡ slots_cost instance.now working.old }
    ensures working { working.new ≡ slice_set working.old t (changed change (slice_index working.old t)) }
    ensures cost { result ≡ slots_cost instance.now working.new }
{
    let before = working[t];
    let after = changed(before, change);
    working[t] = after;
    cost - slot_cost(instance, t, before) + slot_cost(instance, t, after)
}

/// Changes the number of duties in each slot where a duty works, and gives the cost of excess and shortage after that.
fn change_slots(
    instance: &Instance,
    duty: &Duty,
    working: &mut [u32],
    change: Change,
    cost: u64,
) -> u64
    requires shift { duty.now.shift < length (shift_list instance.now) }
    requires slots { length working.old ≡ slots instance.now }
    requires few { (t : ℕ) → t < slots instance.now → slice_index working.old t ≤ 2 ^ 31 }
    requires cost { cost ≡ slots_cost instance.now working.old }
    ensures working { (t : ℕ) → t < slots instance.now → slice_index working.new t ≡ (if works instance.now duty.now t then changed change (slice_index working.old t) else slice_index working.old t) }
    ensures cost { result ≡ slots_cost instance.now working.new }
{
    let len = instance.shift(duty.shift).len;
    let rule = instance.rule_of(duty.shift);
    let mut changing = cost;
    for offset in 0..len {
        if works(rule, len, duty.breaks.as_slice(), offset) {
            let slot = instance.slot_of(duty.shift, duty.day, offset);
            changing = change_slot(instance, working, slot, change, changing);
        }
    }
    changing
}

/// What a shift costs that has that many duties.
fn shift_cost(instance: &Instance, duties: u32) -> u64
    ensures cost { result ≡ shift_cost instance.now duties }
    ensures few { result ≤ 10 ^ 6 }
{
    let (_, _, weight) = instance.weights();
    if duties == 0 { 0 } else { u64::from(weight) }
}

/// Changes the number of duties of a shift, and gives the cost of the shifts used after that.
fn change_shift(
    instance: &Instance,
    shifts: &mut [u32],
    shift: u16,
    change: Change,
    cost: u64,
) -> u64
    requires shift { shift < length shifts.old }
    requires few { slice_index shifts.old shift ≤ 2 ^ 31 }
    requires part { shift_cost instance.now (slice_index shifts.old shift) ≤ cost }
    requires small { cost ≤ 1024 * 10 ^ 6 }
    ensures shifts { shifts.new ≡ slice_set shifts.old shift (changed change (slice_index shifts.old shift)) }
    ensures cost { result + shift_cost instance.now (slice_index shifts.old shift) ≡ cost + shift_cost instance.now (changed change (slice_index shifts.old shift)) }
{
    let before = shifts[usize::from(shift)];
    let after = changed(before, change);
    shifts[usize::from(shift)] = after;
    cost - shift_cost(instance, before) + shift_cost(instance, after)
}

/// The running cover of an instance's duties: how many of them work in each slot, how many there are of each shift, and
/// what they cost.
///
/// Contracts see the instance, and the duties that are in the cover in the order in which they were added. Their breaks
/// needn't be legal.
#[derive(Drop)]
pub struct Cover {
    working: Vec<u32>,
    shifts: Vec<u32>,
    slot_part: u64,
    shift_part: u64,
    covered: Covered,
}

impl Model for Cover {
    ghost use Rattle.rota_cost.specs.Cover.{Covering};

    ghost Value = { Covering };

    ghost view = { λ c. record { instance = c.covered.instance; duties = c.covered.duties } };

    ghost use Rattle.rota_cost.specs.Counted.{IsCounted};

    ghost invariant = { λ c. IsCounted c.covered.instance c.covered.duties c.working.items c.shifts.items c.slot_part c.shift_part };
}

impl Cover {
    /// The cover of an instance with no duty in it. It takes all the memory that the cover ever needs.
    pub fn new(alloc: Global, instance: &Instance) -> Result<Cover, NoMemory>
        ensures { IfOk result (λ c. c ≡ record { instance = instance.now; duties = [] }) }
    {
        let working = vec![in alloc; 0; instance.slots()]?;
        let shifts = vec![in alloc; 0; instance.shifts().len()]?;
        let slot_part = slots_cost(instance, &working);
        Ok(Cover {
            working,
            shifts,
            slot_part,
            shift_part: 0,
            covered: Covered::none(instance),
        })
    }

    /// Adds a duty. It takes no memory.
    pub fn add(&mut self, instance: &Instance, duty: &Duty)
        requires instance { self.old.instance ≡ instance.now }
        requires shift { duty.now.shift < length (shift_list instance.now) }
        requires day { duty.now.day < instance.now.days }
        requires room { length self.old.duties < 2 ^ 31 }
        ensures instance { self.new.instance ≡ self.old.instance }
        ensures duties { self.new.duties ≡ self.old.duties ++ duty.now ∷ [] }
    {
        self.shift_part = change_shift(
            instance,
            &mut self.shifts,
            duty.shift,
            Change::More,
            self.shift_part,
        );
        self.slot_part = change_slots(
            instance,
            duty,
            &mut self.working,
            Change::More,
            self.slot_part,
        );
        self.covered = Covered::with(&self.covered, duty);
    }

    /// Adds a duty that often. It takes no memory.
    pub fn add_often(&mut self, instance: &Instance, duty: &Duty, often: u16)
        requires instance { self.old.instance ≡ instance.now }
        requires shift { duty.now.shift < length (shift_list instance.now) }
        requires day { duty.now.day < instance.now.days }
        requires room { length self.old.duties + often ≤ 2 ^ 31 }
        ensures instance { self.new.instance ≡ self.old.instance }
        ensures duties { self.new.duties ≡ self.old.duties ++ replicate often duty.now }
    {
        for _ in 0..often {
            self.add(instance, duty);
        }
    }

    /// Takes a duty away that is in the cover: the first of those that are the same. It takes no memory.
    pub fn remove(&mut self, instance: &Instance, duty: &Duty)
        requires instance { self.old.instance ≡ instance.now }
        requires shift { duty.now.shift < length (shift_list instance.now) }
        requires day { duty.now.day < instance.now.days }
        requires there { 0 < count_of self.old.duties duty.now }
        ensures instance { self.new.instance ≡ self.old.instance }
        ensures duties { self.new.duties ≡ without duty.now self.old.duties }
    {
        self.shift_part = change_shift(
            instance,
            &mut self.shifts,
            duty.shift,
            Change::Less,
            self.shift_part,
        );
        self.slot_part = change_slots(
            instance,
            duty,
            &mut self.working,
            Change::Less,
            self.slot_part,
        );
        self.covered = Covered::without(&self.covered, duty);
    }

    /// How many duties of the cover work in a slot. It takes no memory.
    pub fn working(&self, t: usize) -> u32
        requires { t < slots self.now.instance }
        ensures { result ≡ cover self.now.instance self.now.duties t }
    {
        self.working[t]
    }

    /// What the rota of the duties costs that are in the cover. It takes no memory.
    pub fn cost(&self) -> u64
        ensures { result ≡ cost self.now.instance self.now.duties }
    {
        self.slot_part + self.shift_part
    }
}
