//! Instances that are made from a number, in place of a document.
ghost use Rattle.std.specs.Prelude.{◌≡◌, ◌≤◌, ◌+◌, ◌%◌, codes, All, length, IfOk, if◌then◌else◌};
ghost use Rattle.break_rules.specs.Breaks.{legal_lists};
ghost use Rattle.shift_instance.specs.Problem.{shift_list};
ghost use Rattle.shift_instance.specs.Valid.{IsValid};
ghost use Rattle.instance_json.specs.Generated.{next_state, drawn, is_busy, needs_of, hour_rule, kind_from, generated_kinds, generated};

use break_rules::{Lunches, NoMemory, Rule, Totals};
use shift_instance::{Instance, InstanceFault, Parts, TypeParts};
use std::alloc::{AllocError, Global};

/// A linear congruential generator, by its state.
#[derive(Drop)]
struct Draws {
    state: u32,
}

impl Draws {
    /// The next draw.
    fn next_draw(&mut self) -> u32
        ensures state { self.new.state ≡ next_state self.old.state }
        ensures draw { result ≡ drawn (next_state self.old.state) }
    {
        self.state = self
            .state
            .wrapping_mul(1_664_525)
            .wrapping_add(1_013_904_223);
        self.state / 65_536
    }

    /// The need of a slot: a busy one takes a draw, and no other does.
    fn need(&mut self, slot: u32) -> u32
        ensures state { self.new.state ≡ (if is_busy slot then next_state self.old.state else self.old.state) }
        ensures need { result ≡ (if is_busy slot then 2 + drawn (next_state self.old.state) % 3 else 1) }
    {
        let hour = slot % 24;
        if hour < 6 || 21 < hour {
            return 1;
        }
        2 + self.next_draw() % 3
    }
}

/// The needs of the first slots.
fn needs(alloc: Global, number: u32, count: u32) -> Result<Vec<u32>, NoMemory>
    ensures { IfOk result (λ v. v.items ≡ needs_of number count) }
{
    let mut draws = Draws { state: number };
    let mut needs = Vec::new(alloc);
    for slot in 0..count {
        needs.push(draws.need(slot))?;
    }
    Ok(needs)
}

/// The break rule of all types.
fn rule(alloc: Global) -> Result<Rule, NoMemory>
    ensures { IfOk result (λ r. r ≡ hour_rule) }
{
    Ok(Rule {
        lead: 2,
        tail: 2,
        work_min: 2,
        work_max: 5,
        long_work: 288,
        long_rest: 1,
        size_min: 1,
        size_max: 1,
        totals: Totals::new(vec![in alloc; (8, 1)]?),
        lunches: Lunches::new(Vec::new(alloc)),
        resettle: 0,
    })
}

/// A type of shifts of 8 hours that start at an hour or at the next one.
fn type_from(alloc: Global, name: &str, start: u16) -> Result<TypeParts, NoMemory>
    requires { start ≤ 21 }
    ensures { IfOk result (λ k. k ≡ kind_from name.now start) }
{
    Ok(TypeParts {
        name: String::from_str(alloc, name)?,
        start_min: start,
        start_max: start + 1,
        len_min: 8,
        len_max: 8,
        rule: rule(alloc)?,
    })
}

/// The types of the instance.
fn types(alloc: Global) -> Result<Vec<TypeParts>, NoMemory>
    ensures { IfOk result (λ t. t.items ≡ generated_kinds) }
{
    let mut types = Vec::new(alloc);
    types.push(type_from(alloc, "M", 6)?)?;
    types.push(type_from(alloc, "A", 13)?)?;
    types.push(type_from(alloc, "N", 21)?)?;
    Ok(types)
}

/// The numbers of the instance.
#[tactic(auto, unfolding(crate::specs::Generated::generated))]
fn parts(alloc: Global, number: u32) -> Result<Parts, NoMemory>
    ensures { IfOk result (λ p. p ≡ generated number) }
{
    let types = types(alloc)?;
    let need = needs(alloc, number, 168)?;
    let need_max = need.clone()?;
    Ok(Parts {
        slot_minutes: 60,
        days: 7,
        need,
        need_max,
        max_heads: 12,
        excess: 1,
        shortage: 2,
        shift: 20,
        types,
    })
}

/// The instance of a number, for a search without a document.
///
/// It is a week of hours, with at most 12 duties of one shift on one day, and with the weights 1 for excess, 2 for
/// shortage and 20 for a shift. It has 6 shifts of 8 hours, which start at 6 or 7 (type `M`), at 13 or 14 (`A`) and at
/// 21 or 22 (`N`), each with a break of one hour, at least 2 hours from both ends. The needs of the hours 6 to 21 are
/// drawn, from 2 to 4, by a linear congruential generator that starts with the number; the other hours need 1. No slot has
/// more than one wanted number. Want of memory is the one refusal.
pub fn generate(alloc: Global, number: u32) -> Result<Instance, NoMemory>
    ensures generated { IfOk result (λ i. i ≡ generated number) }
    ensures valid { IfOk result (λ i. IsValid i) }
    ensures shifts { IfOk result (λ i. length (shift_list i) ≡ 6) }
    ensures lists { IfOk result (λ i. All (λ x. length (legal_lists x.1 x.0.len) ≡ 4) (shift_list i)) }
{
    match Instance::new(alloc, parts(alloc, number)?) {
        Ok(instance) => Ok(instance),
        Err(InstanceFault::NoMemory) => Err(AllocError),
        Err(_) => unreachable!(),
    }
}
