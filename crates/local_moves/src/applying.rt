//! Moves that are applied to a draft.
ghost use Rattle.std.specs.Prelude.{◌≡◌, ◌∷◌, [], IfOk, IsTrue, MatchResult, None, OnErr, OnOk};
ghost use Rattle.break_rules.specs.Causes.{first_cause};
ghost use Rattle.shift_instance.specs.Rota.{are_legal_rows, rota_of};
ghost use Rattle.local_moves.specs.Changes.{IsDone};
ghost use Rattle.local_moves.specs.declared.moves.Move.TheVariants.{Add, Drop, Rebreak};
ghost use Rattle.local_moves.specs.Moves.{Answers, AreSameDuties, move_causes, moved};

use crate::changes::duty_with;
use crate::done::Done;
use crate::draft::Draft;
use crate::judging::{judge_add, judge_drop, judge_rebreak};
use crate::moves::{Move, MoveFault};
use break_rules::{Breaks, NoMemory};
use shift_instance::{Duty, Instance};
use std::alloc::Global;

/// A list of one duty.
fn one(alloc: Global, duty: Duty) -> Result<Vec<Duty>, NoMemory>
    ensures { IfOk result (λ list. list.items ≡ duty ∷ []) }
{
    let mut list = Vec::new(alloc);
    list.push(duty)?;
    Ok(list)
}

impl Draft {
    /// One duty more.
    fn add_one(&mut self, instance: &Instance, duty: Duty) -> Result<Done, MoveFault>
        requires instance { self.old.instance ≡ instance.now }
        ensures instance { self.new.instance ≡ self.old.instance }
        ensures legal { IsTrue (are_legal_rows self.new.instance self.new.rows) }
        ensures fault { MatchResult result (λ _. first_cause (move_causes instance.now (rota_of self.old.rows) (Add duty.shift duty.day duty.breaks)) ≡ None) (λ e. Answers e (first_cause (move_causes instance.now (rota_of self.old.rows) (Add duty.shift duty.day duty.breaks)))) }
        ensures moved { OnOk result (AreSameDuties (rota_of self.new.rows) (moved instance.now (Add duty.shift duty.day duty.breaks) (rota_of self.old.rows))) }
        ensures done { IfOk result (IsDone (rota_of self.old.rows) (rota_of self.new.rows)) }
        ensures unchanged { OnErr result (self.new ≡ self.old) }
    {
        let alloc = self.allocator();
        if let Some(fault) = judge_add(instance, self, &duty) {
            return Err(fault);
        }
        let gone = Vec::new(alloc);
        let made = one(alloc, duty)?;
        let done = self.swap(instance, gone, made)?;
        Ok(done)
    }

    /// One duty less.
    fn drop_one(&mut self, instance: &Instance, duty: Duty) -> Result<Done, MoveFault>
        requires instance { self.old.instance ≡ instance.now }
        ensures instance { self.new.instance ≡ self.old.instance }
        ensures legal { IsTrue (are_legal_rows self.new.instance self.new.rows) }
        ensures fault { MatchResult result (λ _. first_cause (move_causes instance.now (rota_of self.old.rows) (Drop duty.shift duty.day duty.breaks)) ≡ None) (λ e. Answers e (first_cause (move_causes instance.now (rota_of self.old.rows) (Drop duty.shift duty.day duty.breaks)))) }
        ensures moved { OnOk result (AreSameDuties (rota_of self.new.rows) (moved instance.now (Drop duty.shift duty.day duty.breaks) (rota_of self.old.rows))) }
        ensures done { IfOk result (IsDone (rota_of self.old.rows) (rota_of self.new.rows)) }
        ensures unchanged { OnErr result (self.new ≡ self.old) }
    {
        let alloc = self.allocator();
        if let Some(fault) = judge_drop(instance, self, &duty) {
            return Err(fault);
        }
        let gone = one(alloc, duty)?;
        let made = Vec::new(alloc);
        let done = self.swap(instance, gone, made)?;
        Ok(done)
    }

    /// Other breaks for a duty.
    fn rebreak(&mut self, instance: &Instance, duty: Duty, to: &Breaks) -> Result<Done, MoveFault>
        requires instance { self.old.instance ≡ instance.now }
        ensures instance { self.new.instance ≡ self.old.instance }
        ensures legal { IsTrue (are_legal_rows self.new.instance self.new.rows) }
        ensures fault { MatchResult result (λ _. first_cause (move_causes instance.now (rota_of self.old.rows) (Rebreak duty.shift duty.day duty.breaks to.now)) ≡ None) (λ e. Answers e (first_cause (move_causes instance.now (rota_of self.old.rows) (Rebreak duty.shift duty.day duty.breaks to.now)))) }
        ensures moved { OnOk result (AreSameDuties (rota_of self.new.rows) (moved instance.now (Rebreak duty.shift duty.day duty.breaks to.now) (rota_of self.old.rows))) }
        ensures done { IfOk result (IsDone (rota_of self.old.rows) (rota_of self.new.rows)) }
        ensures unchanged { OnErr result (self.new ≡ self.old) }
    {
        let alloc = self.allocator();
        if let Some(fault) = judge_rebreak(instance, self, &duty, to) {
            return Err(fault);
        }
        let other = duty_with(alloc, duty.shift, duty.day, to)?;
        let gone = one(alloc, duty)?;
        let made = one(alloc, other)?;
        let done = self.swap(instance, gone, made)?;
        Ok(done)
    }

    /// Applies a move, and tells what it did. It is refused for the first cause that holds: a shift of it isn't in the
    /// shift list; the day isn't one of the planning period; the shifts are of two types; they don't differ in exactly
    /// one of start and length; an added break list isn't legal, or the shift to go over to has none; a duty to be
    /// changed isn't there; a shift would have too many duties on a day. After a refusal the draft is as before.
    pub fn apply(&mut self, instance: &Instance, step: &Move) -> Result<Done, MoveFault>
        requires instance { self.old.instance ≡ instance.now }
        ensures instance { self.new.instance ≡ self.old.instance }
        ensures legal { IsTrue (are_legal_rows self.new.instance self.new.rows) }
        ensures fault { MatchResult result (λ _. first_cause (move_causes instance.now (rota_of self.old.rows) step.now) ≡ None) (λ e. Answers e (first_cause (move_causes instance.now (rota_of self.old.rows) step.now))) }
        ensures moved { OnOk result (AreSameDuties (rota_of self.new.rows) (moved instance.now step.now (rota_of self.old.rows))) }
        ensures done { IfOk result (IsDone (rota_of self.old.rows) (rota_of self.new.rows)) }
        ensures unchanged { OnErr result (self.new ≡ self.old) }
    {
        let alloc = self.allocator();
        match step {
            Move::Add { shift, day, breaks } => {
                let duty = duty_with(alloc, *shift, *day, breaks)?;
                self.add_one(instance, duty)
            }
            Move::Drop { shift, day, breaks } => {
                let duty = duty_with(alloc, *shift, *day, breaks)?;
                self.drop_one(instance, duty)
            }
            Move::Rebreak {
                shift,
                day,
                from,
                to,
            } => {
                let duty = duty_with(alloc, *shift, *day, from)?;
                self.rebreak(instance, duty, to)
            }
            Move::Reshift { from, to } => self.reshift(instance, *from, *to),
        }
    }
}
