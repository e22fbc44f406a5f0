//! Exchanges of duties that can be undone.
ghost use Rattle.std.specs.Prelude.{◌≡◌, ℕ, Bool, ◌+◌, ◌≤◌, ◌++◌, ◌∷◌, List, [], IfErr, IfOk, IsTrue, OnErr, OnOk, count_by, not};
ghost use Rattle.shift_instance.specs.declared.Duty.{Duty};
ghost use Rattle.shift_instance.specs.declared.Row.{Row};
ghost use Rattle.shift_instance.specs.Rota.{are_legal_rows, count_of, heads_on, is_legal_duty, rota_of};
ghost use Rattle.local_moves.specs.Changes.{IsDone};
ghost use Rattle.local_moves.specs.Drafting.{IsExchanged};

use crate::changes::{complete, copy_of, places};
use crate::done::Done;
use crate::draft::Draft;
use break_rules::NoMemory;
use shift_instance::{Duty, Instance};
use std::alloc::{AllocError, Global};

/// Duties once more.
fn copies(alloc: Global, duties: &[Duty]) -> Result<Vec<Duty>, NoMemory>
    ensures { IfOk result (λ copies. copies.items ≡ duties.now) }
{
    let mut copies = Vec::new(alloc);
    for duty in duties {
        copies.push(copy_of(alloc, duty)?)?;
    }
    Ok(copies)
}

impl Draft {
    /// Takes duties away that are there, and adds legal ones for which there is room then. After running out of memory the
    /// draft is as before.
    pub(crate) fn swap(
        &mut self,
        instance: &Instance,
        gone: Vec<Duty>,
        made: Vec<Duty>,
    ) -> Result<Done, NoMemory>
        requires instance { self.old.instance ≡ instance.now }
        requires there { (d : Duty) → count_of gone.items d ≤ count_of (rota_of self.old.rows) d }
        requires legal { count_by (λ d. not (is_legal_duty instance.now d)) made.items ≡ 0 }
        requires heads { (s day : ℕ) → heads_on (rota_of self.old.rows) s day + heads_on made.items s day ≤ instance.now.heads + heads_on gone.items s day }
        ensures instance { self.new.instance ≡ self.old.instance }
        ensures legal { IsTrue (are_legal_rows self.new.instance self.new.rows) }
        ensures duties { OnOk result (IsExchanged (rota_of self.old.rows) gone.items made.items (rota_of self.new.rows)) }
        ensures done { IfOk result (IsDone (rota_of self.old.rows) (rota_of self.new.rows)) }
        ensures unchanged { OnErr result (self.new ≡ self.old) }
    {
        let alloc = self.allocator();
        let mut changes = places(alloc, self.rows().as_slice(), &gone, &made)?;
        let added = copies(alloc, &made)?;
        match self.exchange(instance, &gone, added) {
            Ok(()) => {
                complete(self.rows().as_slice(), &mut changes);
                Ok(Done {
                    changes,
                    gone,
                    made,
                })
            }
            Err(_given) => Err(AllocError),
        }
    }

    /// Undoes a move: each duty that it changed stands in the plan as often as before the move, and every other one as
    /// often as now. Each of them stands in the plan as often as after the move, and the plan that comes of it is legal.
    /// After running out of memory the draft is as before, and what the move did is given back.
    pub fn undo(&mut self, instance: &Instance, done: Done) -> Result<(), Done>
        requires instance { self.old.instance ≡ instance.now }
        requires back { (before : List Row) × IsTrue (are_legal_rows instance.now before) × IsDone (rota_of before) (rota_of self.old.rows) done }
        ensures instance { self.new.instance ≡ self.old.instance }
        ensures undone { OnOk result ((before : List Row) → IsTrue (are_legal_rows instance.now before) → IsDone (rota_of before) (rota_of self.old.rows) done → self.new.rows ≡ before) }
        ensures unchanged { OnErr result (self.new ≡ self.old) }
        ensures given { IfErr result (λ given. given ≡ done) }
    {
        let Done {
            changes,
            gone,
            made,
        } = done;
        match self.exchange(instance, &made, gone) {
            Ok(()) => Ok(()),
            Err(gone) => Err(Done {
                changes,
                gone,
                made,
            }),
        }
    }
}
