//! A legal plan that grows.
ghost use Rattle.std.specs.Prelude.{◌≡◌, ◌<◌, ◌++◌, ◌∷◌, [], length, IfOk, OnOk, IsTrue};
ghost use Rattle.shift_instance.specs.Problem.{shift_list};
ghost use Rattle.shift_instance.specs.Rota.{heads_on, is_legal_duty, is_used};
ghost use Rattle.greedy.specs.Drafts.{IsDraft};
ghost use Rattle.greedy.specs.Greedy.{duty};

use crate::rows::add_one;
use break_rules::{Breaks, NoMemory};
use rota_cost::Cover;
use shift_instance::{Duty, Instance, Row};
use std::alloc::Global;

/// The duties of a legal plan.
#[derive(Drop)]
pub(crate) struct GreedyDraft {
    /// How many duties work in each slot.
    pub(crate) cover: Cover,
    /// How many duties of each shift stand on each day: shift by shift, with one number for each day.
    pub(crate) heads: Vec<u16>,
    /// The rows of the duties.
    pub(crate) rows: Vec<Row>,
}

impl GreedyDraft {
    /// The plan with no duties.
    pub(crate) fn empty(alloc: Global, instance: &Instance) -> Result<GreedyDraft, NoMemory>
        ensures duties { IfOk result (λ d. d.cover.duties ≡ []) }
        ensures draft { IfOk result (λ d. IsDraft instance.now d.cover d.heads.items d.rows.items) }
    {
        let days = usize::from(instance.days());
        let cover = Cover::new(alloc, instance)?;
        let heads = vec![in alloc; 0; instance.shifts().len() * days]?;
        let rows = Vec::new(alloc);
        Ok(GreedyDraft { cover, heads, rows })
    }

    /// The duties of a shift on a day.
    pub(crate) fn heads_on(&self, instance: &Instance, shift: u16, day: u8) -> u16
        requires draft { IsDraft instance.now self.now.cover self.now.heads.items self.now.rows.items }
        requires shift { shift < length (shift_list instance.now) }
        requires day { day < instance.now.days }
        ensures { result ≡ heads_on self.now.cover.duties shift day }
    {
        self.heads[usize::from(shift) * usize::from(instance.days()) + usize::from(day)]
    }

    /// Whether a shift has a duty.
    pub(crate) fn is_used(&self, instance: &Instance, shift: u16) -> bool
        requires draft { IsDraft instance.now self.now.cover self.now.heads.items self.now.rows.items }
        requires shift { shift < length (shift_list instance.now) }
        ensures { result ≡ is_used self.now.cover.duties shift }
    {
        for day in 0..instance.days() {
            if 0 < self.heads_on(instance, shift, day) {
                return true;
            }
        }
        false
    }

    /// Adds a duty, for which there is room.
    pub(crate) fn add(
        &mut self,
        alloc: Global,
        instance: &Instance,
        shift: u16,
        day: u8,
        list: &Breaks,
    ) -> Result<(), NoMemory>
        requires draft { IsDraft instance.now self.old.cover self.old.heads.items self.old.rows.items }
        requires legal { IsTrue (is_legal_duty instance.now (duty shift day list.now)) }
        requires room { heads_on self.old.cover.duties shift day < instance.now.heads }
        ensures duties { OnOk result (self.new.cover.duties ≡ self.old.cover.duties ++ duty shift day list.now ∷ []) }
        ensures draft { OnOk result (IsDraft instance.now self.new.cover self.new.heads.items self.new.rows.items) }
    {
        let duty = Duty {
            shift,
            day,
            breaks: copy_of(alloc, list)?,
        };
        self.cover.add(instance, &duty);
        let at = usize::from(shift) * usize::from(instance.days()) + usize::from(day);
        self.heads[at] += 1;
        add_one(&mut self.rows, Row::of_one(duty))
    }
}

/// The breaks once more.
fn copy_of(alloc: Global, list: &Breaks) -> Result<Breaks, NoMemory>
    ensures { IfOk result (λ copy. copy ≡ list.now) }
{
    let copy = Vec::from_slice(alloc, list.as_slice())?;
    Ok(Breaks::new(copy))
}
