//! Drafts: legal plans that change, with their cost kept.
ghost use Rattle.std.specs.Prelude.{◌≡◌, ℕ, Bool, ◌+◌, ◌*◌, ◌≤◌, ◌<◌, ◌∷◌, [], IfErr, IfOk, IsTrue, OnErr, OnOk, count_by, length, not, slice_index, slice_set};
ghost use Rattle.rota_cost.specs.Counted.{duties_of};
ghost use Rattle.shift_instance.specs.declared.Duty.{Duty};
ghost use Rattle.shift_instance.specs.declared.TheConstants.{TOP};
ghost use Rattle.shift_instance.specs.Problem.{shift_list, slots};
ghost use Rattle.shift_instance.specs.Rota.{are_legal_rows, cost, count_of, cover, duty_of, heads_on, is_legal_duty, rota_of};
ghost use Rattle.shift_instance.specs.Valid.{IsValid};
ghost use Rattle.local_moves.specs.Drafting.{IsExchanged};

use crate::changes::duty_with;
use crate::keeping::{put_all, take_all};
use crate::places::count_in;
use break_rules::NoMemory;
use rota_cost::Cover;
use shift_instance::{Duty, Instance, Row, Rows};
use std::alloc::Global;
use std::marker::Model;
use std::mem;

/// A legal plan that changes move by move, with its cost kept.
///
/// Contracts see the instance and the rows of the plan: how often each duty stands in it, in order.
#[derive(Drop)]
pub struct Draft {
    alloc: Global,
    cover: Cover,
    heads: Vec<u16>,
    rows: Rows,
}

impl Model for Draft {
    ghost use Rattle.local_moves.specs.Drafting.{Drafting};

    ghost Value = { Drafting };

    ghost view = { λ d. record { instance = d.cover.instance; rows = d.rows } };

    ghost use Rattle.greedy.specs.Drafts.{IsDraft};

    ghost invariant = { λ d. IsDraft d.cover.instance d.cover d.heads.items d.rows };
}

/// The duty of a row, once more.
pub(crate) fn duty_of(alloc: Global, row: &Row) -> Result<Duty, NoMemory>
    ensures { IfOk result (λ d. d ≡ duty_of row.now) }
{
    duty_with(alloc, row.shift, row.day, &row.breaks)
}

/// Counts the duties of rows in a cover without duties and in numbers of 0.
fn count_rows(
    alloc: Global,
    instance: &Instance,
    cover: &mut Cover,
    heads: &mut [u16],
    rows: &[Row],
) -> Result<(), NoMemory>
    requires legal { IsTrue (are_legal_rows instance.now rows.now) }
    requires instance { cover.old.instance ≡ instance.now }
    requires none { cover.old.duties ≡ [] }
    requires heads { length heads.old ≡ length (shift_list instance.now) * instance.now.days }
    requires blank { (k : ℕ) → slice_index heads.old k ≡ 0 }
    ensures instance { cover.new.instance ≡ cover.old.instance }
    ensures duties { OnOk result (cover.new.duties ≡ rota_of rows.now) }
    ensures heads { OnOk result ((s day : ℕ) → s < length (shift_list instance.now) → day < instance.now.days → slice_index heads.new (s * instance.now.days + day) ≡ heads_on (rota_of rows.now) s day) }
{
    let days = usize::from(instance.days());
    for row in rows {
        let duty = duty_of(alloc, row)?;
        cover.add_often(instance, &duty, row.count);
        heads[usize::from(row.shift) * days + usize::from(row.day)] += row.count;
    }
    Ok(())
}

impl Draft {
    /// The draft of a legal plan.
    pub fn new(alloc: Global, instance: &Instance, rows: Rows) -> Result<Draft, NoMemory>
        requires { IsTrue (are_legal_rows instance.now rows) }
        ensures { IfOk result (λ d. d ≡ record { instance = instance.now; rows = rows }) }
    {
        let mut cover = Cover::new(alloc, instance)?;
        let days = usize::from(instance.days());
        let mut heads = vec![in alloc; 0; instance.shifts().len() * days]?;
        count_rows(alloc, instance, &mut cover, &mut heads, rows.as_slice())?;
        Ok(Draft {
            alloc,
            cover,
            heads,
            rows,
        })
    }

    /// The rows of the plan, in order. It takes no memory.
    pub fn rows(&self) -> &Rows
        ensures rows { result.now ≡ self.now.rows }
        ensures legal { IsTrue (are_legal_rows self.now.instance self.now.rows) }
    {
        &self.rows
    }

    /// The rows of the plan, in order, given back.
    pub fn into_rows(self) -> Rows
        ensures rows { result ≡ self.rows }
        ensures legal { IsTrue (are_legal_rows self.instance self.rows) }
    {
        self.rows
    }

    /// What the plan costs. It takes no memory.
    pub fn cost(&self) -> u64
        ensures cost { result ≡ cost self.now.instance (rota_of self.now.rows) }
        ensures below { result < TOP }
        ensures legal { IsTrue (are_legal_rows self.now.instance self.now.rows) }
    {
        self.cover.cost()
    }

    /// The duties of a shift on a day. It takes no memory.
    pub fn heads_on(&self, instance: &Instance, shift: u16, day: u8) -> u16
        requires instance { self.now.instance ≡ instance.now }
        requires shift { shift < length (shift_list instance.now) }
        requires day { day < instance.now.days }
        ensures { result ≡ heads_on (rota_of self.now.rows) shift day }
    {
        self.heads[usize::from(shift) * usize::from(instance.days()) + usize::from(day)]
    }

    /// The duties of a shift. It takes no memory.
    pub fn duties_of(&self, instance: &Instance, shift: u16) -> u32
        requires instance { self.now.instance ≡ instance.now }
        requires shift { shift < length (shift_list instance.now) }
        ensures { result ≡ duties_of (rota_of self.now.rows) shift }
    {
        let _ = &self.alloc;
        let mut duties = 0;
        for day in 0..instance.days() {
            duties += u32::from(self.heads_on(instance, shift, day));
        }
        duties
    }

    /// How many duties work in a slot. It takes no memory.
    pub fn working(&self, t: usize) -> u32
        requires { t < slots self.now.instance }
        ensures { result ≡ cover self.now.instance (rota_of self.now.rows) t }
    {
        self.cover.working(t)
    }

    /// How often a duty stands in the plan. It takes no memory.
    pub fn count_of(&self, duty: &Duty) -> u16
        ensures { result ≡ count_of (rota_of self.now.rows) duty.now }
    {
        count_in(self.rows.as_slice(), duty)
    }

    /// The allocator of the draft's memory.
    pub fn allocator(&self) -> Global
        ensures legal { IsTrue (are_legal_rows self.now.instance self.now.rows) }
    {
        self.alloc
    }

    /// Takes duties away that are there, and adds legal ones for which there is room then. After running out of memory the
    /// draft is as before, and the duties that were to be added are given back.
    pub(crate) fn exchange(
        &mut self,
        instance: &Instance,
        gone: &[Duty],
        made: Vec<Duty>,
    ) -> Result<(), Vec<Duty>>
        requires instance { self.old.instance ≡ instance.now }
        requires there { (d : Duty) → count_of gone.now d ≤ count_of (rota_of self.old.rows) d }
        requires legal { count_by (λ d. not (is_legal_duty instance.now d)) made.items ≡ 0 }
        requires heads { (s day : ℕ) → heads_on (rota_of self.old.rows) s day + heads_on made.items s day ≤ instance.now.heads + heads_on gone.now s day }
        ensures instance { self.new.instance ≡ self.old.instance }
        ensures legal { IsTrue (are_legal_rows self.new.instance self.new.rows) }
        ensures duties { OnOk result (IsExchanged (rota_of self.old.rows) gone.now made.items (rota_of self.new.rows)) }
        ensures unchanged { OnErr result (self.new ≡ self.old) }
        ensures given { IfErr result (λ back. back.items ≡ made.items) }
    {
        let none = Rows::new(Vec::new(self.alloc));
        let mut rows = mem::replace(&mut self.rows, none).into_vec();
        if rows.reserve(made.len()).is_err() {
            self.rows = Rows::new(rows);
            return Err(made);
        }
        take_all(instance, &mut self.cover, &mut self.heads, &mut rows, gone);
        put_all(instance, &mut self.cover, &mut self.heads, &mut rows, made);
        self.rows = Rows::new(rows);
        Ok(())
    }
}
