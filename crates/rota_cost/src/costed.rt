//! Rows with their cost.
ghost use Rattle.std.specs.Prelude.{◌≡◌, ◌↔◌, IsTrue, IsOk, IfOk, IfErr, Some};
ghost use Rattle.shift_instance.specs.Rota.{are_legal_rows};
ghost use Rattle.rota_cost.specs.Costed.{IsCosted};
ghost use Rattle.rota_cost.specs.RowFaults.{row_fault};

use crate::{RowFault, legal_rows, recount};
use shift_instance::{Instance, Rows};
use std::marker::Model;
use std::snapshot::Snapshot;

/// Rows that are legal for an instance, with what they cost there.
#[derive(Drop)]
pub struct Costed {
    rows: Rows,
    cost: u64,
    instance: Snapshot<Instance>,
}

impl Model for Costed {
    ghost use Rattle.rota_cost.specs.Costed.{Costing, IsCosted};

    ghost Value = { Costing };

    ghost view = { λ c. record { instance = c.instance.value; rows = c.rows; cost = c.cost } };

    ghost invariant = { λ c. IsCosted (record { instance = c.instance.value; rows = c.rows; cost = c.cost }) };
}

/// Rows with their cost, or, where they aren't legal, the rows as they were and the first fault of the first bad row.
/// It takes no memory.
pub fn cost_rows(instance: &Instance, rows: Rows) -> Result<Costed, (Rows, RowFault)>
    ensures ok { IfOk result (λ c. (c.instance ≡ instance.now) × (c.rows ≡ rows)) }
    ensures err { IfErr result (λ e. (e.0 ≡ rows) × (row_fault instance.now rows ≡ Some e.1)) }
    ensures legal { IsOk result ↔ IsTrue (are_legal_rows instance.now rows) }
{
    if let Err(fault) = legal_rows(instance, &rows) {
        return Err((rows, fault));
    }
    let cost = recount(instance, &rows);
    Ok(Costed {
        rows,
        cost,
        instance: Snapshot::of(instance),
    })
}

impl Costed {
    /// The rows, which are legal for their instance.
    pub fn rows(&self) -> &Rows
        ensures rows { result.now ≡ self.now.rows }
        ensures costed { IsCosted self.now }
    {
        &self.rows
    }

    /// What the rota of the rows costs.
    pub fn cost(&self) -> u64
        ensures cost { result ≡ self.now.cost }
        ensures costed { IsCosted self.now }
    {
        self.cost
    }

    /// The rows, given back.
    pub fn into_rows(self) -> Rows
        ensures rows { result ≡ self.rows }
        ensures costed { IsCosted self }
    {
        self.rows
    }
}
