//! Laws of rotas. Each function's contract is the law; the functions do nothing.
ghost use Rattle.std.specs.Prelude.{◌≡◌, ◌<◌, IsTrue, List};
ghost use Rattle.shift_instance.specs.declared.Duty.{Duty};
ghost use Rattle.shift_instance.specs.Problem.{Problem};
ghost use Rattle.shift_instance.specs.Rota.{is_legal_rota, cost, count_of};
ghost use Rattle.shift_instance.specs.Valid.{IsValid};

use shift_instance::TOP;

/// Every legal rota costs less than [`TOP`].
pub fn costs_below_top()
    ensures { (i : Problem) (rota : List Duty) → IsValid i → IsTrue (is_legal_rota i rota) → cost i rota < TOP }
{}

/// The order of duties is no matter: rotas in which each duty stands equally often cost the same.
pub fn cost_knows_no_order()
    ensures { (i : Problem) (rota other : List Duty) → ((d : Duty) → count_of rota d ≡ count_of other d) → cost i rota ≡ cost i other }
{}
