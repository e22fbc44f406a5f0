//! Laws of the greedy plan.
ghost use Rattle.std.specs.Prelude.{◌≡◌, ℕ, List, Some, None, pos, ◌+ℤ◌, ◌++◌};
ghost use Rattle.shift_instance.specs.declared.Duty.{Duty};
ghost use Rattle.shift_instance.specs.Problem.{Problem};
ghost use Rattle.shift_instance.specs.Rota.{cost};
ghost use Rattle.shift_instance.specs.Valid.{IsValid};
ghost use Rattle.greedy.specs.Greedy.{gain, greedy_rota, new_duties, next_shift};

/// The gain of the shift that a round takes is exactly what the round lowers the cost by.
pub fn gain_is_the_fall_of_cost()
    ensures { (i : Problem) (rota : List Duty) (s : ℕ) → IsValid i → next_shift i rota ≡ Some s
        → pos (cost i (rota ++ new_duties i rota s)) +ℤ gain i rota s ≡ pos (cost i rota) }
{}

/// The greedy plan is ready: no shift is left to take.
pub fn greedy_plan_is_ready()
    ensures { (i : Problem) → next_shift i (greedy_rota i) ≡ None }
{}
