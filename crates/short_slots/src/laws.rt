//! Laws of cheapest rotas. Each function's contract is the law; the functions do nothing.
ghost use Rattle.std.specs.Prelude.{ℕ, ◌+◌, ◌*◌, ◌<◌, ◌≤◌, List};
ghost use Rattle.shift_instance.specs.declared.Duty.{Duty};
ghost use Rattle.shift_instance.specs.Problem.{Problem, slots, need_at};
ghost use Rattle.shift_instance.specs.Rota.{cover};
ghost use Rattle.short_slots.specs.Cheapest.{IsCheapest, Helps};
ghost use Rattle.short_slots.specs.Worked.{IsMostWorked, enough_shortage};

/// Where an employee too few costs at least as much as the most slots that a duty works, each with an employee too many, and
/// a further shift and 1 more, no slot is short in a cheapest rota if one more duty that is allowed would work in it.
pub fn no_slot_stays_short()
    ensures { (i : Problem) (most : ℕ) (rota : List Duty) (t : ℕ) (d : Duty)
        → IsMostWorked i most → enough_shortage i most ≤ i.shortage → IsCheapest i rota
        → t < slots i → Helps i rota t d → need_at i t ≤ cover i rota t }
{}
