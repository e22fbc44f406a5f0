//! The duties in a cover, as clauses see them.
ghost use Rattle.std.specs.Prelude.{◌≡◌, List, [], ◌∷◌, ◌++◌};
ghost use Rattle.std.specs.Borrow.{ftrue};
ghost use Rattle.shift_instance.specs.declared.Duty.{Duty};
ghost use Rattle.shift_instance.specs.Problem.{Problem};
ghost use Rattle.rota_cost.specs.Cover.{without};

use shift_instance::{Duty, Instance};
use std::marker::Model;

/// An instance and duties. It takes no memory and does nothing at run time. Alone it says nothing of a cover's numbers: a
/// cover's condition ties them to it.
#[derive(Drop)]
pub struct Covered {
    pub ghost instance: { Problem },
    pub ghost duties: { List Duty },
}

impl Model for Covered {
    ghost also_owns = { λ _. ftrue };
}

// It owns nothing.
unsafe impl Send for Covered {}

impl Covered {
    /// No duty for this instance.
    pub(crate) fn none(_instance: &Instance) -> Covered
        ensures { (result.instance ≡ _instance.now) × (result.duties ≡ []) }
    {
        Covered {}
    }

    /// One duty more.
    pub(crate) fn with(_before: &Covered, _duty: &Duty) -> Covered
        ensures { (result.instance ≡ _before.now.instance) × (result.duties ≡ _before.now.duties ++ _duty.now ∷ []) }
    {
        Covered {}
    }

    /// One duty less.
    pub(crate) fn without(_before: &Covered, _duty: &Duty) -> Covered
        ensures { (result.instance ≡ _before.now.instance) × (result.duties ≡ without _duty.now _before.now.duties) }
    {
        Covered {}
    }
}
