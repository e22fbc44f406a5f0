//! A plan that was judged.

ghost use Rattle.std.specs.Prelude.{◌≡◌, ℕ, List, IsTrue, Some};
ghost use Rattle.shift_instance.specs.declared.Row.{Row};
ghost use Rattle.shift_instance.specs.Rota.{are_legal_rows};
ghost use Rattle.certificate.specs.Accepted.{is_accepted};
ghost use Rattle.certificate.specs.Departing.{Spells};

use certificate::Cert;
use shift_instance::Instance;

/// A report that was judged and accepted, with what it says: what is shown of a plan is what was checked.
#[derive(Drop)]
pub struct JudgedPlan {
    /// The instance.
    pub instance: Instance,
    /// What the report says.
    pub cert: Cert,
    /// The text of the report.
    pub report: Vec<u8>,
    ghost spelled: { ∥ Spells report.items cert ∥₁ },
    ghost accepted: { IsTrue (is_accepted instance cert) },
    ghost legal: { (cost : ℕ) (rows : List Row) → cert.plan ≡ Some (cost, rows) → IsTrue (are_legal_rows instance rows) },
}
