//! The report of a search.
ghost use Rattle.std.specs.Prelude.{◌≡◌, IfOk};
ghost use Rattle.certificate.specs.Text.{Agrees, HasText, cert_text};

use break_rules::NoMemory;
use certificate::{Cert, write};
use std::alloc::Global;

/// The report of a search, as bytes: the text of its certificate, up to the line `end`. The condition is that the certificate's
/// status agrees with its plan and its bound, that it has fewer than 2^32 rows and fewer than 2^32 proof lines, and that each of
/// its price sets has a price for some slot; it has a text then.
pub fn report(alloc: Global, cert: &Cert) -> Result<Vec<u8>, NoMemory>
    requires { Agrees cert.now }
    ensures has { IfOk result (λ _. HasText cert.now) }
    ensures text { IfOk result (λ bytes. bytes.items ≡ cert_text cert.now) }
{
    write(alloc, cert)
}
