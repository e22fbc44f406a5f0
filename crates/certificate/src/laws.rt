//! Laws of certificates and of their text, as contracts of functions with empty bodies.
ghost use Rattle.certificate.specs.Accepted.{BoundsEachRota, HasTruePlan};
ghost use Rattle.certificate.specs.Departing.{EachIsWritten, EachSpellsOnce, EachBeginsAlike, EachDepartsOnce};

/// What is written of a certificate is a text of it, and no text of another one. So it is read as that certificate, and the texts
/// of a certificate differ in their notes alone.
pub fn one_text()
    ensures written { EachIsWritten }
    ensures certs { EachSpellsOnce }
    ensures notes { EachBeginsAlike }
{}

/// Bytes depart from every text at one line only.
pub fn one_departure()
    ensures { EachDepartsOnce }
{}

/// An accepted certificate's bound holds of every legal rota, and its rows are legal and cost what it claims. Nothing else is asked
/// of it: a split may be of a node that isn't open any more, and by a class that no legal duty is in.
pub fn acceptance_is_enough()
    ensures bound { BoundsEachRota }
    ensures plan { HasTruePlan }
{}
