//! The sentence for a refused document.
ghost use Rattle.std.specs.Prelude.{◌≡◌, ◌++◌, ℕ, List, codes, IfOk, string_bytes};
ghost use Rattle.instance_json.specs.RefusalText.{refusal_text};
ghost use Rattle.refusal_texts.specs.Places.{refusal_place};

use crate::faults::what_is_wrong;
use crate::places::refusal_place;
use instance_json::ReadRefusal;
use std::alloc::{AllocError, Global};

/// How places are counted, said once in a sentence that names one.
const COUNTING: &str =
    " (Lists count from 0: types[0] is the first type, need[0] is the first slot.)";

/// What is wrong with a document, with how places are counted where one is named.
fn what_stands_there(
    alloc: Global,
    document: &[u8],
    refusal: &ReadRefusal,
    place: &str,
) -> Result<String, AllocError> {
    let mut wrong = what_is_wrong(alloc, document, refusal)?;
    let text = wrong.as_str();
    let indexed = place.contains('[') || text.starts_with('[') || text.contains("types[");
    if indexed {
        wrong.push_str(COUNTING)?;
    }
    Ok(wrong)
}

/// The sentence for whoever wrote a document that is refused: the refusal's number, a colon, the place in the document as
/// a person writes it, what stands there, and what may stand there, with ranges and units.
///
/// The place is told as far as the refusal tells it (`place`). What stands there is read from the document again: it is
/// right for the document that was refused, and the contract leaves it open.
pub fn document_sentence(
    alloc: Global,
    document: &[u8],
    refusal: &ReadRefusal,
) -> Result<String, AllocError>
    ensures place { IfOk result (λ sentence. (rest : List ℕ) × (string_bytes sentence ≡ refusal_text refusal.now ++ (codes ": " ++ (refusal_place refusal.now ++ rest)))) }
{
    let place = refusal_place(alloc, refusal)?;
    let rest = what_stands_there(alloc, document, refusal, place.as_str())?;
    format!(in alloc; "{refusal}: {place}{rest}")
}
