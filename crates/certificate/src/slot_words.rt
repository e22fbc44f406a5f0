//! The prices of slots and of cuts, read. Prices of few digits are read in one pass over their text.
ghost use Rattle.std.specs.Prelude.{◌≡◌, ◌++◌, ◌<◌, ◌^◌, IfOk, IfSome, FitsSigned};
ghost use Rattle.std.specs.Int.{w64};
ghost use Rattle.std.specs.Fmt.{decimal, signed_decimal};
ghost use Rattle.certificate.specs.Words.{Finds, both_sides, slots_in, cuts_in, IsSlotsBefore};

use crate::proof_words::{cuts_of, slots_of};
use crate::words::sides;
use break_rules::NoMemory;
use head_splits::{CutPrices, SlotPrices};
use post_codec::Stop;
use std::alloc::Global;

/// Numbers from here on aren't read digit by digit.
const SHORT_END: u64 = 100_000_000_000_000_000;

/// A number of few digits at the front of a text, and the text behind it, where the text begins so.
fn short_number(text: &[u8]) -> Option<(u64, &[u8])>
    ensures spelled { IfSome result (λ x. text.now ≡ decimal x.0 ++ x.1.now) }
    ensures small { IfSome result (λ x. x.0 < 2 ^ 63) }
{
    let [first, others @ ..] = text else {
        return None;
    };
    if !first.is_ascii_digit() {
        return None;
    }
    let mut number = u64::from(*first - b'0');
    let mut rest = others;
    while let [digit, after @ ..] = rest {
        if !digit.is_ascii_digit() {
            break;
        }
        if number == 0 || SHORT_END <= number {
            return None;
        }
        number = number * 10 + u64::from(*digit - b'0');
        rest = after;
    }
    Some((number, rest))
}

/// A price of few digits at the front of a text, and the text behind it, where the text begins so.
fn short_price(text: &[u8]) -> Option<(i64, &[u8])>
    ensures spelled { IfSome result (λ x. text.now ≡ signed_decimal x.0 ++ x.1.now) }
    ensures fits { IfSome result (λ x. FitsSigned w64 x.0) }
{
    let [b'-', size @ ..] = text else {
        let (price, rest) = short_number(text)?;
        return Some((price as i64, rest));
    };
    let (size, rest) = short_number(size)?;
    if size == 0 {
        return None;
    }
    Some((-(size as i64), rest))
}

/// Prices of few digits with commas between them at the front of a text, and the text behind the blank after them, where the text
/// begins so.
fn short_prices(alloc: Global, text: &[u8]) -> Result<Option<(Vec<i64>, &[u8])>, NoMemory>
    ensures { IfOk result (λ found. IfSome found (λ x. IsSlotsBefore text.now x.0.items x.1.now)) }
{
    let mut list = Vec::new(alloc);
    let mut rest = text;
    while let Some((price, after)) = short_price(rest) {
        list.push(price)?;
        match after {
            [b',', others @ ..] => rest = others,
            [b' ', behind @ ..] => return Ok(Some((list, behind))),
            _ => return Ok(None),
        }
    }
    Ok(None)
}

/// The prices of slots, and behind a blank those of cuts.
pub(crate) fn prices_of(
    alloc: Global,
    text: &[u8],
    left: usize,
) -> Result<(SlotPrices, CutPrices), Stop>
    ensures { Finds (λ x. x) left result (both_sides 32 slots_in cuts_in text.now) }
{
    if let Some((slots, cuts)) = short_prices(alloc, text)? {
        let cuts = cuts_of(alloc, cuts, left)?;
        return Ok((SlotPrices::new(slots), cuts));
    }
    let (slots, cuts) = sides(b' ', text, left)?;
    let slots = slots_of(alloc, slots, left)?;
    let cuts = cuts_of(alloc, cuts, left)?;
    Ok((slots, cuts))
}
