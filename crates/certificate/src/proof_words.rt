//! The words of a proof line, read.
ghost use Rattle.std.specs.Prelude.{◌≡◌, ◌<◌, ◌≤◌, ◌-◌, ◌^◌, pos, nat_lt, codes, option_map};
ghost use Rattle.certificate.specs.Words.{Finds, kept, led_by, led_or, parts_in, number_in, minus, slot_price_in, slots_in, cuts_in, split_in, priced_in, settled_in, any_line_in, has_slot, proof_line_in, proof_count_in};

use crate::proof_lines::Line;
use crate::slot_words::prices_of;
use crate::words::{breaks_of, cut, number, rest_behind, sides, text_behind};
use head_splits::{Class, CutPrices, Prices, SlotPrices};
use post_codec::Stop;
use std::alloc::Global;

/// The number below 0 of a size.
fn below_zero(size: u64) -> i64
    requires some { 0 < size }
    requires small { size ≤ 2 ^ 63 }
    ensures { result ≡ minus size }
{
    -1 - (size - 1) as i64
}

/// The price below 0 of a size.
fn negative(size: &[u8], left: usize) -> Result<i64, Stop>
    ensures { Finds (λ p. p) left result (option_map minus (kept (λ n. nat_lt 0 n) (number_in (2 ^ 63) size.now))) }
{
    let size = number(size, 9_223_372_036_854_775_808, left)?;
    if 0 < size {
        Ok(below_zero(size))
    } else {
        Err(Stop::Left(left))
    }
}

/// The price of a text that has no sign.
fn positive(text: &[u8], left: usize) -> Result<i64, Stop>
    ensures { Finds (λ p. p) left result (option_map pos (number_in (2 ^ 63 - 1) text.now)) }
{
    let price = number(text, 9_223_372_036_854_775_807, left)?;
    Ok(price as i64)
}

/// The price of a slot.
#[tactic(auto, unfolding(crate::specs::Words::slot_price_in))]
fn slot_price_of(text: &[u8], left: usize) -> Result<i64, Stop>
    ensures { Finds (λ p. p) left result (slot_price_in text.now) }
{
    match text_behind(b"-".as_slice(), text) {
        Some(size) => negative(size, left),
        None => positive(text, left),
    }
}

/// The prices of slots, with commas between them.
fn slot_list(alloc: Global, text: &[u8], left: usize) -> Result<Vec<i64>, Stop>
    ensures { Finds (λ v. v.items) left result (parts_in slot_price_in text.now) }
{
    let mut list = Vec::new(alloc);
    let mut rest = text;
    while let Some((word, after)) = cut(b',', rest) {
        list.push(slot_price_of(word, left)?)?;
        rest = after;
    }
    list.push(slot_price_of(rest, left)?)?;
    Ok(list)
}

/// The prices of cuts, with commas between them.
fn cut_list(alloc: Global, text: &[u8], left: usize) -> Result<Vec<u64>, Stop>
    ensures { Finds (λ v. v.items) left result (parts_in (number_in (2 ^ 64 - 1)) text.now) }
{
    let mut list = Vec::new(alloc);
    let mut rest = text;
    while let Some((word, after)) = cut(b',', rest) {
        list.push(number(word, u64::MAX, left)?)?;
        rest = after;
    }
    list.push(number(rest, u64::MAX, left)?)?;
    Ok(list)
}

/// The prices of slots, which are none for no text.
#[tactic(auto, unfolding(crate::specs::Words::slots_in))]
pub(crate) fn slots_of(alloc: Global, text: &[u8], left: usize) -> Result<SlotPrices, Stop>
    ensures { Finds (λ p. p) left result (slots_in text.now) }
{
    if text.is_empty() {
        return Ok(SlotPrices::new(Vec::new(alloc)));
    }
    let list = slot_list(alloc, text, left)?;
    Ok(SlotPrices::new(list))
}

/// The prices of cuts, which are none for `-`.
#[tactic(auto, unfolding(crate::specs::Words::cuts_in))]
pub(crate) fn cuts_of(alloc: Global, text: &[u8], left: usize) -> Result<CutPrices, Stop>
    ensures { Finds (λ p. p) left result (cuts_in text.now) }
{
    if text == b"-".as_slice() {
        return Ok(CutPrices::new(Vec::new(alloc)));
    }
    let list = cut_list(alloc, text, left)?;
    Ok(CutPrices::new(list))
}

/// The split behind its word.
#[tactic(auto, unfolding(crate::specs::Words::split_in))]
fn split_of(alloc: Global, text: &[u8], left: usize) -> Result<Line, Stop>
    ensures { Finds (λ l. l) left result (split_in text.now) }
{
    let (node, text) = sides(b' ', text, left)?;
    let node = number(node, 4_294_967_295, left)?;
    let (shift, text) = sides(b' ', text, left)?;
    let shift = number(shift, 65535, left)?;
    let (day, text) = sides(b' ', text, left)?;
    let day = number(day, 255, left)?;
    let (prefix, m) = sides(b' ', text, left)?;
    let prefix = breaks_of(alloc, prefix, left)?;
    let m = number(m, 65535, left)?;
    let class = Class {
        shift: shift as u16,
        day: day as u8,
        prefix,
    };
    Ok(Line::Split {
        node: node as u32,
        class,
        m: m as u16,
    })
}

/// The priced node behind its word.
#[tactic(auto, unfolding(crate::specs::Words::priced_in))]
fn priced_of(alloc: Global, text: &[u8], left: usize) -> Result<Line, Stop>
    ensures { Finds (λ l. l) left result (priced_in text.now) }
{
    let (node, text) = sides(b' ', text, left)?;
    let node = number(node, 4_294_967_295, left)?;
    let (q, text) = sides(b' ', text, left)?;
    let q = number(q, 65535, left)?;
    let (slots, cuts) = prices_of(alloc, text, left)?;
    let prices = Prices {
        q: q as u16,
        slots,
        cuts,
    };
    Ok(Line::Priced {
        node: node as u32,
        prices,
    })
}

/// The settled node behind its word.
#[tactic(auto, unfolding(crate::specs::Words::settled_in))]
fn settled_of(text: &[u8], left: usize) -> Result<Line, Stop>
    ensures { Finds (λ l. l) left result (settled_in text.now) }
{
    let node = number(text, 4_294_967_295, left)?;
    Ok(Line::Settled { node: node as u32 })
}

/// The settled node of a line.
fn settled_line_of(line: &[u8], left: usize) -> Result<Line, Stop>
    ensures { Finds (λ l. l) left result (led_by (codes "settled ") settled_in line.now) }
{
    let text = rest_behind(b"settled ".as_slice(), line, left)?;
    settled_of(text, left)
}

/// The proof line of a line that is no split.
fn further_line_of(alloc: Global, line: &[u8], left: usize) -> Result<Line, Stop>
    ensures { Finds (λ l. l) left result (led_or (codes "priced ") priced_in (led_by (codes "settled ") settled_in) line.now) }
{
    match text_behind(b"priced ".as_slice(), line) {
        Some(text) => priced_of(alloc, text, left),
        None => settled_line_of(line, left),
    }
}

/// The proof line of a line, also one of prices for no slot.
#[tactic(auto, unfolding(crate::specs::Words::any_line_in))]
pub(crate) fn any_line_of(alloc: Global, line: &[u8], left: usize) -> Result<Line, Stop>
    ensures { Finds (λ l. l) left result (any_line_in line.now) }
{
    match text_behind(b"split ".as_slice(), line) {
        Some(text) => split_of(alloc, text, left),
        None => further_line_of(alloc, line, left),
    }
}

/// Whether prices, where a proof line has them, are for some slot.
fn has_slot(line: &Line) -> bool
    ensures { result ≡ has_slot line.now }
{
    match line {
        Line::Priced { node: _, prices } => !prices.slots.as_slice().is_empty(),
        Line::Split {
            node: _,
            class: _,
            m: _,
        } => true,
        Line::Settled { node: _ } => true,
    }
}

/// The proof line of a line of a report.
#[tactic(auto, unfolding(crate::specs::Words::proof_line_in))]
pub(crate) fn proof_line_of(alloc: Global, line: &[u8], left: usize) -> Result<Line, Stop>
    ensures { Finds (λ l. l) left result (proof_line_in line.now) }
{
    let proof_line = any_line_of(alloc, line, left)?;
    if has_slot(&proof_line) {
        Ok(proof_line)
    } else {
        Err(Stop::Left(left))
    }
}

/// The number of proof lines of a line.
#[tactic(auto, unfolding(crate::specs::Words::proof_count_in))]
pub(crate) fn proof_count_of(line: &[u8], left: usize) -> Result<u64, Stop>
    ensures { Finds (λ n. n) left result (proof_count_in line.now) }
{
    let text = rest_behind(b"proof ".as_slice(), line, left)?;
    number(text, 4_294_967_295, left)
}
