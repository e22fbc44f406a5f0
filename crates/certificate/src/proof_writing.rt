//! Proof lines as text.
ghost use Rattle.std.specs.Prelude.{◌≡◌, ◌<◌, ◌++◌, ◌∷◌, ◌^◌, map, All, FitsSigned, IfSome, OnOk, string_bytes};
ghost use Rattle.std.specs.Int.{w64};
ghost use Rattle.std.specs.List.{flat_map};
ghost use Rattle.std.specs.Fmt.{decimal, signed_decimal};
ghost use Rattle.certificate.specs.LineText.{joined, joined_or_dash, line_text, lines_text, split_line, priced_line, settled_line, proof_line, FitsClass, FitsPrices, FitsLine};

use crate::proof_lines::Line;
use crate::writing::add_breaks;
use break_rules::NoMemory;
use head_splits::{Class, Prices};
use std::fmt::Write;

/// The text of a price of -1 to 9, as most prices are.
fn short_text(price: i64) -> Option<&'static str>
    ensures { IfSome result (λ text. text.now ≡ signed_decimal price) }
{
    match price {
        -1 => Some("-1"),
        0 => Some("0"),
        1 => Some("1"),
        2 => Some("2"),
        3 => Some("3"),
        4 => Some("4"),
        5 => Some("5"),
        6 => Some("6"),
        7 => Some("7"),
        8 => Some("8"),
        9 => Some("9"),
        _ => None,
    }
}

/// Adds the price of a slot.
fn add_slot(text: &mut String, price: &i64) -> Result<(), NoMemory>
    ensures fits { FitsSigned w64 price.now }
    ensures added { OnOk result (string_bytes text.new ≡ string_bytes text.old ++ signed_decimal price.now) }
{
    let price = *price;
    match short_text(price) {
        Some(short) => text.push_str(short),
        None => write!(text, "{price}"),
    }
}

/// Adds the prices of further slots, each with a comma before it.
fn add_further_slots(text: &mut String, prices: &[i64]) -> Result<(), NoMemory>
    ensures fits { OnOk result (All (FitsSigned w64) prices.now) }
    ensures added { OnOk result (string_bytes text.new ≡ string_bytes text.old ++ flat_map (λ next. 44 ∷ signed_decimal next) prices.now) }
{
    for next in prices {
        text.push_str(",")?;
        add_slot(text, next)?;
    }
    Ok(())
}

/// Adds the prices of slots with commas between them.
fn add_slots(text: &mut String, prices: &[i64]) -> Result<(), NoMemory>
    ensures fits { OnOk result (All (FitsSigned w64) prices.now) }
    ensures added { OnOk result (string_bytes text.new ≡ string_bytes text.old ++ joined signed_decimal prices.now) }
{
    match prices {
        [] => Ok(()),
        [first, further @ ..] => {
            add_slot(text, first)?;
            add_further_slots(text, further)
        }
    }
}

/// Adds the price of a cut.
fn add_cut(text: &mut String, price: &u64) -> Result<(), NoMemory>
    ensures fits { price.now < 2 ^ 64 }
    ensures added { OnOk result (string_bytes text.new ≡ string_bytes text.old ++ decimal price.now) }
{
    let price = *price;
    write!(text, "{price}")
}

/// Adds the prices of further cuts, each with a comma before it.
fn add_further_cuts(text: &mut String, prices: &[u64]) -> Result<(), NoMemory>
    ensures fits { OnOk result (All (λ price. price < 2 ^ 64) prices.now) }
    ensures added { OnOk result (string_bytes text.new ≡ string_bytes text.old ++ flat_map (λ next. 44 ∷ decimal next) prices.now) }
{
    for next in prices {
        text.push_str(",")?;
        add_cut(text, next)?;
    }
    Ok(())
}

/// Adds the prices of cuts with commas between them, and `-` where there are none.
fn add_cuts(text: &mut String, prices: &[u64]) -> Result<(), NoMemory>
    ensures fits { OnOk result (All (λ price. price < 2 ^ 64) prices.now) }
    ensures added { OnOk result (string_bytes text.new ≡ string_bytes text.old ++ joined_or_dash decimal prices.now) }
{
    match prices {
        [] => text.push_str("-"),
        [first, further @ ..] => {
            add_cut(text, first)?;
            add_further_cuts(text, further)
        }
    }
}

/// Adds the line of a split.
pub(crate) fn add_split(text: &mut String, node: u32, class: &Class, m: u16) -> Result<(), NoMemory>
    ensures fits { OnOk result (FitsClass class.now) }
    ensures added { OnOk result (string_bytes text.new ≡ string_bytes text.old ++ line_text (split_line node class.now m)) }
{
    let shift = class.shift;
    let day = class.day;
    write!(text, "split {node} {shift} {day} ")?;
    add_breaks(text, class.prefix.as_slice())?;
    write!(text, " {m}\n")
}

/// Adds the line of a priced node.
pub(crate) fn add_priced(text: &mut String, node: u32, prices: &Prices) -> Result<(), NoMemory>
    ensures fits { OnOk result (FitsPrices prices.now) }
    ensures added { OnOk result (string_bytes text.new ≡ string_bytes text.old ++ line_text (priced_line node prices.now)) }
{
    let q = prices.q;
    write!(text, "priced {node} {q} ")?;
    add_slots(text, prices.slots.as_slice())?;
    text.push_str(" ")?;
    add_cuts(text, prices.cuts.as_slice())?;
    text.push_str("\n")
}

/// Adds the line of a settled node.
pub(crate) fn add_settled(text: &mut String, node: u32) -> Result<(), NoMemory>
    ensures { OnOk result (string_bytes text.new ≡ string_bytes text.old ++ line_text (settled_line node)) }
{
    write!(text, "settled {node}\n")
}

/// Adds a proof line.
fn add_line(text: &mut String, line: &Line) -> Result<(), NoMemory>
    ensures fits { OnOk result (FitsLine line.now) }
    ensures added { OnOk result (string_bytes text.new ≡ string_bytes text.old ++ line_text (proof_line line.now)) }
{
    match line {
        Line::Split { node, class, m } => add_split(text, *node, class, *m),
        Line::Priced { node, prices } => add_priced(text, *node, prices),
        Line::Settled { node } => add_settled(text, *node),
    }
}

/// Adds proof lines.
pub(crate) fn add_lines(text: &mut String, lines: &[Line]) -> Result<(), NoMemory>
    ensures fits { OnOk result (All FitsLine lines.now) }
    ensures added { OnOk result (string_bytes text.new ≡ string_bytes text.old ++ lines_text (map proof_line lines.now)) }
{
    for line in lines {
        add_line(text, line)?;
    }
    Ok(())
}
