//! Posts as bytes.
ghost use Rattle.std.specs.Prelude.{◌≡◌, ◌<◌, ◌^◌, ◌++◌, ◌∷◌, length, OnOk, IfOk};
ghost use Rattle.post_codec.specs.declared.price_width.PriceWidth.TheVariants.{Five};
ghost use Rattle.post_codec.specs.Spelling.{u16_bytes, u32_bytes, u64_bytes, break_bytes, breaks_bytes, row_bytes, rows_bytes, class_bytes, price_bytes, twos_complement, slot_bytes, slots_bytes, cuts_bytes, prices_bytes, plan_bytes, priced_bytes, split_bytes, settled_bytes, post_bytes, FitsBreak, FitsBreaks, FitsRow, FitsRows, FitsClass, FitsSlot, FitsCut, FitsSlots, FitsCuts, FitsPrices, FitsPost, CountsFitRow, CountsFitRows, CountsFitClass, CanSpellPrices, CanSpellPost, CanSpell, Spells};

use crate::post::Post;
use break_rules::{Break, NoMemory};
use head_splits::{Class, Prices};
use shift_instance::Row;
use std::alloc::Global;

/// Appends a number as two bytes.
#[tactic(auto, unfolding(crate::specs::Spelling::u16_bytes))]
fn put_u16(out: &mut Vec<u8>, n: u16) -> Result<(), NoMemory>
    ensures { OnOk result (out.new.items ≡ out.old.items ++ u16_bytes n) }
{
    out.extend_from_slice(&n.to_le_bytes())?;
    Ok(())
}

/// Appends a number as four bytes.
#[tactic(auto, unfolding(crate::specs::Spelling::u32_bytes))]
fn put_u32(out: &mut Vec<u8>, n: u32) -> Result<(), NoMemory>
    ensures { OnOk result (out.new.items ≡ out.old.items ++ u32_bytes n) }
{
    out.extend_from_slice(&n.to_le_bytes())?;
    Ok(())
}

/// Appends a number as eight bytes.
#[tactic(auto, unfolding(crate::specs::Spelling::u64_bytes))]
fn put_u64(out: &mut Vec<u8>, n: u64) -> Result<(), NoMemory>
    ensures { OnOk result (out.new.items ≡ out.old.items ++ u64_bytes n) }
{
    out.extend_from_slice(&n.to_le_bytes())?;
    Ok(())
}

/// Appends a break.
fn put_break(out: &mut Vec<u8>, item: &Break) -> Result<(), NoMemory>
    ensures fits { FitsBreak item.now }
    ensures put { OnOk result (out.new.items ≡ out.old.items ++ break_bytes item.now) }
{
    let start = item.start;
    let len = item.len;
    put_u16(out, start)?;
    put_u16(out, len)?;
    Ok(())
}

/// Appends the number of breaks, and the breaks.
fn put_breaks(out: &mut Vec<u8>, list: &[Break]) -> Result<(), NoMemory>
    requires { length list.now < 2 ^ 8 }
    ensures fits { OnOk result (FitsBreaks list.now) }
    ensures put { OnOk result (out.new.items ≡ out.old.items ++ breaks_bytes list.now) }
{
    out.push(list.len() as u8)?;
    for item in list {
        put_break(out, item)?;
    }
    Ok(())
}

/// Appends a row.
fn put_row(out: &mut Vec<u8>, item: &Row) -> Result<(), NoMemory>
    requires { CountsFitRow item.now }
    ensures fits { OnOk result (FitsRow item.now) }
    ensures put { OnOk result (out.new.items ≡ out.old.items ++ row_bytes item.now) }
{
    let shift = item.shift;
    let day = item.day;
    let count = item.count;
    put_u16(out, shift)?;
    out.push(day)?;
    put_u16(out, count)?;
    put_breaks(out, item.breaks.as_slice())?;
    Ok(())
}

/// Appends the number of rows, and the rows.
fn put_rows(out: &mut Vec<u8>, list: &[Row]) -> Result<(), NoMemory>
    requires { CountsFitRows list.now }
    ensures fits { OnOk result (FitsRows list.now) }
    ensures put { OnOk result (out.new.items ≡ out.old.items ++ rows_bytes list.now) }
{
    put_u32(out, list.len() as u32)?;
    for item in list {
        put_row(out, item)?;
    }
    Ok(())
}

/// Appends a class.
fn put_class(out: &mut Vec<u8>, class: &Class) -> Result<(), NoMemory>
    requires { CountsFitClass class.now }
    ensures fits { OnOk result (FitsClass class.now) }
    ensures put { OnOk result (out.new.items ≡ out.old.items ++ class_bytes class.now) }
{
    let Class { shift, day, prefix } = class;
    put_u16(out, *shift)?;
    out.push(*day)?;
    put_breaks(out, prefix.as_slice())?;
    Ok(())
}

/// Appends a number in the five bytes of a price.
#[tactic(auto, unfolding(crate::specs::Spelling::price_bytes, crate::specs::Spelling::u64_bytes))]
fn put_price(out: &mut Vec<u8>, n: u64) -> Result<(), NoMemory>
    ensures { OnOk result (out.new.items ≡ out.old.items ++ price_bytes Five n) }
{
    let bytes = n.to_le_bytes();
    out.extend_from_slice(&bytes[..5])?;
    Ok(())
}

/// The number that stands for a price of a slot in two's complement of five bytes.
fn twos_complement(price: i64) -> u64
    requires { FitsSlot Five price }
    ensures { result ≡ twos_complement Five price }
{
    let number = if price < 0 { price + (1 << 40) } else { price };
    number as u64
}

/// Appends the price of a slot.
fn put_slot(out: &mut Vec<u8>, item: &i64) -> Result<(), NoMemory>
    requires { FitsSlot Five item.now }
    ensures { OnOk result (out.new.items ≡ out.old.items ++ slot_bytes Five item.now) }
{
    put_price(out, twos_complement(*item))
}

/// Appends the number of slots, and the price of each.
fn put_slots(out: &mut Vec<u8>, list: &[i64]) -> Result<(), NoMemory>
    requires { FitsSlots Five list.now }
    ensures { OnOk result (out.new.items ≡ out.old.items ++ slots_bytes Five list.now) }
{
    put_u32(out, list.len() as u32)?;
    for item in list {
        put_slot(out, item)?;
    }
    Ok(())
}

/// Appends the number of cuts, and the price of each.
fn put_cuts(out: &mut Vec<u8>, list: &[u64]) -> Result<(), NoMemory>
    requires { FitsCuts Five list.now }
    ensures { OnOk result (out.new.items ≡ out.old.items ++ cuts_bytes Five list.now) }
{
    put_u32(out, list.len() as u32)?;
    for item in list {
        put_price(out, *item)?;
    }
    Ok(())
}

/// Appends prices.
fn put_prices(out: &mut Vec<u8>, prices: &Prices) -> Result<(), NoMemory>
    requires { CanSpellPrices prices.now }
    ensures fits { OnOk result (FitsPrices Five prices.now) }
    ensures put { OnOk result (out.new.items ≡ out.old.items ++ prices_bytes Five prices.now) }
{
    let q = prices.q;
    put_u16(out, q)?;
    put_slots(out, prices.slots.as_slice())?;
    put_cuts(out, prices.cuts.as_slice())?;
    Ok(())
}

/// Appends a plan.
fn put_plan(out: &mut Vec<u8>, worker: u16, cost: u64, rows: &[Row]) -> Result<(), NoMemory>
    requires { CountsFitRows rows.now }
    ensures fits { OnOk result (FitsRows rows.now) }
    ensures put { OnOk result (out.new.items ≡ out.old.items ++ plan_bytes worker cost rows.now) }
{
    out.push(1)?;
    put_u16(out, worker)?;
    put_u64(out, cost)?;
    put_rows(out, rows)?;
    Ok(())
}

/// Appends a priced node.
fn put_priced(out: &mut Vec<u8>, worker: u16, node: u32, prices: &Prices) -> Result<(), NoMemory>
    requires { CanSpellPrices prices.now }
    ensures fits { OnOk result (FitsPrices Five prices.now) }
    ensures put { OnOk result (out.new.items ≡ out.old.items ++ priced_bytes Five worker node prices.now) }
{
    out.push(2)?;
    put_u16(out, worker)?;
    put_u32(out, node)?;
    put_prices(out, prices)?;
    Ok(())
}

/// Appends a split.
fn put_split(
    out: &mut Vec<u8>,
    worker: u16,
    node: u32,
    class: &Class,
    m: u16,
) -> Result<(), NoMemory>
    requires { CountsFitClass class.now }
    ensures fits { OnOk result (FitsClass class.now) }
    ensures put { OnOk result (out.new.items ≡ out.old.items ++ split_bytes worker node class.now m) }
{
    out.push(3)?;
    put_u16(out, worker)?;
    put_u32(out, node)?;
    put_class(out, class)?;
    put_u16(out, m)?;
    Ok(())
}

/// Appends a settled node.
fn put_settled(out: &mut Vec<u8>, worker: u16, node: u32) -> Result<(), NoMemory>
    ensures { OnOk result (out.new.items ≡ out.old.items ++ settled_bytes worker node) }
{
    out.push(4)?;
    put_u16(out, worker)?;
    put_u32(out, node)?;
    Ok(())
}

/// Appends a post.
fn put_post(out: &mut Vec<u8>, item: &Post) -> Result<(), NoMemory>
    requires { CanSpellPost item.now }
    ensures fits { OnOk result (FitsPost Five item.now) }
    ensures put { OnOk result (out.new.items ≡ out.old.items ++ post_bytes Five item.now) }
{
    match item {
        Post::Plan { worker, rows, cost } => put_plan(out, *worker, *cost, rows.as_slice()),
        Post::Priced {
            worker,
            node,
            prices,
        } => put_priced(out, *worker, *node, prices),
        Post::Split {
            worker,
            node,
            class,
            m,
        } => put_split(out, *worker, *node, class, *m),
        Post::Settled { worker, node } => put_settled(out, *worker, *node),
    }
}

/// The one spelling of the posts with prices of five bytes, in their order. There are at most 65,535 posts, each plan has fewer
/// than 2^32 rows, each price set has fewer than 2^32 prices of slots, from -2^39 to 2^39 - 1, and as few of cuts, below 2^40, and
/// each row and each class has at most 255 breaks. The only refusal is running out of memory. The work grows with the number of
/// bytes.
pub fn write(alloc: Global, posts: &[Post]) -> Result<Vec<u8>, NoMemory>
    requires { CanSpell posts.now }
    ensures { IfOk result (λ bytes. Spells bytes.items posts.now) }
{
    let mut out = Vec::new(alloc);
    put_u16(&mut out, posts.len() as u16)?;
    for item in posts {
        put_post(&mut out, item)?;
    }
    Ok(out)
}
