//! Bytes read as posts.
ghost use Rattle.std.specs.Prelude.{◌≡◌, ◌<◌, List, IfOk, IfErr, FitsSigned};
ghost use Rattle.std.specs.Int.{w16, w32, w64};
ghost use Rattle.post_codec.specs.declared.post.Post.{Post as APost};
ghost use Rattle.post_codec.specs.declared.price_width.PriceWidth.TheVariants.{Five, Eight};
ghost use Rattle.post_codec.specs.Spelling.{Spells, SpellsBy, room};
ghost use Rattle.post_codec.specs.Fields.{IsFaultOf, GivesPosts};
ghost use Rattle.post_codec.specs.Reading.{Gives, IsRead, byte_at, number_at, break_at, breaks_at, row_at, rows_at, class_at, to_slot, price_at, slot_at, slots_at, cuts_at, prices_at, times, plan_at, priced_at, split_at, settled_at, post_at, posts_at, whole, reading};

use crate::fault::{CodecFault, Stop};
use crate::post::Post;
use crate::price_width::PriceWidth;
use break_rules::{Break, Breaks};
use head_splits::{Class, CutPrices, Prices, SlotPrices};
use shift_instance::{Row, Rows};
use std::alloc::Global;

/// A byte, and the bytes after it.
fn byte_of(bytes: &[u8]) -> Result<(u8, &[u8]), Stop>
    ensures { Gives (λ x. (x.0, x.1.now)) result (byte_at bytes.now) }
{
    match bytes {
        [] => Err(Stop::Left(0)),
        [byte, rest @ ..] => Ok((*byte, rest)),
    }
}

/// A number of two bytes, and the bytes after it.
fn u16_of(bytes: &[u8]) -> Result<(u16, &[u8]), Stop>
    ensures { Gives (λ x. (x.0, x.1.now)) result (number_at w16 bytes.now) }
{
    if bytes.len() < 2 {
        return Err(Stop::Left(bytes.len()));
    }
    let (front, rest) = bytes.split_at(2);
    let number = u16::from_le_bytes([front[0], front[1]]);
    Ok((number, rest))
}

/// A number of four bytes, and the bytes after it.
fn u32_of(bytes: &[u8]) -> Result<(u32, &[u8]), Stop>
    ensures { Gives (λ x. (x.0, x.1.now)) result (number_at w32 bytes.now) }
{
    if bytes.len() < 4 {
        return Err(Stop::Left(bytes.len()));
    }
    let (front, rest) = bytes.split_at(4);
    let number = u32::from_le_bytes([front[0], front[1], front[2], front[3]]);
    Ok((number, rest))
}

/// A number of eight bytes, and the bytes after it.
fn u64_of(bytes: &[u8]) -> Result<(u64, &[u8]), Stop>
    ensures { Gives (λ x. (x.0, x.1.now)) result (number_at w64 bytes.now) }
{
    if bytes.len() < 8 {
        return Err(Stop::Left(bytes.len()));
    }
    let (front, rest) = bytes.split_at(8);
    let number = u64::from_le_bytes([
        front[0], front[1], front[2], front[3], front[4], front[5], front[6], front[7],
    ]);
    Ok((number, rest))
}

/// A break, and the bytes after it.
#[tactic(auto, unfolding(crate::specs::Reading::break_at))]
fn break_of(bytes: &[u8]) -> Result<(Break, &[u8]), Stop>
    ensures { Gives (λ x. (x.0, x.1.now)) result (break_at bytes.now) }
{
    let (start, rest) = u16_of(bytes)?;
    let (len, rest) = u16_of(rest)?;
    Ok((Break { start, len }, rest))
}

/// So many breaks, and the bytes after them.
fn break_list(alloc: Global, count: u8, bytes: &[u8]) -> Result<(Vec<Break>, &[u8]), Stop>
    ensures { Gives (λ x. (x.0.items, x.1.now)) result (times break_at count bytes.now) }
{
    let mut list = Vec::new(alloc);
    let mut rest = bytes;
    for _ in 0..count {
        let (item, after) = break_of(rest)?;
        list.push(item)?;
        rest = after;
    }
    Ok((list, rest))
}

/// The breaks of a row, and the bytes after them.
#[tactic(auto, unfolding(crate::specs::Reading::breaks_at))]
fn breaks_of(alloc: Global, bytes: &[u8]) -> Result<(Breaks, &[u8]), Stop>
    ensures { Gives (λ x. (x.0, x.1.now)) result (breaks_at bytes.now) }
{
    let (count, rest) = byte_of(bytes)?;
    let (list, rest) = break_list(alloc, count, rest)?;
    Ok((Breaks::new(list), rest))
}

/// A row, and the bytes after it.
#[tactic(auto, unfolding(crate::specs::Reading::row_at))]
fn row_of(alloc: Global, bytes: &[u8]) -> Result<(Row, &[u8]), Stop>
    ensures { Gives (λ x. (x.0, x.1.now)) result (row_at bytes.now) }
{
    let (shift, rest) = u16_of(bytes)?;
    let (day, rest) = byte_of(rest)?;
    let (count, rest) = u16_of(rest)?;
    let (breaks, rest) = breaks_of(alloc, rest)?;
    let row = Row {
        shift,
        day,
        breaks,
        count,
    };
    Ok((row, rest))
}

/// So many rows, and the bytes after them.
fn row_list(alloc: Global, count: u32, bytes: &[u8]) -> Result<(Vec<Row>, &[u8]), Stop>
    ensures { Gives (λ x. (x.0.items, x.1.now)) result (times row_at count bytes.now) }
{
    let mut list = Vec::new(alloc);
    let mut rest = bytes;
    for _ in 0..count {
        let (item, after) = row_of(alloc, rest)?;
        list.push(item)?;
        rest = after;
    }
    Ok((list, rest))
}

/// The rows of a plan, and the bytes after them.
#[tactic(auto, unfolding(crate::specs::Reading::rows_at))]
fn rows_of(alloc: Global, bytes: &[u8]) -> Result<(Rows, &[u8]), Stop>
    ensures { Gives (λ x. (x.0, x.1.now)) result (rows_at bytes.now) }
{
    let (count, rest) = u32_of(bytes)?;
    let (list, rest) = row_list(alloc, count, rest)?;
    Ok((Rows::new(list), rest))
}

/// A class, and the bytes after it.
#[tactic(auto, unfolding(crate::specs::Reading::class_at))]
fn class_of(alloc: Global, bytes: &[u8]) -> Result<(Class, &[u8]), Stop>
    ensures { Gives (λ x. (x.0, x.1.now)) result (class_at bytes.now) }
{
    let (shift, rest) = u16_of(bytes)?;
    let (day, rest) = byte_of(rest)?;
    let (prefix, rest) = breaks_of(alloc, rest)?;
    Ok((Class { shift, day, prefix }, rest))
}

/// A number in the five bytes of a price, and the bytes after it.
fn u40_of(bytes: &[u8]) -> Result<(u64, &[u8]), Stop>
    ensures small { IfOk result (λ x. x.0 < room Five) }
    ensures is { Gives (λ x. (x.0, x.1.now)) result (price_at Five bytes.now) }
{
    if bytes.len() < 5 {
        return Err(Stop::Left(bytes.len()));
    }
    let (front, rest) = bytes.split_at(5);
    let number = u64::from_le_bytes([front[0], front[1], front[2], front[3], front[4], 0, 0, 0]);
    Ok((number, rest))
}

/// A number in the bytes of a price, and the bytes after it.
fn price_of(width: PriceWidth, bytes: &[u8]) -> Result<(u64, &[u8]), Stop>
    ensures small { IfOk result (λ x. x.0 < room width) }
    ensures is { Gives (λ x. (x.0, x.1.now)) result (price_at width bytes.now) }
{
    match width {
        PriceWidth::Five => u40_of(bytes),
        PriceWidth::Eight => u64_of(bytes),
    }
}

/// The price of a slot that a number stands for in two's complement.
fn to_slot(width: PriceWidth, number: u64) -> i64
    requires { number < room width }
    ensures { result ≡ to_slot width number }
{
    match width {
        PriceWidth::Five if number < 1 << 39 => number as i64,
        PriceWidth::Five => number as i64 - (1 << 40),
        PriceWidth::Eight => number.cast_signed(),
    }
}

/// The price of a slot, and the bytes after it.
#[tactic(auto, unfolding(crate::specs::Reading::slot_at))]
fn slot_of(width: PriceWidth, bytes: &[u8]) -> Result<(i64, &[u8]), Stop>
    ensures fits { IfOk result (λ x. FitsSigned w64 x.0) }
    ensures is { Gives (λ x. (x.0, x.1.now)) result (slot_at width bytes.now) }
{
    let (number, rest) = price_of(width, bytes)?;
    Ok((to_slot(width, number), rest))
}

/// So many prices of slots, and the bytes after them.
fn slot_list(
    alloc: Global,
    width: PriceWidth,
    count: u32,
    bytes: &[u8],
) -> Result<(Vec<i64>, &[u8]), Stop>
    ensures { Gives (λ x. (x.0.items, x.1.now)) result (times (slot_at width) count bytes.now) }
{
    let mut list = Vec::new(alloc);
    let mut rest = bytes;
    for _ in 0..count {
        let (item, after) = slot_of(width, rest)?;
        list.push(item)?;
        rest = after;
    }
    Ok((list, rest))
}

/// The prices of slots, and the bytes after them.
#[tactic(auto, unfolding(crate::specs::Reading::slots_at))]
fn slots_of(alloc: Global, width: PriceWidth, bytes: &[u8]) -> Result<(SlotPrices, &[u8]), Stop>
    ensures { Gives (λ x. (x.0, x.1.now)) result (slots_at width bytes.now) }
{
    let (count, rest) = u32_of(bytes)?;
    let (list, rest) = slot_list(alloc, width, count, rest)?;
    Ok((SlotPrices::new(list), rest))
}

/// So many prices of cuts, and the bytes after them.
fn cut_list(
    alloc: Global,
    width: PriceWidth,
    count: u32,
    bytes: &[u8],
) -> Result<(Vec<u64>, &[u8]), Stop>
    ensures { Gives (λ x. (x.0.items, x.1.now)) result (times (price_at width) count bytes.now) }
{
    let mut list = Vec::new(alloc);
    let mut rest = bytes;
    for _ in 0..count {
        let (item, after) = price_of(width, rest)?;
        list.push(item)?;
        rest = after;
    }
    Ok((list, rest))
}

/// The prices of cuts, and the bytes after them.
#[tactic(auto, unfolding(crate::specs::Reading::cuts_at))]
fn cuts_of(alloc: Global, width: PriceWidth, bytes: &[u8]) -> Result<(CutPrices, &[u8]), Stop>
    ensures { Gives (λ x. (x.0, x.1.now)) result (cuts_at width bytes.now) }
{
    let (count, rest) = u32_of(bytes)?;
    let (list, rest) = cut_list(alloc, width, count, rest)?;
    Ok((CutPrices::new(list), rest))
}

/// Prices, and the bytes after them.
#[tactic(auto, unfolding(crate::specs::Reading::prices_at))]
fn prices_of(alloc: Global, width: PriceWidth, bytes: &[u8]) -> Result<(Prices, &[u8]), Stop>
    ensures { Gives (λ x. (x.0, x.1.now)) result (prices_at width bytes.now) }
{
    let (q, rest) = u16_of(bytes)?;
    let (slots, rest) = slots_of(alloc, width, rest)?;
    let (cuts, rest) = cuts_of(alloc, width, rest)?;
    Ok((Prices { q, slots, cuts }, rest))
}

/// A plan behind its tag, and the bytes after it.
#[tactic(auto, unfolding(crate::specs::Reading::plan_at))]
fn plan_of(alloc: Global, bytes: &[u8]) -> Result<(Post, &[u8]), Stop>
    ensures { Gives (λ x. (x.0, x.1.now)) result (plan_at bytes.now) }
{
    let (worker, rest) = u16_of(bytes)?;
    let (cost, rest) = u64_of(rest)?;
    let (rows, rest) = rows_of(alloc, rest)?;
    Ok((Post::Plan { worker, rows, cost }, rest))
}

/// A priced node behind its tag, and the bytes after it.
#[tactic(auto, unfolding(crate::specs::Reading::priced_at))]
fn priced_of(alloc: Global, width: PriceWidth, bytes: &[u8]) -> Result<(Post, &[u8]), Stop>
    ensures { Gives (λ x. (x.0, x.1.now)) result (priced_at width bytes.now) }
{
    let (worker, rest) = u16_of(bytes)?;
    let (node, rest) = u32_of(rest)?;
    let (prices, rest) = prices_of(alloc, width, rest)?;
    let post = Post::Priced {
        worker,
        node,
        prices,
    };
    Ok((post, rest))
}

/// A split behind its tag, and the bytes after it.
#[tactic(auto, unfolding(crate::specs::Reading::split_at))]
fn split_of(alloc: Global, bytes: &[u8]) -> Result<(Post, &[u8]), Stop>
    ensures { Gives (λ x. (x.0, x.1.now)) result (split_at bytes.now) }
{
    let (worker, rest) = u16_of(bytes)?;
    let (node, rest) = u32_of(rest)?;
    let (class, rest) = class_of(alloc, rest)?;
    let (m, rest) = u16_of(rest)?;
    let post = Post::Split {
        worker,
        node,
        class,
        m,
    };
    Ok((post, rest))
}

/// A settled node behind its tag, and the bytes after it.
#[tactic(auto, unfolding(crate::specs::Reading::settled_at))]
fn settled_of(bytes: &[u8]) -> Result<(Post, &[u8]), Stop>
    ensures { Gives (λ x. (x.0, x.1.now)) result (settled_at bytes.now) }
{
    let (worker, rest) = u16_of(bytes)?;
    let (node, rest) = u32_of(rest)?;
    Ok((Post::Settled { worker, node }, rest))
}

/// A post, and the bytes after it.
#[tactic(auto, unfolding(crate::specs::Reading::post_at))]
fn post_of(alloc: Global, width: PriceWidth, bytes: &[u8]) -> Result<(Post, &[u8]), Stop>
    ensures { Gives (λ x. (x.0, x.1.now)) result (post_at width bytes.now) }
{
    let (tag, rest) = byte_of(bytes)?;
    match tag {
        1 => plan_of(alloc, rest),
        2 => priced_of(alloc, width, rest),
        3 => split_of(alloc, rest),
        4 => settled_of(rest),
        _ => Err(Stop::Left(bytes.len())),
    }
}

/// So many posts, and the bytes after them.
fn post_list(
    alloc: Global,
    width: PriceWidth,
    count: u16,
    bytes: &[u8],
) -> Result<(Vec<Post>, &[u8]), Stop>
    ensures { Gives (λ x. (x.0.items, x.1.now)) result (times (post_at width) count bytes.now) }
{
    let mut list = Vec::new(alloc);
    let mut rest = bytes;
    for _ in 0..count {
        let (item, after) = post_of(alloc, width, rest)?;
        list.push(item)?;
        rest = after;
    }
    Ok((list, rest))
}

/// A number of posts and the posts, and the bytes after them.
#[tactic(auto, unfolding(crate::specs::Reading::posts_at))]
fn posts_of(alloc: Global, width: PriceWidth, bytes: &[u8]) -> Result<(Vec<Post>, &[u8]), Stop>
    ensures { Gives (λ x. (x.0.items, x.1.now)) result (posts_at width bytes.now) }
{
    let (count, rest) = u16_of(bytes)?;
    post_list(alloc, width, count, rest)
}

/// The posts that all of the bytes spell.
fn all_of(alloc: Global, width: PriceWidth, bytes: &[u8]) -> Result<Vec<Post>, Stop>
    ensures { Gives (λ x. x.items) result (whole width bytes.now) }
{
    let (posts, rest) = posts_of(alloc, width, bytes)?;
    if !rest.is_empty() {
        return Err(Stop::Left(rest.len()));
    }
    Ok(posts)
}

/// The posts that all of the bytes spell, or where the bytes depart from every spelling.
fn posts_or_offset(alloc: Global, width: PriceWidth, bytes: &[u8]) -> Result<Vec<Post>, CodecFault>
    ensures { IsRead result (reading width bytes.now) }
{
    match all_of(alloc, width, bytes) {
        Ok(posts) => Ok(posts),
        Err(Stop::Memory) => Err(CodecFault::NoMemory),
        Err(Stop::Left(left)) => Err(CodecFault::Departs {
            at: bytes.len().saturating_sub(left) as u64,
        }),
    }
}

/// The posts that the bytes spell with prices of that width, all of the bytes, in their order.
///
/// `Departs` comes exactly where the bytes spell no posts, unless memory runs out before. Its offset is that of the first
/// field that isn't whole, of the first tag of no kind of post, or of the first byte after the last post: the bytes up to it
/// are whole fields of the spelling of some posts, and no more of the bytes are. Whether the numbers of a post make sense
/// isn't judged. The work grows with the number of bytes.
pub fn read_by(alloc: Global, width: PriceWidth, bytes: &[u8]) -> Result<Vec<Post>, CodecFault>
    // What is read is spelled so.
    ensures found { IfOk result (λ posts. SpellsBy width bytes.now posts.items) }
    // What is spelled so is read, unless memory runs out.
    ensures only { (posts : List APost) → SpellsBy width bytes.now posts → GivesPosts result posts }
    // Else the fault is where the bytes depart from every spelling.
    ensures fault { IfErr result (IsFaultOf width bytes.now) }
{
    posts_or_offset(alloc, width, bytes)
}

/// The posts that the bytes spell as journals keep them, with prices of five bytes, as [`read_by`] reads them.
pub fn read(alloc: Global, bytes: &[u8]) -> Result<Vec<Post>, CodecFault>
    // What is read is spelled so.
    ensures found { IfOk result (λ posts. Spells bytes.now posts.items) }
    // What is spelled so is read, unless memory runs out.
    ensures only { (posts : List APost) → Spells bytes.now posts → GivesPosts result posts }
    // Else the fault is where the bytes depart from every spelling.
    ensures fault { IfErr result (IsFaultOf Five bytes.now) }
{
    read_by(alloc, PriceWidth::Five, bytes)
}

/// The posts that the bytes spell as journals of the first version kept them, with prices of eight bytes, as [`read_by`] reads
/// them.
pub fn read_v1(alloc: Global, bytes: &[u8]) -> Result<Vec<Post>, CodecFault>
    // What is read is spelled so.
    ensures found { IfOk result (λ posts. SpellsBy Eight bytes.now posts.items) }
    // What is spelled so is read, unless memory runs out.
    ensures only { (posts : List APost) → SpellsBy Eight bytes.now posts → GivesPosts result posts }
    // Else the fault is where the bytes depart from every spelling.
    ensures fault { IfErr result (IsFaultOf Eight bytes.now) }
{
    read_by(alloc, PriceWidth::Eight, bytes)
}
