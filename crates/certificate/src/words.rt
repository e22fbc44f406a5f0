//! The words of a line, read. Each function is told how many bytes are left where the line begins, and says so where the text
//! has no value.
ghost use Rattle.std.specs.Prelude.{◌≡◌, ◌<◌, ◌≤◌, ◌==◌, length, IfOk, IfSome, option_map};
ghost use Rattle.certificate.specs.Reading.{number_or_dash, status_in, allows_cost, cost_in, allows_bound, bound_in, go_together, count_in};
ghost use Rattle.certificate.specs.Words.{Finds, cut_at, begins_number, plain_number, number_in, behind, break_in, breaks_in, row_in, parts_in};
ghost use Rattle.std.specs.List.{position};

use crate::CertStatus;
use break_rules::{Break, Breaks};
use memchr::memchr;
use post_codec::Stop;
use shift_instance::Row;
use std::alloc::Global;
use std::str;

/// The place of the first such byte.
fn place(by: u8, text: &[u8]) -> Option<usize>
    ensures place { result ≡ position (λ b. b == by) text.now }
    ensures within { IfSome result (λ at. at < length text.now) }
{
    memchr(by, text)
}

/// The text before the first such byte, and the text behind it.
pub(crate) fn cut(by: u8, text: &[u8]) -> Option<(&[u8], &[u8])>
    ensures { option_map (λ x. (x.0.now, x.1.now)) result ≡ cut_at by text.now }
{
    match place(by, text) {
        Some(at) => {
            let (front, rest) = text.split_at(at);
            Some((front, &rest[1..]))
        }
        None => None,
    }
}

/// The text before the first such byte, and the text behind it, if there is one.
pub(crate) fn sides(by: u8, text: &[u8], left: usize) -> Result<(&[u8], &[u8]), Stop>
    ensures { Finds (λ x. (x.0.now, x.1.now)) left result (cut_at by text.now) }
{
    match cut(by, text) {
        Some(sides) => Ok(sides),
        None => Err(Stop::Left(left)),
    }
}

/// Whether a text begins as a number does: with a digit, which stands alone where it is 0.
fn may_begin(text: &[u8]) -> bool
    ensures { result ≡ begins_number text.now }
{
    match text {
        [] => false,
        [only] => only.is_ascii_digit(),
        [first, ..] => first.is_ascii_digit() && *first != b'0',
    }
}

/// The number that a text is in decimal.
fn number_of(text: &[u8]) -> Option<u64>
    ensures { result ≡ plain_number text.now }
{
    if !may_begin(text) {
        return None;
    }
    match str::from_utf8(text) {
        Ok(text) => text.parse::<u64>().ok(),
        Err(_) => None,
    }
}

/// The number that a text is in decimal, up to a limit.
pub(crate) fn number(text: &[u8], most: u64, left: usize) -> Result<u64, Stop>
    ensures found { Finds (λ n. n) left result (number_in most text.now) }
    ensures small { IfOk result (λ n. n ≤ most) }
{
    match number_of(text) {
        Some(n) => {
            if n <= most {
                Ok(n)
            } else {
                Err(Stop::Left(left))
            }
        }
        None => Err(Stop::Left(left)),
    }
}

/// The text behind a beginning, if it begins so.
pub(crate) fn text_behind<'a>(front: &[u8], text: &'a [u8]) -> Option<&'a [u8]>
    ensures { option_map (λ x. x.now) result ≡ behind front.now text.now }
{
    text.strip_prefix(front)
}

/// The text behind a beginning.
pub(crate) fn rest_behind<'a>(front: &[u8], text: &'a [u8], left: usize) -> Result<&'a [u8], Stop>
    ensures { Finds (λ x. x.now) left result (behind front.now text.now) }
{
    match text_behind(front, text) {
        Some(rest) => Ok(rest),
        None => Err(Stop::Left(left)),
    }
}

/// A number up to a limit, or none for `-`.
#[tactic(auto, unfolding(crate::specs::Reading::number_or_dash))]
fn number_if_any(text: &[u8], most: u64, left: usize) -> Result<Option<u64>, Stop>
    ensures { Finds (λ n. n) left result (number_or_dash most text.now) }
{
    if text == b"-".as_slice() {
        return Ok(None);
    }
    let number = number(text, most, left)?;
    Ok(Some(number))
}

/// A break.
#[tactic(auto, unfolding(crate::specs::Words::break_in))]
fn break_of(text: &[u8], left: usize) -> Result<Break, Stop>
    ensures { Finds (λ b. b) left result (break_in text.now) }
{
    let (start, len) = sides(b'+', text, left)?;
    let start = number(start, 65535, left)?;
    let len = number(len, 65535, left)?;
    Ok(Break {
        start: start as u16,
        len: len as u16,
    })
}

/// Breaks with commas between them.
fn break_list(alloc: Global, text: &[u8], left: usize) -> Result<Vec<Break>, Stop>
    ensures { Finds (λ v. v.items) left result (parts_in break_in text.now) }
{
    let mut list = Vec::new(alloc);
    let mut rest = text;
    while let Some((word, after)) = cut(b',', rest) {
        list.push(break_of(word, left)?)?;
        rest = after;
    }
    list.push(break_of(rest, left)?)?;
    Ok(list)
}

/// Breaks, which are none for `-`.
#[tactic(auto, unfolding(crate::specs::Words::breaks_in))]
pub(crate) fn breaks_of(alloc: Global, text: &[u8], left: usize) -> Result<Breaks, Stop>
    ensures { Finds (λ bs. bs) left result (breaks_in text.now) }
{
    if text == b"-".as_slice() {
        return Ok(Breaks::new(Vec::new(alloc)));
    }
    let list = break_list(alloc, text, left)?;
    Ok(Breaks::new(list))
}

/// The row of a line.
#[tactic(auto, unfolding(crate::specs::Words::row_in))]
pub(crate) fn row_of(alloc: Global, line: &[u8], left: usize) -> Result<Row, Stop>
    ensures { Finds (λ r. r) left result (row_in line.now) }
{
    let text = rest_behind(b"row ".as_slice(), line, left)?;
    let (shift, text) = sides(b' ', text, left)?;
    let shift = number(shift, 65535, left)?;
    let (day, text) = sides(b' ', text, left)?;
    let day = number(day, 255, left)?;
    let (count, text) = sides(b' ', text, left)?;
    let count = number(count, 65535, left)?;
    let breaks = breaks_of(alloc, text, left)?;
    Ok(Row {
        shift: shift as u16,
        day: day as u8,
        breaks,
        count: count as u16,
    })
}

/// The status of a line.
#[tactic(auto, unfolding(crate::specs::Reading::status_in))]
pub(crate) fn status_of(line: &[u8], left: usize) -> Result<CertStatus, Stop>
    ensures { Finds (λ s. s) left result (status_in line.now) }
{
    let text = rest_behind(b"status ".as_slice(), line, left)?;
    if text == b"optimal".as_slice() {
        return Ok(CertStatus::Optimal);
    }
    if text == b"stopped".as_slice() {
        return Ok(CertStatus::Stopped);
    }
    if text == b"bound".as_slice() {
        return Ok(CertStatus::Bound);
    }
    Err(Stop::Left(left))
}

/// Whether a status allows a cost.
fn may_cost(status: CertStatus, cost: Option<u64>) -> bool
    ensures { result ≡ allows_cost status cost }
{
    match (status, cost) {
        (CertStatus::Optimal, Some(_)) => true,
        (CertStatus::Stopped, Some(cost)) => 0 < cost,
        (CertStatus::Bound, None) => true,
        _ => false,
    }
}

/// The cost of a line, one that the status allows.
#[tactic(auto, unfolding(crate::specs::Reading::cost_in))]
pub(crate) fn cost_of(status: CertStatus, line: &[u8], left: usize) -> Result<Option<u64>, Stop>
    ensures { Finds (λ c. c) left result (cost_in status line.now) }
{
    let text = rest_behind(b"cost ".as_slice(), line, left)?;
    let cost = number_if_any(text, u64::MAX, left)?;
    if may_cost(status, cost) {
        Ok(cost)
    } else {
        Err(Stop::Left(left))
    }
}

/// Whether a status allows a bound with a cost.
fn may_bound(status: CertStatus, cost: Option<u64>, bound: u64) -> bool
    ensures { result ≡ allows_bound status cost bound }
{
    match (status, cost) {
        (CertStatus::Optimal, Some(cost)) => cost == bound,
        (CertStatus::Stopped, Some(cost)) => bound < cost,
        (CertStatus::Bound, None) => true,
        _ => false,
    }
}

/// The bound of a line, one that the status allows with the cost.
#[tactic(auto, unfolding(crate::specs::Reading::bound_in))]
pub(crate) fn bound_of(
    status: CertStatus,
    cost: Option<u64>,
    line: &[u8],
    left: usize,
) -> Result<u64, Stop>
    ensures { Finds (λ b. b) left result (bound_in status cost line.now) }
{
    let text = rest_behind(b"bound ".as_slice(), line, left)?;
    let bound = number(text, u64::MAX, left)?;
    if may_bound(status, cost, bound) {
        Ok(bound)
    } else {
        Err(Stop::Left(left))
    }
}

/// The number of rows of a line, which is there exactly where a cost is.
#[tactic(auto, unfolding(crate::specs::Reading::count_in))]
pub(crate) fn count_of(cost: Option<u64>, line: &[u8], left: usize) -> Result<Option<u64>, Stop>
    ensures { Finds (λ c. c) left result (count_in cost line.now) }
{
    let text = rest_behind(b"rows ".as_slice(), line, left)?;
    let count = number_if_any(text, 4294967295, left)?;
    match (cost, count) {
        (Some(_), Some(_)) | (None, None) => Ok(count),
        _ => Err(Stop::Left(left)),
    }
}
