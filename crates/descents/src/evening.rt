//! Moves that make a plan more even by other breaks, and never dearer.
ghost use Rattle.std.specs.Prelude.{◌≡◌, ◌+◌, ◌<◌, ◌≤◌, ℕ, All, IfOk, IsTrue, MatchBool, OnOk, length, unsigned_abs};
ghost use Rattle.shift_instance.specs.Problem.{shift_list, slots};
ghost use Rattle.shift_instance.specs.Rota.{are_legal_rows, cost, heads_on, rota_of};
ghost use Rattle.descents.specs.Evening.{IsEvenedBy, IsEvener, distance_from_band, squared_distance, unevenness};

use crate::best::marginal_price;
use crate::descending::{copy_of, duty_of, refused};
use break_rules::{Breaks, NoMemory};
use local_moves::{Draft, Move};
use patterns::Pattern;
use pricing::best_pattern;
use shift_instance::{Duty, Instance, Row, Rows};
use std::alloc::{AllocError, Global};

/// The largest price that a slot may have.
const MOST_PRICE: i64 = 10_000_000_000;

/// The part of it that stands for costs; the rest is for evenness.
const COST_PART: i64 = 9_000_000_000;

/// How far a number of duties is from the band of a slot.
fn distance_from_band(instance: &Instance, t: usize, working: u32) -> u32
    requires { t < slots instance.now }
    ensures { result ≡ distance_from_band instance.now t working }
{
    let (least, most) = (instance.need(t), instance.need_max(t));
    if working < least {
        least - working
    } else {
        working.saturating_sub(most)
    }
}

/// The square of how far a number of duties is from the band of a slot.
fn squared_distance(instance: &Instance, t: usize, working: u32) -> u128
    requires { t < slots instance.now }
    ensures square { result ≡ squared_distance instance.now t working }
    ensures small { result ≤ 18446744073709551616 }
{
    let distance = u64::from(distance_from_band(instance, t, working));
    u128::from(distance * distance)
}

/// How uneven a plan is: over all slots, the square of how far the duties that work in a slot are from its band. It takes no memory.
pub fn unevenness(instance: &Instance, draft: &Draft) -> u128
    requires { draft.now.instance ≡ instance.now }
    ensures { result ≡ unevenness instance.now (rota_of draft.now.rows) }
{
    let mut sum = 0;
    for t in 0..instance.slots() {
        sum += squared_distance(instance, t, draft.working(t));
    }
    sum
}

/// How much more a cost of 1 counts than evenness.
fn factor(instance: &Instance) -> i64 {
    let (excess, shortage, _) = instance.weights();
    COST_PART / i64::from(excess.max(shortage).max(1))
}

/// How much nearer one duty more brings a slot to its band where that many work, in squares of the distance.
fn nearer(instance: &Instance, t: usize, working: u32) -> i64
    requires { t < slots instance.now }
{
    let (least, most) = (instance.need(t), instance.need_max(t));
    if least <= working && working < most {
        return 0;
    }
    let end = if working < least { least } else { most };
    let missing = i64::from(end) - i64::from(working);
    2 * missing - 1
}

/// The price of a slot where that many duties work: what one more saves there, by the factor, and how much more even it makes the
/// slot.
fn even_price(instance: &Instance, t: usize, working: u32, factor: i64) -> i64
    requires { t < slots instance.now }
    ensures { unsigned_abs result ≤ 10000000000 }
{
    let saved = marginal_price(instance, t, working).saturating_mul(factor);
    let price = saved.saturating_add(nearer(instance, t, working));
    price.clamp(-MOST_PRICE, MOST_PRICE)
}

/// The prices of all slots, by cost first and then by evenness.
fn even_prices(instance: &Instance, draft: &Draft) -> Result<Vec<i64>, NoMemory>
    requires { draft.now.instance ≡ instance.now }
    ensures count { IfOk result (λ prices. length prices.items ≡ slots instance.now) }
    ensures small { IfOk result (λ prices. All (λ p. unsigned_abs p ≤ 10000000000) prices.items) }
{
    let factor = factor(instance);
    let mut prices = Vec::new(draft.allocator());
    for t in 0..instance.slots() {
        prices.push(even_price(instance, t, draft.working(t), factor))?;
    }
    Ok(prices)
}

/// The break list with which one duty more of a shift on a day saves most, and makes the plan most even among those that
/// save as much; `None` where no list of the shift is legal.
fn even_list(
    instance: &Instance,
    draft: &Draft,
    shift: u16,
    day: u8,
) -> Result<Option<Breaks>, NoMemory>
    requires instance { draft.now.instance ≡ instance.now }
    requires shift { shift < length (shift_list instance.now) }
{
    let prices = even_prices(instance, draft)?;
    match best_pattern(draft.allocator(), instance, shift, day, &prices, &[])? {
        Some((pattern, _value)) => {
            let Pattern { list, .. } = pattern;
            Ok(Some(list))
        }
        None => Ok(None),
    }
}

/// The break list to try in place of a duty's own; `None` where the duty isn't there or its own is the one.
fn other_list(
    instance: &Instance,
    draft: &mut Draft,
    duty: &Duty,
) -> Result<Option<Breaks>, NoMemory>
    requires instance { draft.old.instance ≡ instance.now }
    requires shift { duty.now.shift < length (shift_list instance.now) }
    ensures kept { OnOk result (draft.new ≡ draft.old) }
{
    let step = Move::Drop {
        shift: duty.shift,
        day: duty.day,
        breaks: copy_of(draft.allocator(), &duty.breaks)?,
    };
    let done = match draft.apply(instance, &step) {
        Ok(done) => done,
        Err(fault) => {
            refused(fault)?;
            return Ok(None);
        }
    };
    let list = even_list(instance, draft, duty.shift, duty.day)?;
    match draft.undo(instance, done) {
        Ok(()) => Ok(list),
        Err(_done) => Err(AllocError),
    }
}

/// Gives a duty other breaks where that makes the plan more even and no dearer, and says whether it did.
fn even_with(
    instance: &Instance,
    draft: &mut Draft,
    duty: &Duty,
    to: Breaks,
) -> Result<bool, NoMemory>
    requires instance { draft.old.instance ≡ instance.now }
    ensures instance { OnOk result (draft.new.instance ≡ draft.old.instance) }
    ensures evener { IfOk result (λ b. MatchBool b (IsEvener instance.now (rota_of draft.old.rows) (rota_of draft.new.rows)) (draft.new ≡ draft.old)) }
{
    let step = Move::Rebreak {
        shift: duty.shift,
        day: duty.day,
        from: copy_of(draft.allocator(), &duty.breaks)?,
        to,
    };
    let cost = draft.cost();
    let uneven = unevenness(instance, draft);
    let done = match draft.apply(instance, &step) {
        Ok(done) => done,
        Err(fault) => {
            refused(fault)?;
            return Ok(false);
        }
    };
    if draft.cost() <= cost && unevenness(instance, draft) < uneven {
        return Ok(true);
    }
    match draft.undo(instance, done) {
        Ok(()) => Ok(false),
        Err(_done) => Err(AllocError),
    }
}

/// Whether a row stands among others, whatever their counts are.
fn is_among(others: &Rows, row: &Row) -> bool {
    for other in others.as_slice() {
        if other.shift == row.shift
            && other.day == row.day
            && other.breaks.as_slice() == row.breaks.as_slice()
        {
            return true;
        }
    }
    false
}

/// Gives a duty of a row that isn't among fixed ones other breaks where that makes the plan more even and no dearer, and says whether it did.
fn even_row(
    instance: &Instance,
    draft: &mut Draft,
    k: usize,
    fixed: &Rows,
) -> Result<bool, NoMemory>
    requires instance { draft.old.instance ≡ instance.now }
    ensures instance { OnOk result (draft.new.instance ≡ draft.old.instance) }
    ensures evener { IfOk result (λ b. MatchBool b (IsEvener instance.now (rota_of draft.old.rows) (rota_of draft.new.rows)) (draft.new ≡ draft.old)) }
{
    let rows = draft.rows().as_slice();
    if rows.len() <= k {
        return Ok(false);
    }
    let row = &rows[k];
    if is_among(fixed, row) {
        return Ok(false);
    }
    let duty = duty_of(draft.allocator(), row)?;
    match other_list(instance, draft, &duty)? {
        Some(to) => even_with(instance, draft, &duty, to),
        None => Ok(false),
    }
}

/// Goes through the rows of a plan that aren't among fixed ones once and takes moves that make it more even, at most `left` of them, which
/// counts down.
fn even_rows(
    instance: &Instance,
    draft: &mut Draft,
    left: &mut u16,
    fixed: &Rows,
) -> Result<(), NoMemory>
    requires instance { draft.old.instance ≡ instance.now }
    ensures evened { OnOk result (IsEvenedBy instance.now draft.old draft.new left.old left.new) }
{
    let count = draft.rows().len();
    for k in 0..count {
        if *left == 0 {
            return Ok(());
        }
        if even_row(instance, draft, k, fixed)? {
            *left -= 1;
        }
    }
    Ok(())
}

/// Gives duties other breaks, one after another, for as long as that makes the plan more even and no dearer, at most `rounds`
/// times, and says how often it did. A row that stands among `fixed` too, whatever its count is there, is left as it is.
pub fn even_out(
    instance: &Instance,
    draft: &mut Draft,
    rounds: u16,
    fixed: &Rows,
) -> Result<u16, NoMemory>
    requires instance { draft.old.instance ≡ instance.now }
    ensures instance { OnOk result (draft.new.instance ≡ draft.old.instance) }
    ensures cheap { OnOk result (cost instance.now (rota_of draft.new.rows) ≤ cost instance.now (rota_of draft.old.rows)) }
    ensures evener { IfOk result (λ moves. unevenness instance.now (rota_of draft.new.rows) + moves ≤ unevenness instance.now (rota_of draft.old.rows)) }
    ensures heads { OnOk result ((s day : ℕ) → heads_on (rota_of draft.new.rows) s day ≡ heads_on (rota_of draft.old.rows) s day) }
    ensures few { IfOk result (λ moves. moves ≤ rounds) }
{
    let mut left = rounds;
    while 0 < left {
        let before = left;
        even_rows(instance, draft, &mut left, fixed)?;
        if left == before {
            return Ok(rounds - left);
        }
    }
    Ok(rounds - left)
}

/// The rows of a legal plan after at most `rounds` moves that each made it more even and no dearer. None of them moves a duty of a row
/// that stands among `fixed` too.
pub fn evened(
    alloc: Global,
    instance: &Instance,
    rows: Rows,
    rounds: u16,
    fixed: &Rows,
) -> Result<Rows, NoMemory>
    requires { IsTrue (are_legal_rows instance.now rows) }
    ensures legal { IfOk result (λ new. IsTrue (are_legal_rows instance.now new)) }
    ensures cheap { IfOk result (λ new. cost instance.now (rota_of new) ≤ cost instance.now (rota_of rows)) }
    ensures evener { IfOk result (λ new. unevenness instance.now (rota_of new) ≤ unevenness instance.now (rota_of rows)) }
    ensures heads { IfOk result (λ new. (s day : ℕ) → heads_on (rota_of new) s day ≡ heads_on (rota_of rows) s day) }
{
    let mut draft = Draft::new(alloc, instance, rows)?;
    let _moves = even_out(instance, &mut draft, rounds, fixed)?;
    Ok(draft.into_rows())
}
