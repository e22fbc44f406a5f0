//! The best break list of one duty more.
ghost use Rattle.std.specs.Prelude.{◌≡◌, ◌+◌, ◌*◌, ◌<◌, ◌≤◌, ◌++◌, ◌∷◌, [], IfOk, IfSome, IsTrue, List, MatchOption, false, length, ◌≤ℤ◌, ◌+ℤ◌, pos, ℕ};
ghost use Rattle.std.specs.Option.{option_map};
ghost use Rattle.break_rules.specs.declared.Break.{Break};
ghost use Rattle.shift_instance.specs.Problem.{shift_list, slots};
ghost use Rattle.shift_instance.specs.Rota.{cost, is_list_of, rota_of};
ghost use Rattle.greedy.specs.Greedy.{best_list, duty, marginal_price, marginal_prices};
ghost use Rattle.greedy.specs.Sizes.{ArePrices, IsWithin};
ghost use Rattle.local_moves.specs.Moves.{fee};

use break_rules::{Breaks, NoMemory};
use local_moves::Draft;
use patterns::Pattern;
use pricing::best_pattern;
use shift_instance::Instance;

/// The marginal price of a slot where that many duties work.
pub(crate) fn marginal_price(instance: &Instance, t: usize, working: u32) -> i64
    requires { t < slots instance.now }
    ensures { result ≡ marginal_price instance.now t working }
{
    let (excess, shortage, _) = instance.weights();
    if working < instance.need(t) {
        i64::from(shortage)
    } else if working < instance.need_max(t) {
        0
    } else {
        -i64::from(excess)
    }
}

/// The marginal prices of all slots under a plan.
fn marginal_prices(instance: &Instance, draft: &Draft) -> Result<Vec<i64>, NoMemory>
    requires { draft.now.instance ≡ instance.now }
    ensures prices { IfOk result (λ prices. prices.items ≡ marginal_prices instance.now (rota_of draft.now.rows)) }
    ensures small { IfOk result (λ prices. ArePrices instance.now prices.items) }
{
    let mut prices = Vec::new(draft.allocator());
    for t in 0..instance.slots() {
        prices.push(marginal_price(instance, t, draft.working(t)))?;
    }
    Ok(prices)
}

/// What a shift costs that the plan doesn't use yet, and 0 where it uses it.
fn fee(instance: &Instance, draft: &Draft, shift: u16) -> u32
    requires instance { draft.now.instance ≡ instance.now }
    requires shift { shift < length (shift_list instance.now) }
    ensures fee { result ≡ fee instance.now (rota_of draft.now.rows) shift }
    ensures few { result ≤ 1000000 }
{
    let (_, _, weight) = instance.weights();
    if draft.duties_of(instance, shift) == 0 {
        weight
    } else {
        0
    }
}

/// What a plan costs with one duty more that earns `value` at its marginal prices.
fn cost_with(instance: &Instance, draft: &Draft, shift: u16, value: i64) -> u64
    requires instance { draft.now.instance ≡ instance.now }
    requires shift { shift < length (shift_list instance.now) }
    requires small { IsWithin (2016 * 1000000) value }
    requires value { value ≤ℤ pos (cost instance.now (rota_of draft.now.rows) + fee instance.now (rota_of draft.now.rows) shift) }
    ensures { pos result +ℤ value ≡ pos (cost instance.now (rota_of draft.now.rows) + fee instance.now (rota_of draft.now.rows) shift) }
{
    let cost = draft.cost() as i64;
    let fee = i64::from(fee(instance, draft, shift));
    let left = cost + fee - value;
    left as u64
}

/// The legal break list with which one duty more of a shift on a day costs least, and what the plan costs with that duty;
/// of several such lists the least. `None` where no list of the shift is legal.
pub fn best_duty(
    instance: &Instance,
    draft: &Draft,
    shift: u16,
    day: u8,
) -> Result<Option<(Breaks, u64)>, NoMemory>
    requires instance { draft.now.instance ≡ instance.now }
    requires shift { shift < length (shift_list instance.now) }
    ensures list { IfOk result (λ found. option_map (λ b. b.0) found ≡ best_list instance.now (marginal_prices instance.now (rota_of draft.now.rows)) shift day) }
    ensures cost { IfOk result (λ found. MatchOption found ((list : List Break) → is_list_of instance.now shift list ≡ false) (λ b. b.1 ≡ cost instance.now (rota_of draft.now.rows ++ duty shift day b.0 ∷ []))) }
    ensures legal { IfOk result (λ found. IfSome found (λ b. IsTrue (is_list_of instance.now shift b.0))) }
    ensures least { IfOk result (λ found. IfSome found (λ b. (list : List Break) → IsTrue (is_list_of instance.now shift list) → b.1 ≤ cost instance.now (rota_of draft.now.rows ++ duty shift day list ∷ []))) }
{
    let prices = marginal_prices(instance, draft)?;
    match best_pattern(draft.allocator(), instance, shift, day, &prices, &[])? {
        Some((pattern, value)) => {
            let Pattern { list, .. } = pattern;
            let earned = value as i64;
            let cost = cost_with(instance, draft, shift, earned);
            Ok(Some((list, cost)))
        }
        None => Ok(None),
    }
}
