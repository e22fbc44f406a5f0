//! The marginal prices of slots.
ghost use Rattle.std.specs.Prelude.{◌≡◌, ◌<◌, IfOk};
ghost use Rattle.shift_instance.specs.Problem.{slots};
ghost use Rattle.greedy.specs.Greedy.{marginal_price, marginal_prices};

use break_rules::NoMemory;
use rota_cost::Cover;
use shift_instance::Instance;
use std::alloc::Global;

/// The marginal price of a slot where that many duties work.
fn marginal_price(instance: &Instance, t: usize, working: u32) -> i64
    requires { t < slots instance.now }
    ensures { result ≡ marginal_price instance.now t working }
{
    let (excess, shortage, _) = instance.weights();
    if working < instance.need(t) {
        i64::from(shortage)
    } else if working < instance.need_max(t) {
        0
    } else {
        -i64::from(excess)
    }
}

/// The marginal prices of all slots under a plan.
pub(crate) fn marginal_prices(
    alloc: Global,
    instance: &Instance,
    cover: &Cover,
) -> Result<Vec<i64>, NoMemory>
    requires { cover.now.instance ≡ instance.now }
    ensures { IfOk result (λ prices. prices.items ≡ marginal_prices instance.now cover.now.duties) }
{
    let mut prices = Vec::new(alloc);
    for t in 0..instance.slots() {
        prices.push(marginal_price(instance, t, cover.working(t)))?;
    }
    Ok(prices)
}
