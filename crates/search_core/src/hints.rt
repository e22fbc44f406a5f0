//! Prices for a node below the one that they were posted for.
use break_rules::NoMemory;
use head_splits::{CutPrices, Prices};

/// These prices, with the price 0 for each of so many cuts more.
pub(crate) fn deepened(prices: &Prices, below: usize) -> Result<Prices, NoMemory> {
    let Prices { q, slots, cuts } = prices.clone()?;
    let mut cuts = cuts.into_vec();
    for _ in 0..below {
        cuts.push(0)?;
    }
    Ok(Prices {
        q,
        slots,
        cuts: CutPrices::new(cuts),
    })
}
