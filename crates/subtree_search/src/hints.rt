//! What a search below some cuts knows already of a node.
use crate::node::SearchNode;
use break_rules::NoMemory;
use certificate::Line;
use head_splits::{CutPrices, Hint, Prices};
use rota_cost::Costed;
use shift_instance::Rows;
use std::alloc::Global;

/// These prices, with the price 0 for each cut more that a node has.
fn deepened(prices: &Prices, cuts: usize) -> Result<Prices, NoMemory> {
    let Prices {
        q,
        slots,
        cuts: known,
    } = prices.clone()?;
    let mut all = known.into_vec();
    for _ in all.len()..cuts {
        all.push(0)?;
    }
    Ok(Prices {
        q,
        slots,
        cuts: CutPrices::new(all),
    })
}

/// The prices of the proof line that priced the node or, where none did, the nearest node above it.
fn last_prices(node: &SearchNode, lines: &[Line]) -> Result<Option<Prices>, NoMemory> {
    let Some(at) = node.priced_by() else {
        return Ok(None);
    };
    match lines.get(at) {
        Some(Line::Priced { node: _, prices }) => { Ok(Some(deepened(prices, node.cuts().len())?)) }
        _ => Ok(None),
    }
}

/// The rows of the best rota, and none where there is none.
fn rows_of(alloc: Global, best: &Option<Costed>) -> Result<Rows, NoMemory> {
    match best {
        Some(best) => Ok(best.rows().clone()?),
        None => Ok(Rows::new(Vec::new(alloc))),
    }
}

/// What is known already of a node: the prices last found for it or above it, and the best rota.
pub(crate) fn hint_of(
    alloc: Global,
    node: &SearchNode,
    lines: &[Line],
    best: &Option<Costed>,
) -> Result<Hint, NoMemory> {
    Ok(Hint {
        prices: last_prices(node, lines)?,
        rows: rows_of(alloc, best)?,
    })
}
