//! The break list with which one duty more gains most.

use crate::chance::Chance;
use break_rules::NoMemory;
use shift_tables::{Pauses, ShiftTables};
use std::alloc::Global;
use working_plan::{FREE, FULL, Levels};

/// The most slots of a shift.
const WINDOW: usize = 288;

/// From how many places noise is taken.
const TURNS: usize = 256;

/// What a walk along a graph of break lists reads and writes.
#[derive(Drop)]
pub(crate) struct Walk {
    /// The prices before each offset of a window.
    sums: Vec<f64>,
    /// What the best rest behind each node of a graph earns.
    values: Vec<f64>,
    /// Small numbers that are added to prices, so that equals are told apart at random.
    noise: Vec<f64>,
}

/// Numbers from 0 to below 1 / 256, in eighths of that.
fn noise(alloc: Global, chance: &mut Chance) -> Result<Vec<f64>, NoMemory> {
    let mut list = Vec::new(alloc);
    for _ in 0..TURNS + WINDOW {
        let eighths = u32::try_from(chance.below(8)).unwrap_or(0);
        list.push(f64::from(eighths) / 2048.0)?;
    }
    Ok(list)
}

/// What one employee more gains in a slot, by its byte.
fn price_of(tables: &ShiftTables, byte: u8) -> f64 {
    if byte == FULL {
        -tables.excess
    } else if byte == FREE {
        0.0
    } else {
        tables.shortage
    }
}

/// Lays the sums of the prices of a window, by its bytes.
fn lay_sums(sums: &mut [f64], tables: &ShiftTables, bytes: &[u8], noise: &[f64]) {
    let mut sum = 0.0;
    for ((place, byte), extra) in sums.iter_mut().skip(1).zip(bytes).zip(noise) {
        sum += price_of(tables, *byte) + *extra;
        *place = sum;
    }
}

impl Walk {
    /// What walks along the graphs of an instance need.
    pub(crate) fn new(
        alloc: Global,
        tables: &ShiftTables,
        chance: &mut Chance,
    ) -> Result<Walk, NoMemory> {
        Ok(Walk {
            sums: vec![in alloc; 0.0; WINDOW + 1]?,
            values: vec![in alloc; 0.0; tables.most_nodes()]?,
            noise: noise(alloc, chance)?,
        })
    }

    /// The break list with which one duty more of a shift on a day gains most, one of these at random; none where the shift's graph isn't
    /// kept.
    pub(crate) fn best_list(
        &mut self,
        tables: &ShiftTables,
        levels: &Levels,
        chance: &mut Chance,
        shift: u16,
        day: usize,
    ) -> Option<Pauses> {
        let graph = tables.graph(shift)?;
        let len = tables.len_of(shift);
        let noise = self.noise.get(chance.below(TURNS)..).unwrap_or(&[]);
        let bytes = levels.bytes(tables.base(shift, day), len);
        lay_sums(&mut self.sums, tables, bytes, noise);
        let sums = self.sums.get(..len.saturating_add(1)).unwrap_or(&[]);
        let _ = graph.best_value(sums, &mut self.values);
        graph.best_list(sums, &self.values)
    }
}
