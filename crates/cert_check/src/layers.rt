//! The walk by layers, where no graph of a shift's break lists is kept.

ghost use Rattle.std.specs.Prelude.{◌≡◌, map, IfOk};

use crate::walks::Walk;
use break_layers::{LayerValues, Way};
use break_rules::{Break, NoMemory, Spot};
use std::alloc::Global;

/// A walk by layers, with what rests earn on one day.
#[derive(Drop)]
pub struct ByLayers<'a> {
    /// What rests earn behind each spot.
    pub layers: LayerValues<'a>,
}

/// The breaks of some ways, each with the spot behind it.
fn stops_with_spots(alloc: Global, ways: &[Way]) -> Result<Vec<(Break, Spot)>, NoMemory>
    ensures { IfOk result (λ pairs. pairs.items ≡ map (λ w. (w.stop, w.spot)) ways.now) }
{
    let mut pairs = Vec::with_capacity(alloc, ways.len())?;
    for way in ways {
        pairs.push((way.stop, way.spot))?;
    }
    Ok(pairs)
}

impl<'a> Walk for ByLayers<'a> {
    ghost use Rattle.cert_check.specs.Walks.{IsAtSpot};

    type Place = Spot;

    ghost stands = { λ w rule len sums spot list. IsAtSpot w.layers rule len sums spot list };

    fn spot(&self, place: Spot) -> Spot {
        place
    }

    fn value(&self, place: Spot) -> i64 {
        self.layers.value_at(place).unwrap_or(0)
    }

    fn ways(&self, alloc: Global, place: Spot) -> Result<Vec<(Break, Spot)>, NoMemory> {
        let ways = self.layers.ways(alloc, place)?;
        stops_with_spots(alloc, &ways)
    }
}
