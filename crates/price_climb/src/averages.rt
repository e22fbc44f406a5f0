//! The average of the solutions that a climb went through.

use crate::climb::Climb;

/// Mixes a list with nothing, with the weight of the nothing.
fn fade(list: &mut [f64], weight: f64) {
    for x in list.iter_mut() {
        *x *= 1.0 - weight;
    }
}

/// The weight of the second of two lists in the mixture of them that is shortest, at least a tenth of `most` and at most `most`.
fn shortest_mixture(first: &[f64], second: &[f64], most: f64) -> f64 {
    let mut along = 0.0;
    let mut apart = 0.0;
    for (a, b) in first.iter().zip(second) {
        along += *a * (*a - *b);
        apart += (*a - *b) * (*a - *b);
    }
    if 0.0 < apart {
        (along / apart).max(most * 0.1).min(most)
    } else {
        most
    }
}

impl Climb {
    /// Mixes the last solution into the averages, with a weight.
    pub(crate) fn mix(&mut self, weight: f64) {
        fade(&mut self.parts, weight);
        fade(&mut self.heads, weight);
        for share in &self.shares {
            if let Some(x) = self.parts.get_mut(usize::from(share.shift)) {
                *x += weight * share.part;
            }
        }
        for (place, heads) in &self.chosen {
            if let Some(x) = self.heads.get_mut(*place) {
                *x += weight * *heads;
            }
        }
        let scanned = self.parts.len().saturating_add(self.heads.len());
        self.values.count_work(scanned);
    }

    /// Mixes the last violations into the direction, with the weight that makes it shortest, at least a tenth of `most` and at
    /// most `most`; gives the weight.
    pub(crate) fn turn(&mut self, most: f64) -> f64 {
        let weight = shortest_mixture(&self.direction, &self.violations, most);
        for (a, b) in self.direction.iter_mut().zip(&self.violations) {
            *a = (1.0 - weight) * *a + weight * *b;
        }
        weight
    }
}
