//! The way along a ray of prices to its top.

use break_rules::NoMemory;
use std::cmp::OrderedFloat;

/// Where a shift begins to earn more than it costs, along a ray: the factor, what it earns at factor 1, and its number.
#[derive(Clone, Copy)]
pub(crate) struct Corner {
    pub(crate) factor: f64,
    pub(crate) worth: f64,
    pub(crate) shift: u16,
}

/// A part of a shift that a solution uses.
#[derive(Clone, Copy)]
pub(crate) struct Share {
    pub(crate) shift: u16,
    pub(crate) part: f64,
    /// Whether it must be used.
    pub(crate) forced: bool,
}

/// The factor at the top of a ray of a slope that falls at each corner, at most `most`; adds the shifts that are used there.
pub(crate) fn top(
    corners: &mut Vec<Corner>,
    shares: &mut Vec<Share>,
    slope: f64,
    most: f64,
) -> Result<f64, NoMemory> {
    if slope <= 0.0 {
        return Ok(0.0);
    }
    corners.sort_unstable_by_key(|c| OrderedFloat(c.factor));
    let mut rest = slope;
    for corner in corners.iter() {
        if most <= corner.factor {
            break;
        }
        let part = (rest / corner.worth).min(1.0);
        shares.push(Share {
            shift: corner.shift,
            part,
            forced: false,
        })?;
        rest -= corner.worth;
        if rest <= 0.0 {
            return Ok(corner.factor);
        }
    }
    Ok(most)
}
