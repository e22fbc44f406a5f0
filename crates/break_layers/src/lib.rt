//! What break lists earn at most at given prices, without a graph of spots. The spots lie in layers by the break time used
//! and the lunches met, each break leads to a layer of more break time, and the breaks that may come next at a spot begin in
//! one window of offsets, or in two where the rule asks for longer breaks behind long work.
#![tactic(auto)]

mod days;
mod layers;
mod lists;
mod numbers;
mod reaching;
mod sizes;
mod values;
mod walks;
mod ways;
mod windows;

pub use days::most_by_lane;
pub use values::LayerValues;
pub use ways::Way;
