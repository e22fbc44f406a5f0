//! Plans that keep more duties of another plan and cost no more, the choice between two of them, and the adviser whose plans do so.
#![tactic(auto)]

mod adviser;
mod choosing;
mod days;
mod keeping;
mod placing;
mod sends;
mod trades;

pub use adviser::Keeping;
pub use choosing::least_changed;
pub use keeping::with_more_kept;
pub use placing::{placed_of, plan_of, rows_of};
pub use sends::sent;
