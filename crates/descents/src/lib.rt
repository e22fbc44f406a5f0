//! Plans that no move makes cheaper, plans made more even, the duty that is best to add, and an adviser that makes the greedy
//! plan cheaper by moves.
#![tactic(auto)]

mod best;
mod descending;
mod descent;
mod evening;

pub use best::best_duty;
pub use descending::{descend, descended};
pub use descent::Descent;
pub use evening::{even_out, evened, unevenness};
