//! The separate checker of certificates: it goes through the proof lines one after another, and evaluates each by walks and
//! tables of its own: along the graph of a shift, and by layers where none is kept.
#![tactic(auto)]

mod batches;
mod below;
mod checking;
mod findings;
mod floors;
mod judged;
mod judging;
mod layers;
mod nodes;
mod prices;
mod rests;
mod settled;
mod terms;
mod tree;
mod walks;

pub use checking::{check, check_by};
pub use judged::{Accepted, Refused};
