//! The stop of a search that has a time.

ghost use Rattle.std.specs.Prelude.{true};

use crate::progress::Progress;
use advice::Stop;
use std::sync::Arc;
use std::time::Clock;

/// Asks a search to stop once its time is over, or that without a cheaper plan, or as soon as someone has asked for its end.
#[derive(Clone, Drop)]
pub struct Until<R: Clock + Clone + Drop> {
    progress: Arc<Progress>,
    rt: R,
}

impl<R: Clock + Clone + Drop> Until<R> {
    /// The stop of the search with that progress, by that clock.
    pub fn new(progress: Arc<Progress>, rt: R) -> Until<R> {
        Until { progress, rt }
    }
}

impl<R: Clock + Clone + Drop> Stop for Until<R> {
    ghost can_ask = { λ until. true };

    /// Whether the time is over, or that without a cheaper plan, someone has asked for the end, or the clock gives no time.
    fn is_asked(&self) -> bool {
        self.progress.is_over(&self.rt)
    }
}
