//! What asks a search to stop once its time is over.

ghost use Rattle.std.specs.Prelude.{true};

use advice::Stop;
use std::time::Instant;

/// Asks a search to stop once its seconds are over, where it has a time, or the clock gives none.
#[derive(Clone, Drop)]
pub(crate) struct Deadline {
    rt: HostRuntime,
    began: Option<Instant>,
    seconds: Option<u64>,
}

impl Deadline {
    /// A deadline for a search that begins now.
    pub(crate) fn new(rt: HostRuntime, seconds: Option<u64>) -> Deadline {
        Deadline {
            rt,
            began: Instant::now(&rt).ok(),
            seconds,
        }
    }

    /// How many seconds there are, where the search has a time: no more than are counted by 32 bits.
    pub(crate) fn seconds(&self) -> Option<u32> {
        let seconds = self.seconds?;
        Some(u32::try_from(seconds).unwrap_or(u32::MAX))
    }
}

impl Stop for Deadline {
    ghost can_ask = { λ deadline. true };

    /// Whether the time is over, or the clock gives none.
    fn is_asked(&self) -> bool {
        let Some(seconds) = self.seconds else {
            return false;
        };
        let Some(began) = self.began else {
            return true;
        };
        match began.elapsed(&self.rt) {
            Ok(passed) => seconds <= passed.as_secs(),
            Err(_) => true,
        }
    }
}
