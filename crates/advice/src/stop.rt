//! Whether a search is asked to stop.
ghost use Rattle.std.specs.Prelude.{◌≡◌, Bool, false, true};

/// Something that may ask a search to stop. Whether it does, and when that is seen, is left open.
pub trait Stop {
    /// Whether it may ever ask.
    ghost can_ask: { Self → Bool };

    /// Whether it asks now. One that can't ask answers no.
    fn is_asked(&self) -> bool
        ensures allowed { result ≡ true → can_ask self.now ≡ true };
}

/// The stop that never asks.
#[derive(Clone, Copy)]
pub struct Never;

impl Stop for Never {
    ghost can_ask = { λ never. false };

    /// Whether it asks now: it never does.
    fn is_asked(&self) -> bool {
        false
    }
}
