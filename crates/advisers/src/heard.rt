//! What an adviser keeps of what it was told.
ghost use Rattle.std.specs.Prelude.{◌≡◌};
ghost use Rattle.advisers.specs.Hearing.{after, unheard};

use advice::Told;

/// How often an adviser was told something, and what it was told last.
#[derive(Clone, Copy, Drop)]
pub struct Heard {
    /// How often. At its type's end the number stands still.
    pub told: u64,
    /// What it was told last.
    pub last: Option<Told>,
}

impl Heard {
    /// Nothing was told yet.
    pub fn nothing() -> Heard
        ensures { result ≡ unheard }
    {
        Heard {
            told: 0,
            last: None,
        }
    }

    /// Something more is told.
    pub fn hear(&mut self, news: &Told)
        ensures { self.new ≡ after self.old news.now }
    {
        self.told = self.told.saturating_add(1);
        self.last = Some(*news);
    }
}
