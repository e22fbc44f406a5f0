//! The adviser that always advises the same prices.
ghost use Rattle.std.specs.Prelude.{◌≡◌, ◌≤◌, ◌+◌, ◌-◌, ◌^◌, IfOk, Some, length, min};
ghost use Rattle.advisers.specs.Advised.{fixed_advice};
ghost use Rattle.advisers.specs.Hearing.{after, unheard};

use crate::heard::Heard;
use advice::{Advice, Adviser, Ask, Told};
use break_rules::NoMemory;
use head_splits::{CutPrices, Prices, SlotPrices};
use shift_instance::Instance;
use std::alloc::Global;
use std::marker::Model;

/// The adviser that advises the same scale and the same prices of slots for each node, no plan and no split.
///
/// Contracts see the scale, the prices of the slots, and what the adviser was told.
#[derive(Drop)]
pub struct Fixed {
    alloc: Global,
    q: u16,
    slots: Vec<i64>,
    heard: Heard,
}

impl Model for Fixed {
    ghost use Rattle.advisers.specs.Hearing.{FixedPrices};

    ghost Value = { FixedPrices };

    ghost view = { λ f. record { q = f.q; slots = f.slots.items; heard = f.heard } };
}

impl Fixed {
    /// An adviser that advises this scale and these prices of slots, which may be of any number and size. It takes no
    /// memory.
    pub fn new(alloc: Global, q: u16, slots: Vec<i64>) -> Fixed
        ensures { result ≡ record { q = q; slots = slots.items; heard = unheard } }
    {
        Fixed {
            alloc,
            q,
            slots,
            heard: Heard::nothing(),
        }
    }
}

impl Adviser for Fixed {
    ghost told = { λ f. f.heard.told };

    ghost last = { λ f. f.heard.last };

    /// Advises the scale and the prices of slots that the adviser was made with, price 0 for each cut, no plan and no
    /// split.
    fn advise(&mut self, _instance: &Instance, ask: &Ask) -> Result<Advice, NoMemory>
        ensures advice { IfOk result (λ advice. advice ≡ fixed_advice self.old.q self.old.slots ask.now.cuts) }
        ensures same { self.new ≡ self.old }
    {
        let slots = self.slots.clone()?;
        let cuts = vec![in self.alloc; 0; ask.cuts.len()]?;
        let prices = Prices {
            q: self.q,
            slots: SlotPrices::new(slots),
            cuts: CutPrices::new(cuts),
        };
        Ok(Advice {
            prices,
            plan: None,
            split: None,
        })
    }

    /// Tells the adviser what became of a step.
    fn learn(&mut self, news: &Told)
        ensures { self.new ≡ record { q = self.old.q; slots = self.old.slots; heard = after self.old.heard news.now } }
    {
        self.heard.hear(news);
    }
}
