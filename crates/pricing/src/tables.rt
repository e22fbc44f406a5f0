//! The best break list of a shift on a day at prices that change.

ghost use Rattle.std.specs.Prelude.{◌≡◌, ◌^◌, ◌-◌, ◌<◌, ◌≤◌, List, ℕ, ℤ, length, false, All, IfOk, OnOk, OnErr, MatchOption};
ghost use Rattle.std.specs.Int.RustNames.{unsigned_abs};
ghost use Rattle.break_rules.specs.declared.Break.{Break};
ghost use Rattle.break_rules.specs.declared.Rule.{Rule};
ghost use Rattle.shift_instance.specs.declared.Shift.{Shift};
ghost use Rattle.shift_instance.specs.Problem.{shift_list, slots};
ghost use Rattle.shift_instance.specs.Rota.{is_list_of};
ghost use Rattle.shift_instance.specs.Worth.{IsBest};
ghost use Rattle.price_sums.specs.Along.{AreSmallPrices};
ghost use Rattle.pricing.specs.Tables.{IsShiftOf, MeanTheSame, repriced, NameNone, NameNoneAbove, AreStepsUpTo};

use crate::anew::{AtPrices, KeptSearch, changed_prices, last_change};
use crate::steps::Steps;
use crate::subject::Subject;
use break_rules::{Break, Breaks, NoMemory};
use shift_instance::Instance;
use std::alloc::Global;
use std::marker::Model;
use std::snapshot::Snapshot;
use std::sync::ledger::Ledger;

/// What is known of a shift on a day at prices and bonuses, kept while prices change: only what changed prices reach is found
/// anew. Where the instance keeps a graph of the shift, tables hold a value for each of its nodes. Where it keeps none, no
/// graph is made: tables hold the best list alone, found by layers of spots, and find it anew where a price of the shift's
/// duties on the day changed. A step of pricing is a graph node's value that is found, or a beginning of a bonus's prefix
/// from which lists go on: the making of layers counts none.
#[derive(Drop)]
pub struct Tables {
    alloc: Global,
    instance: Snapshot<Instance>,
    subject: Subject,
    prices: Vec<i64>,
    found: AtPrices,
}

impl Model for Tables {
    ghost use Rattle.pricing.specs.Tables.{Tabled};

    ghost Value = { Tabled };

    ghost use Rattle.pricing.specs.Keeping.{AreTables};

    ghost view = { λ t. record { instance = t.instance.value; shift = t.subject.shift; day = t.subject.day; prices = t.prices.items; bonus = t.subject.trie.entries } };

    ghost invariant = { λ t. AreTables (record { instance = t.instance.value; shift = t.subject.shift; day = t.subject.day; prices = t.prices.items; bonus = t.subject.trie.entries }) t.subject.beginnings t.found.kept t.found.best };
}

impl Tables {
    /// The tables of a shift on a day, at a price for each slot of the planning period, of at most 10^10 in size, and at
    /// bonuses of at most 10^12 in size. They take at most one step for each spot to which a walk from break to break leads,
    /// and one for each beginning of a bonus's prefix but the empty one.
    pub fn new<L: Ledger>(
        alloc: Global,
        instance: &Instance,
        shift: u16,
        day: u8,
        prices: &[i64],
        bonus: &[(Breaks, i64)],
        steps: &mut Steps<L>,
    ) -> Result<Tables, NoMemory>
        requires shift { shift < length (shift_list instance.now) }
        requires count { length prices.now ≡ slots instance.now }
        requires prices { AreSmallPrices prices.now }
        requires few { length bonus.now ≤ 2 ^ 33 }
        requires small { All (λ e. unsigned_abs e.1 ≤ 1000000000000) bonus.now }
        ensures tables { IfOk result (λ t. t ≡ record { instance = instance.now; shift = shift; day = day; prices = prices.now; bonus = t.bonus }) }
        ensures bonus { IfOk result (λ t. MeanTheSame t.bonus bonus.now) }
        ensures steps { (x : Shift × Rule) → IsShiftOf instance.now shift x → AreStepsUpTo x.1 x.0.len x.0.len bonus.now (steps.new - steps.old) }
    {
        let subject = Subject::new(alloc, shift, day, bonus)?;
        let prices = Vec::from_slice(alloc, prices)?;
        let len = instance.shift(shift).len;
        let kept = KeptSearch::before_all(alloc, instance, shift)?;
        let found = AtPrices::find(alloc, instance, &subject, &prices, &kept, len, steps)?;
        Ok(Tables {
            alloc,
            instance: Snapshot::of(instance),
            subject,
            prices,
            found,
        })
    }

    /// Changes the prices of some slots, later changes over earlier ones, and finds anew what they reach. It takes no step
    /// where no changed slot lies in a duty of the shift on the day, and else at most one for each spot up to the greatest
    /// changed offset to which a walk from break to break leads, and one for each beginning of a bonus's prefix but the
    /// empty one. After running out of memory nothing has changed.
    pub fn reprice<L: Ledger>(
        &mut self,
        instance: &Instance,
        changes: &[(u32, i64)],
        steps: &mut Steps<L>,
    ) -> Result<(), NoMemory>
        requires instance { self.old.instance ≡ instance.now }
        requires slots { All (λ change. change.0 < slots instance.now) changes.now }
        requires small { All (λ change. unsigned_abs change.1 ≤ 10000000000) changes.now }
        ensures prices { OnOk result (self.new ≡ record self.old { prices = repriced self.old.prices changes.now }) }
        ensures unchanged { OnErr result (self.new ≡ self.old) }
        ensures unreached { (x : Shift × Rule) → IsShiftOf instance.now self.old.shift x → NameNone instance.now x.0 self.old.day changes.now → steps.new ≡ steps.old }
        ensures steps { (x : Shift × Rule) → IsShiftOf instance.now self.old.shift x → (last : ℕ) → NameNoneAbove instance.now x.0 self.old.day changes.now last → AreStepsUpTo x.1 x.0.len last self.old.bonus (steps.new - steps.old) }
    {
        let prices = changed_prices(self.alloc, &self.prices, changes)?;
        let (shift, day) = (self.subject.shift, self.subject.day);
        let Some(last) = last_change(instance, shift, day, &self.prices, &prices) else {
            self.prices = prices;
            return Ok(());
        };
        let kept = &self.found.kept;
        let found = AtPrices::find(
            self.alloc,
            instance,
            &self.subject,
            &prices,
            kept,
            last,
            steps,
        )?;
        self.prices = prices;
        self.found = found;
        Ok(())
    }

    /// The least legal break list of greatest reduced value at the prices as they are now, with that value, as
    /// [`best_pattern`](crate::best_pattern) finds it at the bonuses that were given. `None` where no list is legal. It takes
    /// no memory.
    pub fn best(&self) -> Option<(&[Break], i128)>
        ensures { (bonus : List (List Break × ℤ)) → MeanTheSame self.now.bonus bonus → MatchOption result ((list : List Break) → is_list_of self.now.instance self.now.shift list ≡ false) (λ p. IsBest self.now.instance self.now.shift self.now.day self.now.prices bonus p.0.now p.1) }
    {
        match &self.found.best {
            Some(best) => Some((best.list.as_slice(), best.value)),
            None => None,
        }
    }
}
