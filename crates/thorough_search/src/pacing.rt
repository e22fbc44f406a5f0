//! How much more work a step gets where a search is to last as long as it was asked to, by counted bytes and counted work.

/// What the steps of a search by one worker may take.
#[derive(Clone, Copy, PartialEq, Eq)]
pub struct Budget {
    /// The bytes that they may have in a journal.
    pub bytes: u64,
    /// The seconds that they are to last.
    pub seconds: u32,
}

/// The work on plans of a second, about.
const SECOND: u64 = 80_000_000;

/// The most hundredths that count of those by which the bytes are ahead of the time.
const AHEAD_MOST: u64 = 10;

/// The bytes of a price in a journal.
const PRICE: u64 = 5;

/// The bytes of a step beside its prices, about.
const BESIDE: u64 = 64;

/// What a search may take, and what it has taken of that.
#[derive(Clone, Copy)]
pub(crate) struct Pacing {
    budget: Option<Budget>,
    bytes: u64,
}

/// How many hundredths of a whole a part is.
fn hundredths(part: u64, whole: u64) -> u64 {
    part.saturating_mul(100) / whole.max(1)
}

impl Pacing {
    /// The pace of a search that has taken nothing of its budget. Without a budget each step gets as much work as the next.
    pub(crate) fn new(budget: Option<Budget>) -> Pacing {
        Pacing { budget, bytes: 0 }
    }

    /// Counts the bytes of a step with so many prices.
    pub(crate) fn count(&mut self, prices: usize) {
        let step = PRICE.saturating_mul(prices as u64).saturating_add(BESIDE);
        self.bytes = self.bytes.saturating_add(step);
    }

    /// How often the work of a usual step the next one gets, after so much work: twice as often for each hundredth of the bytes that was
    /// taken beyond as many hundredths of the time.
    pub(crate) fn effort(self, work: u64) -> u32 {
        let Some(budget) = self.budget else {
            return 1;
        };
        let taken = hundredths(self.bytes, budget.bytes);
        let whole = SECOND.saturating_mul(u64::from(budget.seconds));
        let passed = hundredths(work, whole).min(100);
        let ahead = taken.saturating_sub(passed).min(AHEAD_MOST);
        1 << (ahead as u32)
    }
}
