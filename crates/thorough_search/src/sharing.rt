//! How climbs and the search for plans share the time of a worker, by counted work.

/// A unit of the work on plans takes about as long as so many units of a climb's work.
const PLAN_UNIT: u64 = 5;

/// The work on plans in which none need be found at first: a second, about.
const PATIENCE: u64 = 80_000_000;

/// The most work on plans at one advice whose climb takes less time than that.
const SLICE: u64 = 4_000_000;

/// The work on plans that takes about as long as so much work of a climb.
pub(crate) fn plan_work(climbed: u64) -> u64 {
    climbed / PLAN_UNIT
}

/// What was allowed and done so far, and when a cheaper plan came last.
#[derive(Clone, Copy)]
pub(crate) struct Sharing {
    /// The work on plans that was allowed so far.
    allowed: u64,
    /// The work of climbs for which it was allowed.
    climbed: u64,
    /// The work on plans when a cheaper one was found, or taken from another worker.
    gained: u64,
}

impl Sharing {
    /// Nothing was done yet.
    pub(crate) fn new() -> Sharing {
        Sharing {
            allowed: 0,
            climbed: 0,
            gained: 0,
        }
    }

    /// Notes that a cheaper plan came after so much work on plans.
    pub(crate) fn gain(&mut self, planned: u64) {
        self.gained = planned;
    }

    /// Whether plans get cheaper still: the last cheaper one came in the latter half of the work on them, or not long before.
    fn is_gaining(self, planned: u64) -> bool {
        planned < PATIENCE.saturating_add(self.gained.saturating_mul(2))
    }

    /// Allows work on plans for the climbs since the last time, and gives how much of all that was allowed is due, after so much work of
    /// climbs and on plans. Plans may have three times as long as climbs while they get cheaper, and twice as long later; at one
    /// time they get at most as long as the climbs since the last time took, or a slice. A greater effort than 1 gets as many slices,
    /// and a slice less at least.
    pub(crate) fn due(&mut self, climbed: u64, planned: u64, effort: u32) -> u64 {
        let climb = plan_work(climbed.saturating_sub(self.climbed));
        self.climbed = climbed;
        let share = if self.is_gaining(planned) {
            climb.saturating_mul(3)
        } else {
            climb.saturating_mul(2)
        };
        self.allowed = self.allowed.saturating_add(share);
        let slices = SLICE.saturating_mul(u64::from(effort));
        let due = self.allowed.saturating_sub(planned).min(slices.max(climb));
        due.max(slices.saturating_sub(SLICE))
    }
}
