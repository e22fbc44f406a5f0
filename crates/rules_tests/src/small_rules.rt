//! A rule that was worked out by hand, and the parts of rules.
ghost use Rattle.break_rules.specs.Ranges.{IsRule};

use break_rules::{Break, Lunch, NoMemory, Rule, Totals};
use std::alloc::Global;
use std::process::Abort;

/// A break of one slot.
pub fn short(start: u16) -> Break {
    Break { start, len: 1 }
}

/// A lunch of one slot from 8 slots on, between two offsets.
pub fn window(first: u16, last: u16) -> Lunch {
    Lunch {
        from_len: 8,
        size: 1,
        first,
        last,
    }
}

/// One break of one slot in a shift of 8 slots, between work of 2 to 5 slots.
pub fn eighth(alloc: Global) -> Result<Rule, NoMemory> {
    let totals = Vec::from_slice(alloc, &[(8, 1)])?;
    let mut rule = Rule::plain(alloc)?;
    (rule.lead, rule.tail) = (2, 2);
    (rule.work_min, rule.work_max, rule.long_work) = (2, 5, 5);
    rule.size_max = 1;
    rule.totals = Totals::new(totals);
    Ok(rule)
}

/// Stops the test where the rule isn't well formed.
pub fn judge(rt: &impl Abort, rule: &Rule)
    ensures { IsRule rule.now }
{
    assert!(rt; rule.check().is_ok());
}
