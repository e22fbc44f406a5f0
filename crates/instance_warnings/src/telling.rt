//! What a planner is warned of.
use crate::relaxing::Part;
use crate::slots::Slots;

/// What a planner should know of an instance before it is searched. A `kind` is the number of a type, from 0 on.
#[derive(Drop)]
pub enum Warning {
    /// No length of a type has a legal break list, so no duty is of that type. `part` is the first part of its rule without
    /// which some length has one, if one part alone forbids them all.
    NoBreaks {
        kind: u16,
        part: Option<Part>,
    },
    /// A type has a break rule, and its shifts have no breaks, since no entry of the rule's totals holds for one of them.
    NoTotals {
        kind: u16,
    },
    /// No shift of a type has a break, and shifts of other types have.
    Breakless {
        kind: u16,
    },
    /// No legal duty works in these slots, though they have a need: every plan costs at least `least` for them.
    Unreached {
        slots: Slots,
        least: u64,
    },
    /// No slot wants an employee.
    Nobody,
    /// The most duties of one shift on one day are more than twice `need`, the greatest number of wanted employees of a slot.
    Heads {
        most: u16,
        need: u32,
    },
    /// An employee too many in a slot costs nothing.
    NoExcess,
    /// An employee too few in a slot costs nothing.
    NoShortage,
    /// A shift that is used costs nothing.
    NoShift,
    /// An employee too many costs more than one too few.
    ExcessAbove {
        excess: u32,
        shortage: u32,
    },
    /// The most duties of one shift on one day are fewer than the greatest need.
    HeadsBelow {
        most: u16,
        need: u32,
    },
    /// No shift is as long as two hours: the longest has so many slots.
    Short {
        longest: u16,
    },
    /// Starts and lengths are such as hours have, where slots are shorter, and some needs can't be met.
    LikeHours,
    /// Starts and lengths of a type, but not of all types, are such as hours have, where slots are shorter.
    TypeLikeHours {
        kind: u16,
    },
    /// A limit of a type is above the length of its longest shift, so it limits nothing.
    Beyond {
        kind: u16,
        limit: Limit,
        slots: u16,
        longest: u16,
    },
    /// The greatest length of a type's breaks, of so many slots, is above the most break time of all shifts, so it limits nothing.
    SizeBeyond {
        kind: u16,
        slots: u16,
        most: u16,
    },
    /// Shifts of a type from a length on have another break time than those that are a slot shorter.
    Parted {
        kind: u16,
        len: u16,
        before: u16,
        from: u16,
    },
    /// Shifts of a type from a length on have a lunch of that size, and shorter ones don't.
    LunchParted {
        kind: u16,
        len: u16,
        size: u16,
    },
    /// A lunch of a type is asked for from a length on that is above that of its longest shift, and no type uses it.
    LunchBeyond {
        kind: u16,
        len: u16,
        longest: u16,
    },
    /// Shifts of a type on the last day go on into the first, by so many slots at most.
    GoesRound {
        kind: u16,
        end: u32,
    },
}

/// A limit of work in a break rule.
#[derive(Clone, Copy, PartialEq, Eq, Drop)]
pub enum Limit {
    /// The longest work without a break, `work_max`.
    WorkMax,
    /// The longest work that any break may follow, `long_work`.
    LongWork,
}
