//! How many employees work in each slot beyond those that are needed there.

use break_rules::NoMemory;
use shift_tables::{PAUSES, Pauses, ShiftTables};
use std::alloc::Global;

/// The byte of a slot with as many employees as are wanted at most, or more.
pub const FULL: u8 = 1;

/// The byte of a slot with as many employees as are needed or more, but fewer than are wanted at most.
pub const FREE: u8 = 2;

/// The byte of a slot with fewer employees than are needed.
const SHORT: u8 = 0;

/// The employees of each slot less those needed, and how many more are wanted at most than are needed. A table of bytes tells the
/// full, the free and the short slots; it goes twice around the planning period, so that a window never wraps.
#[derive(Drop)]
pub struct Levels {
    off: Vec<i32>,
    widths: Vec<i32>,
    bytes: Vec<u8>,
}

/// Slots of a window in which a duty works: from the first one to the one behind the last.
#[derive(Clone, Copy)]
struct Stretch {
    from: usize,
    to: usize,
}

/// The most stretches of work of a duty: one before each break, and one behind the last.
const STRETCHES: usize = PAUSES + 1;

/// The stretches of work of a duty, from the first slot of its window on.
#[derive(Clone, Copy)]
pub struct Stretches {
    list: [Stretch; STRETCHES],
    count: usize,
}

impl Stretches {
    /// The stretches of a shift on a day with some breaks.
    pub fn of(tables: &ShiftTables, shift: u16, day: usize, pauses: &Pauses) -> Stretches {
        let base = tables.base(shift, day);
        let end = base.wrapping_add(tables.len_of(shift));
        let resettle = match tables.shifts.get(usize::from(shift)) {
            Some(place) => usize::from(place.resettle),
            None => 0,
        };
        let mut found = Stretches {
            list: [Stretch { from: 0, to: 0 }; STRETCHES],
            count: 0,
        };
        let mut from = base;
        for stop in pauses.as_slice() {
            let start = base.wrapping_add(usize::from(stop.start));
            found.push(from, start);
            from = start
                .wrapping_add(usize::from(stop.len))
                .wrapping_add(resettle);
        }
        found.push(from, end);
        found
    }

    /// Adds a stretch, unless it is empty.
    fn push(&mut self, from: usize, to: usize) {
        if from >= to {
            return;
        }
        if let Some(place) = self.list.get_mut(self.count) {
            *place = Stretch { from, to };
            self.count = self.count.wrapping_add(1);
        }
    }

    /// The stretches, in the order of time.
    fn as_slice(&self) -> &[Stretch] {
        self.list.get(..self.count).unwrap_or(&[])
    }
}

/// What a change of a duty does: in how many slots an employee was missed, or would be, and in how many one was too many. The
/// others are free without the employee, and cost the same with and without.
#[derive(Clone, Copy)]
pub struct Effect {
    /// The slots where the employee is wanted.
    pub wanted: u32,
    /// The slots that are full without the employee.
    pub spare: u32,
}

impl Effect {
    /// By how much the duty lowers the cost of the cover.
    pub fn gain(self, tables: &ShiftTables) -> f64 {
        tables.shortage * f64::from(self.wanted) - tables.excess * f64::from(self.spare)
    }

    /// Counts one slot, by its byte without the employee.
    fn count(&mut self, byte: u8) {
        if byte == SHORT {
            self.wanted = self.wanted.wrapping_add(1);
        } else if byte == FULL {
            self.spare = self.spare.wrapping_add(1);
        }
    }
}

/// The byte of a slot with that many employees more than are needed, where `width` more are wanted at most.
fn byte_of(off: i32, width: i32) -> u8 {
    if off < 0 {
        SHORT
    } else if width <= off {
        FULL
    } else {
        FREE
    }
}

/// Writes a byte at a slot and once around.
fn write_twice(list: &mut [u8], slot: usize, slots: usize, byte: u8) {
    if let Some(place) = list.get_mut(slot) {
        *place = byte;
    }
    if let Some(place) = list.get_mut(slot.wrapping_add(slots)) {
        *place = byte;
    }
}

/// How often a byte stands in a list.
pub fn count_of(list: &[u8], byte: u8) -> u32 {
    let mut sum = 0u32;
    for other in list {
        sum = sum.wrapping_add(u32::from(*other == byte));
    }
    sum
}

impl Levels {
    /// Nobody works.
    pub fn new(alloc: Global, tables: &ShiftTables) -> Result<Levels, NoMemory> {
        let slots = tables.slots;
        let twice = slots.saturating_mul(2);
        let mut levels = Levels {
            off: Vec::new(alloc),
            widths: Vec::new(alloc),
            bytes: vec![in alloc; SHORT; twice]?,
        };
        for (slot, need) in tables.need.iter().enumerate() {
            let most = tables.need_max.get(slot).copied().unwrap_or(*need);
            let off = need.wrapping_neg();
            let width = most.wrapping_sub(*need);
            levels.off.push(off)?;
            levels.widths.push(width)?;
            write_twice(&mut levels.bytes, slot, slots, byte_of(off, width));
        }
        Ok(levels)
    }

    /// Nobody works any more.
    pub fn clear(&mut self, tables: &ShiftTables) {
        for (slot, need) in tables.need.iter().enumerate() {
            self.set(slot, need.wrapping_neg());
        }
    }

    /// What the cover costs.
    pub fn cost(&self, tables: &ShiftTables) -> f64 {
        let mut cost = 0.0;
        for (off, width) in self.off.iter().zip(&self.widths) {
            let over = tables.excess * f64::from(off.wrapping_sub(*width));
            let under = -tables.shortage * f64::from(*off);
            cost += over.max(under).max(0.0);
        }
        cost
    }

    /// What the cover of a slot costs.
    fn cost_at(&self, tables: &ShiftTables, slot: usize) -> f64 {
        let off = self.off(slot);
        let width = self.widths.get(slot).copied().unwrap_or(0);
        let over = tables.excess * f64::from(off.wrapping_sub(width));
        let under = -tables.shortage * f64::from(off);
        over.max(under).max(0.0)
    }

    /// What the cover of the slots from one to the one before another costs.
    pub fn cost_between(&self, tables: &ShiftTables, from: usize, to: usize) -> f64 {
        let mut cost = 0.0;
        for slot in from..to {
            cost += self.cost_at(tables, slot);
        }
        cost
    }

    /// The slot that a place stands for, in a table that goes twice around.
    fn wrapped(&self, place: usize) -> usize {
        let slots = self.off.len();
        if place < slots {
            place
        } else {
            place.wrapping_sub(slots)
        }
    }

    /// Sets how many more employees work in a slot than are needed.
    fn set(&mut self, slot: usize, off: i32) {
        let slots = self.off.len();
        if let Some(place) = self.off.get_mut(slot) {
            *place = off;
        }
        let byte = self.byte(slot, off);
        write_twice(&mut self.bytes, slot, slots, byte);
    }

    /// How many more employees work in a slot than are needed.
    fn off(&self, slot: usize) -> i32 {
        self.off.get(slot).copied().unwrap_or(0)
    }

    /// The byte of a slot where that many employees more than are needed work.
    fn byte(&self, slot: usize, off: i32) -> u8 {
        byte_of(off, self.widths.get(slot).copied().unwrap_or(0))
    }

    /// Whether the employees of a slot aren't within its band.
    fn is_off_at(&self, slot: usize) -> bool {
        let off = self.off(slot);
        off < 0 || self.widths.get(slot).copied().unwrap_or(0) < off
    }

    /// One employee more in each slot of a stretch.
    fn raise_stretch(&mut self, stretch: Stretch, effect: &mut Effect) {
        for place in stretch.from..stretch.to {
            let slot = self.wrapped(place);
            let off = self.off(slot);
            effect.count(self.byte(slot, off));
            self.set(slot, off.wrapping_add(1));
        }
    }

    /// One employee less in each slot of a stretch.
    fn lower_stretch(&mut self, stretch: Stretch, effect: &mut Effect) {
        for place in stretch.from..stretch.to {
            let slot = self.wrapped(place);
            let off = self.off(slot).wrapping_sub(1);
            effect.count(self.byte(slot, off));
            self.set(slot, off);
        }
    }

    /// One employee more works in some stretches.
    pub fn raise(&mut self, stretches: &Stretches) -> Effect {
        let mut effect = Effect {
            wanted: 0,
            spare: 0,
        };
        for stretch in stretches.as_slice() {
            self.raise_stretch(*stretch, &mut effect);
        }
        effect
    }

    /// One employee less works in some stretches.
    pub fn lower(&mut self, stretches: &Stretches) -> Effect {
        let mut effect = Effect {
            wanted: 0,
            spare: 0,
        };
        for stretch in stretches.as_slice() {
            self.lower_stretch(*stretch, &mut effect);
        }
        effect
    }

    /// Shows a stretch as it were with one employee less, and counts what that would do.
    fn expose_stretch(&mut self, stretch: Stretch, effect: &mut Effect) {
        let slots = self.off.len();
        for place in stretch.from..stretch.to {
            let slot = self.wrapped(place);
            let byte = self.byte(slot, self.off(slot).wrapping_sub(1));
            effect.count(byte);
            write_twice(&mut self.bytes, slot, slots, byte);
        }
    }

    /// Shows the slots as they were with one employee less in some stretches, until [`Levels::cover`], and counts what that
    /// would do.
    pub fn expose(&mut self, stretches: &Stretches) -> Effect {
        let mut effect = Effect {
            wanted: 0,
            spare: 0,
        };
        for stretch in stretches.as_slice() {
            self.expose_stretch(*stretch, &mut effect);
        }
        effect
    }

    /// Shows the slots of a stretch as they are.
    fn cover_stretch(&mut self, stretch: Stretch) {
        let slots = self.off.len();
        for place in stretch.from..stretch.to {
            let slot = self.wrapped(place);
            let byte = self.byte(slot, self.off(slot));
            write_twice(&mut self.bytes, slot, slots, byte);
        }
    }

    /// Shows the slots of some stretches as they are.
    pub fn cover(&mut self, stretches: &Stretches) {
        for stretch in stretches.as_slice() {
            self.cover_stretch(*stretch);
        }
    }

    /// The byte of each slot of a window: [`FULL`], [`FREE`], or another one where it has fewer employees than are needed.
    pub fn bytes(&self, base: usize, len: usize) -> &[u8] {
        self.bytes.get(base..base.wrapping_add(len)).unwrap_or(&[])
    }

    /// Whether the employees of some slot of a window aren't within its band.
    pub fn is_off(&self, base: usize, len: usize) -> bool {
        for place in base..base.wrapping_add(len) {
            if self.is_off_at(self.wrapped(place)) {
                return true;
            }
        }
        false
    }

    /// The first slot from one on, around the planning period, whose employees aren't within its band.
    pub fn off_slot(&self, from: usize) -> Option<usize> {
        for place in from..from.wrapping_add(self.off.len()) {
            let slot = self.wrapped(place);
            if self.is_off_at(slot) {
                return Some(slot);
            }
        }
        None
    }
}
