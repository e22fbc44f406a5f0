//! Moves of a boundary of several used shifts at once: of starts and ends that lie close together.

use crate::changes::Heads;
use crate::search::PlanSearch;
use advice::Stop;
use break_rules::NoMemory;
use shift_tables::ShiftTables;

/// The most slots by which a boundary moves.
const FARTHEST: usize = 6;

/// The slots behind its first one in which starts and ends belong to a boundary are fewer than these.
const WIDEST: usize = 12;

/// The starts and ends of shifts from a slot of the day to one some slots behind it, and by how many slots they move.
#[derive(Clone, Copy)]
struct Boundary {
    from: usize,
    width: usize,
    by: u16,
    is_later: bool,
}

/// A used shift that becomes another one, and its duties by day.
#[derive(Clone, Copy)]
pub(crate) struct Successor {
    shift: u16,
    other: u16,
    heads: Heads,
}

impl Boundary {
    /// Where a start or an end of a shift lies once the boundary has moved.
    fn moved(self, tables: &ShiftTables, time: u16) -> u16 {
        let day = tables.day_slots;
        let behind = usize::from(time).wrapping_add(day).wrapping_sub(self.from);
        if self.width < behind.checked_rem(day).unwrap_or(0) {
            time
        } else if self.is_later {
            time.saturating_add(self.by)
        } else {
            time.saturating_sub(self.by)
        }
    }
}

impl<S: Stop + Drop> PlanSearch<S> {
    /// A boundary that an end of a shift belongs to: three times in five the slot of that end alone.
    fn some_boundary(&mut self, tables: &ShiftTables, shift: u16) -> Option<Boundary> {
        let place = *tables.shifts.get(usize::from(shift))?;
        let time = if self.chance.is_once_in(2) {
            place.start.saturating_add(place.len)
        } else {
            place.start
        };
        let width = if self.chance.below(5) < 3 {
            0
        } else {
            self.chance.below(WIDEST)
        };
        let before = self.chance.below(width.saturating_add(1));
        let day = tables.day_slots;
        let from = usize::from(time).wrapping_add(day).wrapping_sub(before);
        let by = self.chance.below(FARTHEST).saturating_add(1);
        Some(Boundary {
            from: from.checked_rem(day).unwrap_or(0),
            width,
            by: u16::try_from(by).unwrap_or(0),
            is_later: self.chance.is_once_in(2),
        })
    }

    /// What a used shift becomes where a boundary moves: none where it stays, or where there is no such shift.
    fn successor(&mut self, tables: &ShiftTables, shift: u16, boundary: Boundary) -> Option<u16> {
        let place = *tables.shifts.get(usize::from(shift))?;
        let end = place.start.saturating_add(place.len);
        let moved_start = boundary.moved(tables, place.start);
        let moved_end = boundary.moved(tables, end);
        if moved_start == place.start && moved_end == end {
            return None;
        }
        self.count(tables.usable.len() / 8);
        self.usable_between(tables, moved_start, moved_end)
    }

    /// Lists what the used shifts become where a boundary moves.
    fn list_successors(
        &mut self,
        tables: &ShiftTables,
        boundary: Boundary,
    ) -> Result<(), NoMemory> {
        self.successors.clear();
        for k in 0..self.plan.used.len() {
            let Some(shift) = self.plan.used.get(k).copied() else {
                break;
            };
            if let Some(other) = self.successor(tables, shift, boundary) {
                self.successors.push(Successor {
                    shift,
                    other,
                    heads: [0; 7],
                })?;
            }
        }
        Ok(())
    }

    /// Takes the duties of the shifts out that become others.
    fn drop_predecessors(&mut self, tables: &ShiftTables) -> Result<(), NoMemory> {
        for k in 0..self.successors.len() {
            let Some(successor) = self.successors.get(k).copied() else {
                break;
            };
            let heads = self.drop_shift(tables, successor.shift)?;
            if let Some(place) = self.successors.get_mut(k) {
                place.heads = heads;
            }
        }
        Ok(())
    }

    /// The starts and ends of used shifts that lie at an end of one of them, or close to it, move together.
    pub(crate) fn move_boundary(
        &mut self,
        tables: &ShiftTables,
        shift: u16,
    ) -> Result<(), NoMemory> {
        let Some(boundary) = self.some_boundary(tables, shift) else {
            return Ok(());
        };
        self.list_successors(tables, boundary)?;
        self.drop_predecessors(tables)?;
        let strict = self.chance.is_once_in(2);
        for k in 0..self.successors.len() {
            if let Some(found) = self.successors.get(k).copied() {
                self.put_heads(tables, found.other, &found.heads, strict)?;
            }
        }
        Ok(())
    }
}
