//! From tables to an instance.

use crate::cells::Grid;
use crate::need::read_need;
use crate::refusal::ImportRefusal;
use crate::rules::RuleTable;
use crate::settings::read_settings;
use crate::types::TypeTable;
use shift_instance::{Instance, Parts};
use std::alloc::Global;

/// The files of the tables of an instance, as bytes.
#[derive(Clone, Copy, Drop)]
pub struct TableBytes<'a> {
    /// The table of settings.
    pub settings: &'a [u8],
    /// The table of needs.
    pub need: &'a [u8],
    /// The table of types.
    pub types: &'a [u8],
    /// The table of break rules, if there is one.
    pub rules: Option<&'a [u8]>,
}

/// The break rules of a table, if there is one.
fn rules_of(
    alloc: Global,
    grid: Grid,
    bytes: Option<&[u8]>,
) -> Result<Option<RuleTable>, ImportRefusal> {
    match bytes {
        Some(bytes) => Ok(Some(RuleTable::read(alloc, grid, bytes)?)),
        None => Ok(None),
    }
}

/// The instance that tables state.
///
/// The settings are read first, then the needs, the break rules and the types. In each table the first line is judged first, then each
/// line in turn whether it is a row, and then each row, cell by cell. The first refusal is answered, with the table, the row, the column,
/// what stands there and what may stand there.
pub fn imported(alloc: Global, tables: &TableBytes) -> Result<Instance, ImportRefusal> {
    let settings = read_settings(alloc, tables.settings)?;
    let bands = read_need(alloc, &settings, tables.need)?;
    let rules = rules_of(alloc, settings.grid, tables.rules)?;
    let types = TypeTable::read(alloc, tables.types)?;
    let parts = Parts {
        slot_minutes: settings.grid.slot_minutes,
        days: settings.days,
        need: bands.need,
        need_max: bands.need_max,
        max_heads: settings.max_heads,
        excess: settings.excess,
        shortage: settings.shortage,
        shift: settings.shift,
        types: types.kinds(alloc, settings.grid, rules.as_ref())?,
    };
    match Instance::new(alloc, parts) {
        Ok(instance) => Ok(instance),
        Err(fault) => Err(types.refusal_of(alloc, fault)),
    }
}
