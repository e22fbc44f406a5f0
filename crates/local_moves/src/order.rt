//! The order of rows.
ghost use Rattle.std.specs.Prelude.{◌≡◌};
ghost use Rattle.shift_instance.specs.Rota.{is_before, same_duty, duty_of};
ghost use Rattle.shift_instance.specs.AllDuties.{row_of};

use break_rules::is_less_list;
use shift_instance::{Duty, Row};

/// Whether a row comes before a duty: by shift, then by day, then by break list.
pub(crate) fn is_before(row: &Row, duty: &Duty) -> bool
    ensures { result ≡ is_before row.now (row_of duty.now 1) }
{
    if row.shift != duty.shift {
        return row.shift < duty.shift;
    }
    if row.day != duty.day {
        return row.day < duty.day;
    }
    is_less_list(row.breaks.as_slice(), duty.breaks.as_slice())
}

/// Whether a row has this duty.
pub(crate) fn is_of(row: &Row, duty: &Duty) -> bool
    ensures { result ≡ same_duty (duty_of row.now) duty.now }
{
    row.shift == duty.shift && row.day == duty.day && row.breaks.is_same(&duty.breaks)
}

/// Whether two duties are the same.
pub(crate) fn is_same(a: &Duty, b: &Duty) -> bool
    ensures { result ≡ same_duty a.now b.now }
{
    a.shift == b.shift && a.day == b.day && a.breaks.is_same(&b.breaks)
}
