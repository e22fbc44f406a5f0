//! Spans of time and times of day, as cells spell them.

ghost use Rattle.std.specs.Prelude.{◌<◌};

/// A span of time as it is spelled.
#[derive(Clone, Copy, Drop)]
pub(crate) struct Span {
    /// Its minutes.
    pub(crate) minutes: u64,
    /// Whether it is a whole number of hours without a colon, a point or a comma.
    pub(crate) is_bare: bool,
}

/// The most digits of a number of hours.
const DIGITS_MOST: usize = 5;

/// The number that decimal digits spell, at most so many of them.
pub(crate) fn digits(text: &str, most: usize) -> Option<u32> {
    let count = text.len();
    if count == 0 || most < count || !text.bytes().all(|byte| byte.is_ascii_digit()) {
        return None;
    }
    text.parse::<u32>().ok()
}

/// The minutes of hours and what stands behind their colon: minutes in two digits, and seconds only where they are none.
fn clock_minutes(hours: &str, behind: &str) -> Option<u64> {
    let hours = digits(hours, DIGITS_MOST)?;
    let minutes = match behind.split_once(':') {
        Some((minutes, "00")) => minutes,
        Some(_) => return None,
        None => behind,
    };
    if minutes.len() != 2 {
        return None;
    }
    let minutes = digits(minutes, 2)?;
    if 59 < minutes {
        return None;
    }
    Some(u64::from(hours) * 60 + u64::from(minutes))
}

/// What a digit of so many behind a decimal point counts, as a part of one.
fn parts_of_one(count: usize) -> u64
    ensures { 0 < result }
{
    match count {
        1 => 10,
        2 => 100,
        3 => 1_000,
        4 => 10_000,
        _ => 100_000,
    }
}

/// The minutes of hours with a decimal point, where they are whole.
fn decimal_minutes(hours: &str, behind: &str) -> Option<u64> {
    let hours = digits(hours, DIGITS_MOST)?;
    let fraction = digits(behind, DIGITS_MOST)?;
    let one = parts_of_one(behind.len());
    let parts = u64::from(fraction) * 60;
    if parts % one != 0 {
        return None;
    }
    let whole = u64::from(hours) * 60;
    Some(whole.saturating_add(parts / one))
}

/// The span of time that a text spells: `6:30`, `06:30`, `06:30:00`, `6.5`, `6,5` or `6`.
pub(crate) fn span_in(text: &str) -> Option<Span> {
    let minutes = if let Some((hours, behind)) = text.split_once(':') {
        clock_minutes(hours, behind)?
    } else if let Some((hours, behind)) = text.split_once('.') {
        decimal_minutes(hours, behind)?
    } else if let Some((hours, behind)) = text.split_once(',') {
        decimal_minutes(hours, behind)?
    } else {
        let hours = digits(text, DIGITS_MOST)?;
        return Some(Span {
            minutes: u64::from(hours) * 60,
            is_bare: hours != 0,
        });
    };
    Some(Span {
        minutes,
        is_bare: false,
    })
}
