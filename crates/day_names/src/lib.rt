//! The names of the days of a planning period: weekdays, or dates with their weekdays.
#![tactic(auto)]

ghost use Rattle.std.specs.Prelude.{◌≡◌, IfOk, length};

use jiff::civil::{Date, Weekday};
use std::alloc::{AllocError, Global};

/// What a day of a planning period is.
#[derive(Clone, Copy, Drop)]
pub enum NamedDay {
    /// A weekday, whatever its date.
    Weekday(Weekday),
    /// A date.
    Date(Date),
}

/// The name of a weekday.
fn weekday_name(weekday: Weekday) -> &'static str {
    match weekday {
        Weekday::Monday => "Monday",
        Weekday::Tuesday => "Tuesday",
        Weekday::Wednesday => "Wednesday",
        Weekday::Thursday => "Thursday",
        Weekday::Friday => "Friday",
        Weekday::Saturday => "Saturday",
        Weekday::Sunday => "Sunday",
    }
}

/// The first three letters of the name of a weekday.
fn short_weekday(weekday: Weekday) -> &'static str {
    weekday_name(weekday).get(..3).unwrap_or("")
}

impl NamedDay {
    /// The weekday that a word names in small letters, as `monday`.
    pub fn of_weekday(word: &str) -> Option<NamedDay> {
        let weekday = match word {
            "monday" => Weekday::Monday,
            "tuesday" => Weekday::Tuesday,
            "wednesday" => Weekday::Wednesday,
            "thursday" => Weekday::Thursday,
            "friday" => Weekday::Friday,
            "saturday" => Weekday::Saturday,
            "sunday" => Weekday::Sunday,
            _ => return None,
        };
        Some(NamedDay::Weekday(weekday))
    }

    /// The date that a text is, as `2026-12-01`.
    pub fn of_date(text: &str) -> Option<NamedDay> {
        match text.parse::<Date>() {
            Ok(date) => Some(NamedDay::Date(date)),
            Err(_) => None,
        }
    }

    /// The next day. The last date of all is followed by itself.
    fn next(self) -> NamedDay {
        match self {
            NamedDay::Weekday(weekday) => NamedDay::Weekday(weekday.next()),
            NamedDay::Date(date) => NamedDay::Date(date.tomorrow().unwrap_or(date)),
        }
    }

    /// The name of the day: `Tuesday`, or `Tuesday 2026-12-01`.
    fn name(self, alloc: Global) -> Result<String, AllocError> {
        match self {
            NamedDay::Weekday(weekday) => String::from_str(alloc, weekday_name(weekday)),
            NamedDay::Date(date) => {
                let weekday = weekday_name(date.weekday());
                format!(in alloc; "{weekday} {date}")
            }
        }
    }

    /// The short name of the day: `Tue`, or `Tue 12-01`.
    fn short_name(self, alloc: Global) -> Result<String, AllocError> {
        match self {
            NamedDay::Weekday(weekday) => String::from_str(alloc, short_weekday(weekday)),
            NamedDay::Date(date) => {
                let weekday = short_weekday(date.weekday());
                let (month, day) = (date.month(), date.day());
                format!(in alloc; "{weekday} {month:02}-{day:02}")
            }
        }
    }
}

/// The short names of so many days from a first one on: `Tue`, or `Tue 12-01`.
pub fn short_day_names(alloc: Global, first: NamedDay, days: u8) -> Result<Vec<String>, AllocError>
    ensures each { IfOk result (λ names. length names.items ≡ days) }
{
    let mut day = first;
    let mut names = Vec::new(alloc);
    for _ in 0..days {
        names.push(day.short_name(alloc)?)?;
        day = day.next();
    }
    Ok(names)
}

/// The names of so many days from a first one on: `Tuesday`, or `Tuesday 2026-12-01`.
pub fn day_names(alloc: Global, first: NamedDay, days: u8) -> Result<Vec<String>, AllocError>
    ensures each { IfOk result (λ names. length names.items ≡ days) }
{
    let mut day = first;
    let mut names = Vec::new(alloc);
    for _ in 0..days {
        names.push(day.name(alloc)?)?;
        day = day.next();
    }
    Ok(names)
}
