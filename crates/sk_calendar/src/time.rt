//! Calendar times by their text.

ghost use Rattle.std.specs.Prelude.{◌≡◌, ◌^◌, ℤ, pos, ◌+ℤ◌, ◌-ℤ◌, ◌*ℤ◌, Some, None, IfSome, MatchOption};
ghost use Rattle.sk_calendar.specs.Calendar.{SpellsCalendarTime};
ghost use Rattle.sk_calendar.specs.Reading.{parts_of as parts_of_text};
ghost use Rattle.sk_calendar.specs.Meaning.{AreNarrow, IsTimeOf};

use crate::clock::{ClockParts, clock_at};
use crate::date::{DateParts, date_at};
use sk_decimal::Fixed;

/// A second, in 10^-18 s.
const SECOND: i128 = 1_000_000_000_000_000_000;

/// What the text of a calendar time says.
#[derive(Clone, Copy)]
pub struct TimeParts {
    pub date: DateParts,
    pub clock: ClockParts,
}

/// The parts of a text, by their form alone.
fn parts_of(text: &[u8]) -> Option<TimeParts>
    ensures value { result ≡ parts_of_text text.now }
    ensures narrow { IfSome result (λ parts. AreNarrow parts.date) }
{
    let Some((date, rest)) = date_at(text) else {
        return None;
    };
    let Some(clock) = clock_at(rest) else {
        return None;
    };
    Some(TimeParts { date, clock })
}

/// The whole seconds from noon of 2000-01-01 to a second of a day.
fn seconds_past(day: i32, sod: u32) -> i64
    ensures { result ≡ day *ℤ pos 86400 -ℤ pos 43200 +ℤ pos sod }
{
    i64::from(day) * 86400 - 43200 + i64::from(sod)
}

/// So many seconds and a part of a second, in 10^-18 s.
fn units_of(seconds: i64, sub: u64) -> i128
    ensures { result ≡ seconds *ℤ pos (10 ^ 18) +ℤ pos sub }
{
    i128::from(seconds) * SECOND + i128::from(sub)
}

/// The time that the parts mean, where they mean one.
fn meant(parts: TimeParts) -> Option<Fixed<18>>
    requires { AreNarrow parts.date }
    ensures { MatchOption result ((time : ℤ) → ¬ IsTimeOf parts time) (λ time. IsTimeOf parts time.units) }
{
    let Some(day) = parts.date.day() else {
        return None;
    };
    let Some(sod) = parts.clock.second_of_day() else {
        return None;
    };
    Some(Fixed {
        units: units_of(seconds_past(day, sod), parts.clock.sub),
    })
}

/// The calendar time that the text spells, in seconds past 2000-01-01 12:00:00 of the Gregorian calendar with days of
/// 86,400 s: no leap second is counted (NAIF SCLK Required Reading, "SCLK01 coefficients"; NAIF Kernel Required
/// Reading, "Variable Value Rules"). The text is that of a kernel's date without its `@`: a date of the years 1600 to
/// 2399 as `YYYY-MM-DD`, `YYYY-MON-DD`, `DD-MON-YYYY` or `YYYY-DDD`, alone or with one of `-`, `/`, `T`, `t` and `:`
/// and a time of day as `HH:MM`, `HH:MM:SS` or `HH:MM:SS.F`, F of 1 to 18 digits. A day beside a month's name has one
/// or two digits; the name is its first three letters, in either case. `None` exactly where the text is none of these.
pub fn read_calendar_time(text: &[u8]) -> Option<Fixed<18>>
    ensures { MatchOption result ((time : ℤ) → ¬ SpellsCalendarTime text.now time) (λ time. SpellsCalendarTime text.now time.units) }
{
    match parts_of(text) {
        None => None,
        Some(parts) => meant(parts),
    }
}
