//! The times of day of calendar times.

ghost use Rattle.std.specs.Prelude.{◌≡◌, ◌<◌, ◌≤◌, ◌^◌, ℕ, length, IfSome, IfNone, Some, None, MatchOption};
ghost use Rattle.sk_calendar.specs.Reading.{fraction_of as fraction_of_run, fraction_at as fraction_in_front, seconds_at as seconds_in_front, minutes_at as minutes_in_front, is_separator as is_separator_byte, clock_at as clock_in_front};
ghost use Rattle.sk_calendar.specs.Meaning.{IsSecondOf};

use crate::numbers::{marked_number, number_at, run_at};

/// A time of day, and the fraction of its second in 10^-18 s.
#[derive(Clone, Copy)]
pub struct ClockParts {
    pub hour: u32,
    pub minute: u32,
    pub second: u32,
    pub sub: u64,
}

/// The fraction that so many digits give, where nothing follows them.
fn fraction_of(count: usize, number: u64, rest: &[u8]) -> Option<u64>
    requires count { count ≤ 18 }
    requires small { number < 10 ^ count }
    ensures { result ≡ fraction_of_run (count, number, rest.now) }
{
    if rest.is_empty() {
        Some(number * 10u64.pow(18 - count as u32))
    } else {
        None
    }
}

/// Nothing, or a point and the digits of a fraction.
fn fraction_at(bytes: &[u8]) -> Option<u64>
    ensures { result ≡ fraction_in_front bytes.now }
{
    match bytes {
        [] => Some(0),
        [first, rest @ ..] => {
            if *first != b'.' {
                return None;
            }
            match run_at(rest) {
                None => None,
                Some((count, number, rest)) => fraction_of(count, number, rest),
            }
        }
    }
}

/// The second and its fraction that end a text: nothing, `:SS` or `:SS.F`.
fn seconds_at(bytes: &[u8]) -> Option<(u32, u64)>
    ensures { result ≡ seconds_in_front bytes.now }
{
    if bytes.is_empty() {
        return Some((0, 0));
    }
    let Some((second, rest)) = marked_number(bytes, b':', 2) else {
        return None;
    };
    match fraction_at(rest) {
        None => None,
        Some(sub) => Some((second, sub)),
    }
}

/// The time of day whose hour was read.
fn minutes_at(hour: u32, bytes: &[u8]) -> Option<ClockParts>
    ensures { result ≡ minutes_in_front (hour, bytes.now) }
{
    let Some((minute, rest)) = marked_number(bytes, b':', 2) else {
        return None;
    };
    match seconds_at(rest) {
        None => None,
        Some((second, sub)) => Some(ClockParts {
            hour,
            minute,
            second,
            sub,
        }),
    }
}

/// What stands between a date and its time of day.
fn is_separator(byte: u8) -> bool
    ensures { result ≡ is_separator_byte byte }
{
    matches!(byte, b'-' | b'/' | b'T' | b't' | b':')
}

/// What stands behind a date: nothing, which is 0 h, or a separator and a time of day.
pub fn clock_at(bytes: &[u8]) -> Option<ClockParts>
    ensures { result ≡ clock_in_front bytes.now }
{
    match bytes {
        [] => Some(ClockParts {
            hour: 0,
            minute: 0,
            second: 0,
            sub: 0,
        }),
        [first, rest @ ..] => {
            if !is_separator(*first) {
                return None;
            }
            let Some((hour, rest)) = number_at(rest, 2) else {
                return None;
            };
            minutes_at(hour, rest)
        }
    }
}

impl ClockParts {
    /// The second of the day; there is no second 60.
    pub fn second_of_day(self) -> Option<u32>
        ensures { MatchOption result ((sod : ℕ) → ¬ IsSecondOf self sod) (IsSecondOf self) }
    {
        if self.hour > 23 || self.minute > 59 || self.second > 59 {
            return None;
        }
        Some(self.hour * 3600 + self.minute * 60 + self.second)
    }
}
