//! The numbers that stand in a UTC's text.

ghost use Rattle.std.specs.Prelude.{◌≡◌, ◌+◌, ◌*◌, ◌^◌, ◌<◌, ◌≤◌, length, List, ℕ, IfSome, IfNone, Some, None, MatchOption};
ghost use Rattle.std.specs.Char.{is_ascii_digit};
ghost use Rattle.std.specs.List.{prefix_len};
ghost use Rattle.sk_decimal.specs.Reading.{digits_at, behind_digits};
ghost use Rattle.sk_leap.specs.Reading.{picoseconds_of, is_zone as is_zone_text, fraction_at as fraction_in_front, calendar_at as calendar_in_front, ordinal_at as ordinal_in_front, date_behind as date_behind_year, date_at as date_in_front, clock_at as clock_in_front, parts_of as parts_of_text};
ghost use Rattle.sk_leap.specs.Meaning.{AreNarrow, IsDayOf, IsSecondOf};
ghost use Rattle.std.specs.Prelude.{ℤ};

use crate::date::{day_of, ordinal_day};
use crate::digits::{marked_number, number_at, number_of};

/// A date of the calendar, or a place in a year.
#[derive(Clone, Copy)]
pub enum DateParts {
    Calendar(u32, u32, u32),
    Ordinal(u32, u32),
}

/// A time of day.
#[derive(Clone, Copy)]
pub struct ClockParts {
    pub hour: u32,
    pub minute: u32,
    pub second: u32,
}

/// What a UTC's text says.
#[derive(Clone, Copy)]
pub struct UtcParts {
    pub date: DateParts,
    pub clock: ClockParts,
    pub sub: u64,
}

/// The picoseconds that the digits of a fraction give.
fn picoseconds(digits: &[u8]) -> Option<u64>
    ensures value { result ≡ picoseconds_of digits.now }
    ensures small { IfSome result (λ sub. sub < 10 ^ 12) }
{
    if digits.is_empty() || digits.len() > 12 {
        return None;
    }
    match number_of(digits) {
        None => None,
        Some(number) => Some(number * 10u64.pow(12 - digits.len() as u32)),
    }
}

fn is_zone(bytes: &[u8]) -> bool
    ensures { result ≡ is_zone_text bytes.now }
{
    match bytes {
        [] => true,
        [first, rest @ ..] => *first == b'Z' && rest.is_empty(),
    }
}

/// How many digits stand in front.
fn digit_count(bytes: &[u8]) -> usize
    ensures { result ≡ prefix_len is_ascii_digit bytes.now }
{
    for (i, byte) in bytes.iter().enumerate() {
        if !byte.is_ascii_digit() {
            return i;
        }
    }
    bytes.len()
}

/// The digits in front, and what stands behind them.
fn split_digits(bytes: &[u8]) -> (&[u8], &[u8])
    ensures digits { result.0.now ≡ digits_at bytes.now }
    ensures rest { result.1.now ≡ behind_digits bytes.now }
{
    let count = digit_count(bytes);
    bytes.split_at(count)
}

/// The picoseconds that the end of a text gives: nothing or a fraction, and then nothing or `Z`.
fn fraction_at(bytes: &[u8]) -> Option<u64>
    ensures value { result ≡ fraction_in_front bytes.now }
    ensures small { IfSome result (λ sub. sub < 10 ^ 12) }
{
    match bytes {
        [b'.', rest @ ..] => {
            let (digits, zone) = split_digits(rest);
            if is_zone(zone) {
                picoseconds(digits)
            } else {
                None
            }
        }
        _ => { if is_zone(bytes) { Some(0) } else { None } }
    }
}

fn calendar_at(year: u32, bytes: &[u8]) -> Option<(DateParts, &[u8])>
    requires { year ≤ 9999 }
    ensures none { IfNone result (calendar_in_front year bytes.now ≡ None) }
    ensures some { IfSome result (λ front. calendar_in_front year bytes.now ≡ Some (front.0, front.1.now)) }
    ensures narrow { IfSome result (λ front. AreNarrow front.0) }
{
    let Some((month, rest)) = marked_number(bytes, b'-', 2) else {
        return None;
    };
    let Some((date, rest)) = marked_number(rest, b'-', 2) else {
        return None;
    };
    Some((DateParts::Calendar(year, month, date), rest))
}

fn ordinal_at(year: u32, bytes: &[u8]) -> Option<(DateParts, &[u8])>
    requires { year ≤ 9999 }
    ensures none { IfNone result (ordinal_in_front year bytes.now ≡ None) }
    ensures some { IfSome result (λ front. ordinal_in_front year bytes.now ≡ Some (front.0, front.1.now)) }
    ensures narrow { IfSome result (λ front. AreNarrow front.0) }
{
    let Some((place, rest)) = marked_number(bytes, b'-', 3) else {
        return None;
    };
    Some((DateParts::Ordinal(year, place), rest))
}

/// The date in front, as `YYYY-MM-DD` or `YYYY-DDD`, and what stands behind it.
fn date_at(bytes: &[u8]) -> Option<(DateParts, &[u8])>
    ensures none { IfNone result (date_in_front bytes.now ≡ None) }
    ensures some { IfSome result (λ front. date_in_front bytes.now ≡ Some (front.0, front.1.now)) }
    ensures narrow { IfSome result (λ front. AreNarrow front.0) }
{
    let Some((year, rest)) = number_at(bytes, 4) else {
        return None;
    };
    match calendar_at(year, rest) {
        Some(date) => Some(date),
        None => ordinal_at(year, rest),
    }
}

/// The time of day in front, as `Thh:mm:ss`, and what stands behind it.
fn clock_at(bytes: &[u8]) -> Option<(ClockParts, &[u8])>
    ensures none { IfNone result (clock_in_front bytes.now ≡ None) }
    ensures some { IfSome result (λ front. clock_in_front bytes.now ≡ Some (front.0, front.1.now)) }
{
    let Some((hour, rest)) = marked_number(bytes, b'T', 2) else {
        return None;
    };
    let Some((minute, rest)) = marked_number(rest, b':', 2) else {
        return None;
    };
    let Some((second, rest)) = marked_number(rest, b':', 2) else {
        return None;
    };
    let clock = ClockParts {
        hour,
        minute,
        second,
    };
    Some((clock, rest))
}

/// The parts of a UTC's text, by their digits alone.
pub fn parts_of(text: &[u8]) -> Option<UtcParts>
    ensures value { result ≡ parts_of_text text.now }
    ensures narrow { IfSome result (λ parts. AreNarrow parts.date) }
    ensures small { IfSome result (λ parts. parts.sub < 10 ^ 12) }
{
    let Some((date, rest)) = date_at(text) else {
        return None;
    };
    let Some((clock, rest)) = clock_at(rest) else {
        return None;
    };
    let Some(sub) = fraction_at(rest) else {
        return None;
    };
    Some(UtcParts { date, clock, sub })
}

impl DateParts {
    /// The day, where the calendar has it; years begin at 1.
    pub fn day(self) -> Option<i32>
        requires { AreNarrow self }
        ensures { MatchOption result ((day : ℤ) → ¬ IsDayOf self day) (IsDayOf self) }
    {
        match self {
            DateParts::Calendar(year, month, date) => {
                if year == 0 {
                    return None;
                }
                day_of(year, month, date)
            }
            DateParts::Ordinal(year, place) => {
                if year == 0 {
                    return None;
                }
                ordinal_day(year, place)
            }
        }
    }
}

impl ClockParts {
    /// The time of day of a second; second 86400 is 23:59:60.
    pub fn of(sod: u32) -> ClockParts
        requires { sod ≤ 86400 }
        ensures { IsSecondOf result sod }
    {
        if sod == 86400 {
            return ClockParts {
                hour: 23,
                minute: 59,
                second: 60,
            };
        }
        ClockParts {
            hour: sod / 3600,
            minute: sod / 60 % 60,
            second: sod % 60,
        }
    }

    /// The second of the day; 60 is a second of the minute 23:59 alone.
    pub fn second_of_day(self) -> Option<u32>
        ensures { MatchOption result ((sod : ℕ) → ¬ IsSecondOf self sod) (IsSecondOf self) }
    {
        let last_minute = self.hour == 23 && self.minute == 59;
        if self.hour > 23 || self.minute > 59 {
            return None;
        }
        if self.second > 59 && !(last_minute && self.second == 60) {
            return None;
        }
        Some(self.hour * 3600 + self.minute * 60 + self.second)
    }
}
