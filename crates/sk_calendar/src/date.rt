//! The dates of calendar times.

ghost use Rattle.std.specs.Prelude.{◌≡◌, ◌≤◌, ◌<◌, ◌^◌, ℤ, IfSome, IfNone, Some, None, MatchOption};
ghost use Rattle.sk_calendar.specs.Reading.{numeric_day as numeric_day_in_front, name_behind_year as name_in_front, digits_behind_year as digits_in_front, behind_year as behind_year_in_front, behind_day as behind_day_in_front, date_at as date_in_front};
ghost use Rattle.sk_calendar.specs.Meaning.{AreNarrow, IsDayOf};

use crate::days::{day_of, ordinal_day};
use crate::months::{marked_month, month_at};
use crate::numbers::{behind, marked_number, marked_short, run_at};

/// A date by its month, or a place in a year.
#[derive(Clone, Copy)]
pub enum DateParts {
    Civil(u32, u32, u32),
    Ordinal(u32, u32),
}

/// `-DD` behind year and month.
fn numeric_day(year: u32, month: u32, bytes: &[u8]) -> Option<(DateParts, &[u8])>
    requires year { year ≤ 9999 }
    requires month { month ≤ 99 }
    ensures none { IfNone result (numeric_day_in_front year (month, bytes.now) ≡ None) }
    ensures some { IfSome result (λ front. numeric_day_in_front year (month, bytes.now) ≡ Some (front.0, front.1.now)) }
    ensures narrow { IfSome result (λ front. AreNarrow front.0) }
{
    let Some((date, rest)) = marked_number(bytes, b'-', 2) else {
        return None;
    };
    Some((DateParts::Civil(year, month, date), rest))
}

/// `MON-D` or `MON-DD` behind a year.
fn name_behind_year(year: u32, bytes: &[u8]) -> Option<(DateParts, &[u8])>
    requires { year ≤ 9999 }
    ensures none { IfNone result (name_in_front year bytes.now ≡ None) }
    ensures some { IfSome result (λ front. name_in_front year bytes.now ≡ Some (front.0, front.1.now)) }
    ensures narrow { IfSome result (λ front. AreNarrow front.0) }
{
    let Some((month, rest)) = month_at(bytes) else {
        return None;
    };
    let Some((date, rest)) = marked_short(rest, b'-') else {
        return None;
    };
    Some((DateParts::Civil(year, month, date), rest))
}

/// `MM-DD` or `DDD` behind a year, by the count of digits in front.
fn digits_behind_year(
    year: u32,
    count: usize,
    number: u64,
    rest: &[u8],
) -> Option<(DateParts, &[u8])>
    requires year { year ≤ 9999 }
    requires small { number < 10 ^ count }
    ensures none { IfNone result (digits_in_front year (count, number, rest.now) ≡ None) }
    ensures some { IfSome result (λ front. digits_in_front year (count, number, rest.now) ≡ Some (front.0, front.1.now)) }
    ensures narrow { IfSome result (λ front. AreNarrow front.0) }
{
    if count == 3 {
        return Some((DateParts::Ordinal(year, number as u32), rest));
    }
    if count == 2 {
        return numeric_day(year, number as u32, rest);
    }
    None
}

/// What stands behind a year: a month and its day, or the day of the year.
fn behind_year(year: u32, bytes: &[u8]) -> Option<(DateParts, &[u8])>
    requires { year ≤ 9999 }
    ensures none { IfNone result (behind_year_in_front year bytes.now ≡ None) }
    ensures some { IfSome result (λ front. behind_year_in_front year bytes.now ≡ Some (front.0, front.1.now)) }
    ensures narrow { IfSome result (λ front. AreNarrow front.0) }
{
    match run_at(bytes) {
        None => name_behind_year(year, bytes),
        Some((count, number, rest)) => digits_behind_year(year, count, number, rest),
    }
}

/// What stands behind a day of the month: `-MON-YYYY`.
fn behind_day(date: u32, bytes: &[u8]) -> Option<(DateParts, &[u8])>
    requires { date ≤ 99 }
    ensures none { IfNone result (behind_day_in_front date bytes.now ≡ None) }
    ensures some { IfSome result (λ front. behind_day_in_front date bytes.now ≡ Some (front.0, front.1.now)) }
    ensures narrow { IfSome result (λ front. AreNarrow front.0) }
{
    let Some((month, rest)) = marked_month(bytes, b'-') else {
        return None;
    };
    let Some((year, rest)) = marked_number(rest, b'-', 4) else {
        return None;
    };
    Some((DateParts::Civil(year, month, date), rest))
}

/// The date in front, and what follows it.
pub fn date_at(bytes: &[u8]) -> Option<(DateParts, &[u8])>
    ensures none { IfNone result (date_in_front bytes.now ≡ None) }
    ensures some { IfSome result (λ front. date_in_front bytes.now ≡ Some (front.0, front.1.now)) }
    ensures narrow { IfSome result (λ front. AreNarrow front.0) }
{
    let Some((count, number, rest)) = run_at(bytes) else {
        return None;
    };
    if count == 4 {
        let Some(rest) = behind(rest, b'-') else {
            return None;
        };
        return behind_year(number as u32, rest);
    }
    if count <= 2 {
        return behind_day(number as u32, rest);
    }
    None
}

impl DateParts {
    /// The day, where the calendar has it and the year is 1600 to 2399.
    pub fn day(self) -> Option<i32>
        requires { AreNarrow self }
        ensures { MatchOption result ((day : ℤ) → ¬ IsDayOf self day) (IsDayOf self) }
    {
        match self {
            DateParts::Civil(year, month, date) => {
                if year < 1600 || year > 2399 {
                    return None;
                }
                day_of(year, month, date)
            }
            DateParts::Ordinal(year, place) => {
                if year < 1600 || year > 2399 {
                    return None;
                }
                ordinal_day(year, place)
            }
        }
    }
}
