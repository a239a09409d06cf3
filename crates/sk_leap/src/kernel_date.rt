//! Dates of kernels, as `@YYYY-MON-D` and `@YYYY-MON-DD`.

ghost use Rattle.std.specs.Prelude.{◌≡◌, ◌≢◌, ◌-◌, ◌^◌, ◌<◌, ◌≤◌, ℕ, ℤ, MatchOption, IfSome, IfNone, Some, None, slice_get};
ghost use Rattle.std.specs.Str.{str_to_ascii_lowercase};
ghost use Rattle.sk_leap.specs.Kernel.{month_names, IsLeapDate};
ghost use Rattle.sk_leap.specs.Reading.{month_day_of, named_day as named_day_in_front, kernel_date as kernel_date_of};

use crate::date::day_of;
use crate::digits::{behind, marked_number, number_of};

/// The months by their English names.
const MONTHS: [[u8; 3]; 12] = [
    *b"jan", *b"feb", *b"mar", *b"apr", *b"may", *b"jun", *b"jul", *b"aug", *b"sep", *b"oct",
    *b"nov", *b"dec",
];

/// The month of a name in any case, from 1.
fn month_of(name: &[u8]) -> Option<u32>
    ensures { MatchOption result ((place : ℕ) → slice_get month_names place ≢ Some (str_to_ascii_lowercase name.now)) (λ month. (1 ≤ month) × (month ≤ 12) × (slice_get month_names (month - 1) ≡ Some (str_to_ascii_lowercase name.now))) }
{
    for (place, month) in MONTHS.iter().enumerate() {
        if month.as_slice().eq_ignore_ascii_case(name) {
            return Some(place as u32 + 1);
        }
    }
    None
}

/// The day of the month that one or two digits write.
fn month_day(digits: &[u8]) -> Option<u32>
    ensures value { result ≡ month_day_of digits.now }
    ensures small { IfSome result (λ date. date ≤ 99) }
{
    if digits.len() == 1 || digits.len() == 2 {
        match number_of(digits) {
            None => None,
            Some(date) => Some(date as u32),
        }
    } else {
        None
    }
}

/// The month's name and the day of the month behind a year.
fn named_day(year: u32, bytes: &[u8]) -> Option<(u32, &[u8], u32)>
    ensures none { IfNone result (named_day_in_front year bytes.now ≡ None) }
    ensures some { IfSome result (λ date. named_day_in_front year bytes.now ≡ Some (date.0, date.1.now, date.2)) }
    ensures same_year { IfSome result (λ date. date.0 ≡ year) }
    ensures small { IfSome result (λ date. date.2 ≤ 99) }
{
    if bytes.len() < 3 {
        return None;
    }
    let (name, rest) = bytes.split_at(3);
    let Some(digits) = behind(rest, b'-') else {
        return None;
    };
    match month_day(digits) {
        None => None,
        Some(date) => Some((year, name, date)),
    }
}

/// The year, the month's name and the day of the month.
fn kernel_date(bytes: &[u8]) -> Option<(u32, &[u8], u32)>
    ensures none { IfNone result (kernel_date_of bytes.now ≡ None) }
    ensures some { IfSome result (λ date. kernel_date_of bytes.now ≡ Some (date.0, date.1.now, date.2)) }
    ensures year { IfSome result (λ date. date.0 ≤ 9999) }
    ensures small { IfSome result (λ date. date.2 ≤ 99) }
{
    let Some((year, rest)) = marked_number(bytes, b'@', 4) else {
        return None;
    };
    let Some(named) = behind(rest, b'-') else {
        return None;
    };
    named_day(year, named)
}

/// The day of a leap second's date: a real date of the years 1958 to 2199.
pub fn leap_date(bytes: &[u8]) -> Option<i32>
    ensures { MatchOption result ((day : ℤ) → ¬ IsLeapDate bytes.now day) (IsLeapDate bytes.now) }
{
    let Some((year, name, date)) = kernel_date(bytes) else {
        return None;
    };
    if year < 1958 || year > 2199 {
        return None;
    }
    let Some(month) = month_of(name) else {
        return None;
    };
    day_of(year, month, date)
}
