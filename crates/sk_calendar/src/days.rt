//! Days by the Gregorian calendar, counted from 2000-01-01.

ghost use Rattle.std.specs.Prelude.{◌≡◌, ◌≤◌, pos, ◌+ℤ◌, MatchOption};
ghost use Rattle.std.specs.Int.{IsInRange};
ghost use Rattle.jiff_core.specs.Calendar.{IsDate, days_in_year};
ghost use Rattle.sk_leap.specs.Kernel.{day_of as gregorian_day};

use jiff_core::civil::Date;

/// 2000-01-01, counted from 1970-01-01.
const YEAR_2000: i32 = 10957;

/// The day of a date, where the calendar has the date.
pub fn day_of(year: u32, month: u32, date: u32) -> Option<i32>
    requires year { year ≤ 9999 }
    requires month { month ≤ 99 }
    requires date { date ≤ 99 }
    ensures { MatchOption result (¬ IsDate (pos year) (pos month) (pos date)) (λ day. IsDate (pos year) (pos month) (pos date) × (day ≡ gregorian_day year month date)) }
{
    match Date::new(year as i16, month as i8, date as i8) {
        Ok(date) => Some(date.to_unix_epoch_day() - YEAR_2000),
        Err(_) => None,
    }
}

/// The day at a place of the year, counted from 1, where the year has it.
pub fn ordinal_day(year: u32, place: u32) -> Option<i32>
    requires year { year ≤ 9999 }
    requires place { place ≤ 999 }
    ensures { MatchOption result (¬ IsInRange 1 (days_in_year (pos year)) place) (λ day. IsInRange 1 (days_in_year (pos year)) place × (day +ℤ pos 1 ≡ gregorian_day year 1 1 +ℤ pos place)) }
{
    match Date::from_day_of_year(year as i16, place as i16) {
        Ok(date) => Some(date.to_unix_epoch_day() - YEAR_2000),
        Err(_) => None,
    }
}
