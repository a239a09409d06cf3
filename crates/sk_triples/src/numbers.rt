//! The numbers of a triple, as they stand in a kernel.

ghost use Rattle.std.specs.Prelude.{◌≡◌, true, ℕ, ℤ, ◌^◌, ◌*◌, ◌<◌, pos, neg_ℤ, ◌≤ℤ◌, ◌<ℤ◌, MatchOption};
ghost use Rattle.sk_decimal.specs.Fixed.{HasUnits};
ghost use Rattle.sk_checks.specs.Checks.{Judges};
ghost use Rattle.sk_triples.specs.Coefficients.{IsTickUpTo, IsRowTime, IsRowRate, Seconds, Calendar, SpellsTime, time_checks};
ghost use Rattle.sk_triples.specs.Reading.{IsTimeOf};
ghost use Rattle.sk_triples.specs.Values.{is_time as is_time_of, timed};

use crate::triple::TriplesFault;
use sk_calendar::read_calendar_time;
use sk_decimal::{Decimal, Fixed};
use sk_grammar::Value;

/// 10^10 s in 10^-18 s.
const MOST_TIME: u128 = 10_000_000_000_000_000_000_000_000_000;

/// 1000 s in 10^-18 s.
const MOST_RATE: i128 = 1_000_000_000_000_000_000_000;

/// The whole number from 0 to `total`.
pub fn tick_of(number: Decimal, total: u64) -> Option<u64>
    requires { total < 2 ^ 53 }
    ensures { MatchOption result ((tick : ℕ) → ¬ IsTickUpTo total number tick) (IsTickUpTo total number) }
{
    let units = number.to_fixed::<0>()?.units;
    if 0 <= units && units <= total as i128 {
        Some(units as u64)
    } else {
        None
    }
}

/// The time of a number of seconds, at most 10^10 in size.
fn seconds_of(number: Decimal) -> Option<Fixed<18>>
    ensures { MatchOption result (¬ IsRowTime (Seconds number)) (λ time. IsRowTime (Seconds number) × HasUnits 18 number time.units
        × (neg_ℤ (pos (10 ^ 28)) ≤ℤ time.units) × (time.units ≤ℤ pos (10 ^ 28))) }
{
    match number.to_fixed::<18>() {
        None => None,
        Some(time) => {
            if time.units.unsigned_abs() <= MOST_TIME {
                Some(time)
            } else {
                None
            }
        }
    }
}

/// The calendar time of a date.
fn calendar_time(date: &[u8]) -> Option<Fixed<18>>
    ensures { MatchOption result ((time : ℤ) → ¬ SpellsTime date.now time) (λ time. SpellsTime date.now time.units) }
{
    match date {
        [] => None,
        [first, text @ ..] => {
            if *first == b'@' {
                read_calendar_time(text)
            } else {
                None
            }
        }
    }
}

/// The time of a date, at most 10^10 s in size.
fn date_time(number: u32, date: &[u8]) -> Result<Fixed<18>, TriplesFault>
    ensures { Judges (time_checks number (Calendar date.now)) (λ time. IsTimeOf (Calendar date.now) time.units) result }
{
    let Some(time) = calendar_time(date) else {
        return Err(TriplesFault::TimeForm(number));
    };
    if time.units.unsigned_abs() <= MOST_TIME {
        Ok(time)
    } else {
        Err(TriplesFault::TimeRange(number))
    }
}

/// The time of a number, at most 10^10 s in size.
fn seconds_time(number: u32, seconds: Decimal) -> Result<Fixed<18>, TriplesFault>
    ensures { Judges (time_checks number (Seconds seconds)) (λ time. IsTimeOf (Seconds seconds) time.units) result }
{
    match seconds_of(seconds) {
        Some(time) => Ok(time),
        None => Err(TriplesFault::TimeRange(number)),
    }
}

/// The time of a triple, at most 10^10 s in size.
pub fn time_of(number: u32, value: &Value) -> Result<Fixed<18>, TriplesFault>
    requires { is_time_of value.now ≡ true }
    ensures { Judges (time_checks number (timed value.now)) (λ time. IsTimeOf (timed value.now) time.units) result }
{
    match value {
        Value::Number(seconds) => seconds_time(number, *seconds),
        Value::Date(date) => date_time(number, date.as_slice()),
        Value::Text(_) => unreachable!(),
    }
}

/// The rate above 0 and of at most 1000 s.
pub fn rate_of(number: Decimal) -> Option<Fixed<18>>
    ensures { MatchOption result (¬ IsRowRate number) (λ rate. IsRowRate number × HasUnits 18 number rate.units
        × (pos 0 <ℤ rate.units) × (rate.units ≤ℤ pos (1000 * 10 ^ 18))) }
{
    match number.to_fixed::<18>() {
        None => None,
        Some(rate) => {
            if rate.units <= 0 {
                None
            } else if rate.units > MOST_RATE {
                None
            } else {
                Some(rate)
            }
        }
    }
}
