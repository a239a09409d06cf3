//! The terrestrial dynamical time of a UTC, and the UTC of a time.

ghost use Rattle.std.specs.Prelude.{◌≡◌, ◌∷◌, ◌+◌, ◌*◌, ◌^◌, ◌<◌, ◌≤◌, pos, neg_ℤ, ◌+ℤ◌, ◌-ℤ◌, ◌*ℤ◌, ◌≤ℤ◌, ◌<ℤ◌};
ghost use Rattle.sk_checks.specs.Checks.{Judges, NoneRefuses};
ghost use Rattle.sk_leap.specs.Leap.{tdt_of, utc_checks, tdt_checks, IsLeapTable};
ghost use Rattle.sk_leap.specs.Steps.{start_of as start_of_pair, pair_at as pair_at_second, IsBetween, IsClockOf};
ghost use Rattle.std.specs.Option.{ForSome};

use crate::lookup::{day_seconds, leap_value};
use crate::pair::LeapPair;
use crate::table::LeapTable;
use crate::utc::{Utc, UtcFault};
use sk_decimal::{Fixed, floor_div};

/// A second, in picoseconds.
const SECOND: i128 = 1_000_000_000_000;

/// TDT less TAI, 32.184 s, in picoseconds.
const TDT_OVER_TAI: u64 = 32_184_000_000_000;

/// The greatest time that has a UTC, 9·10^9 s.
const RANGE: i128 = 9_000_000_000_000_000_000_000;

/// The seconds from the noon of 2000-01-01, with the leap value.
fn atomic_seconds(day: i32, sod: u32, leap: u32) -> i64
    ensures { result ≡ day *ℤ pos 86400 -ℤ pos 43200 +ℤ pos (sod + leap) }
{
    i64::from(day) * 86400 - 43200 + (i64::from(sod) + i64::from(leap))
}

/// The picoseconds of these seconds and this part of a second, in TDT.
fn tdt_units(seconds: i64, sub: u64) -> i128
    requires { sub < 10 ^ 12 }
    ensures { result ≡ seconds *ℤ pos (10 ^ 12) +ℤ pos (sub + 32184 * 10 ^ 9) }
{
    i128::from(seconds) * SECOND + i128::from(sub + TDT_OVER_TAI)
}

/// The first second of a pair's date, with its leap value.
fn start_of(pair: LeapPair) -> i64
    ensures { result ≡ start_of_pair pair }
{
    i64::from(pair.day) * 86400 + i64::from(pair.value)
}

/// The last of the pairs that has begun by a second, and the pair behind it.
fn pair_at(first: LeapPair, later: &[LeapPair], second: i64) -> (LeapPair, Option<LeapPair>)
    ensures { result ≡ pair_at_second first later.now second }
{
    let mut current = first;
    for pair in later {
        if second < start_of(*pair) {
            return (current, Some(*pair));
        }
        current = *pair;
    }
    (current, None)
}

/// The day that a count of seconds falls on, and the second of that day.
fn split_second(counted: i64) -> (i64, u32)
    requires from { neg_ℤ (pos (10 ^ 11)) ≤ℤ counted }
    requires to { counted ≤ℤ pos (10 ^ 11) }
    ensures sum { result.0 *ℤ pos 86400 +ℤ pos result.1 ≡ counted }
    ensures part { result.1 < 86400 }
{
    let day = counted.div_euclid(86400);
    let part = counted - day * 86400;
    (day, part as u32)
}

/// The day and the second of the day, where this pair and the next one stand round a second. Second 86400 is that of
/// the day before the next pair's date.
fn clock_of(pair: LeapPair, next: Option<LeapPair>, second: i64) -> (i32, u32)
    requires begun { start_of_pair pair ≤ℤ second }
    requires end { second ≤ℤ pos (10 ^ 10) }
    requires from { neg_ℤ (pos 15340) ≤ℤ pair.day }
    requires value { pair.value ≤ 1000 }
    requires between { ForSome next (λ later. IsBetween pair later second) }
    ensures { IsClockOf pair next second result.0 result.1 }
{
    let (day, sod) = split_second(second - i64::from(pair.value));
    let Some(later) = next else {
        return (day as i32, sod);
    };
    if day == i64::from(later.day) {
        (later.day - 1, 86400)
    } else {
        (day as i32, sod)
    }
}

/// The seconds of a time with the leap value, from 2000-01-01, and its part of a second in picoseconds.
fn split_time(units: i128) -> (i64, u64)
    requires from { neg_ℤ (pos (10 ^ 22)) ≤ℤ units }
    requires to { units ≤ℤ pos (10 ^ 22) }
    ensures sum { units ≡ (result.0 -ℤ pos 43200) *ℤ pos (10 ^ 12) +ℤ pos (result.1 + 32184 * 10 ^ 9) }
    ensures part { result.1 < 10 ^ 12 }
{
    let atomic = units - i128::from(TDT_OVER_TAI);
    let seconds = floor_div(atomic, SECOND);
    let part = atomic - seconds * SECOND;
    (seconds as i64 + 43200, part as u64)
}

/// The UTC of a time by a table of one pair or more.
fn utc_of(first: LeapPair, later: &[LeapPair], tdt: Fixed<12>) -> Result<Utc, UtcFault>
    requires { IsLeapTable (first ∷ later.now) }
    ensures { Judges (tdt_checks (first ∷ later.now) tdt.units) (λ utc. NoneRefuses (utc_checks (first ∷ later.now) utc) × (tdt_of (first ∷ later.now) utc ≡ tdt.units)) result }
{
    if tdt.units < tdt_units(atomic_seconds(first.day, 0, first.value), 0) {
        return Err(UtcFault::BeforeTable);
    }
    if tdt.units > RANGE {
        return Err(UtcFault::PastRange);
    }
    let (second, sub) = split_time(tdt.units);
    let (pair, next) = pair_at(first, later, second);
    let (day, sod) = clock_of(pair, next, second);
    Ok(Utc { day, sod, sub })
}

impl LeapTable {
    /// The terrestrial dynamical time of a UTC: day × 86400 s - 43200 s + second of day + picoseconds + leap value of
    /// the day + 32.184 s past J2000. `BeforeTable` where the table has no pair or its first date is later,
    /// `NotInDay` where the day has no such second (NAIF Time Required Reading, "UTC to ET").
    pub fn to_tdt(&self, utc: Utc) -> Result<Fixed<12>, UtcFault>
        ensures { Judges (utc_checks self.now utc) (λ time. time.units ≡ tdt_of self.now utc) result }
    {
        let pairs = self.pairs();
        let Some(first) = pairs.first() else {
            return Err(UtcFault::BeforeTable);
        };
        if utc.day < first.day {
            return Err(UtcFault::BeforeTable);
        }
        if utc.sod >= day_seconds(pairs, utc.day) {
            return Err(UtcFault::NotInDay);
        }
        let seconds = atomic_seconds(utc.day, utc.sod, leap_value(pairs, utc.day));
        Ok(Fixed {
            units: tdt_units(seconds, utc.sub),
        })
    }

    /// The one UTC whose `to_tdt` is this time. `BeforeTable` where the table has no pair or the time is before the
    /// first pair's date at 0 h, `PastRange` where it is above 9·10^9 s.
    pub fn to_utc(&self, tdt: Fixed<12>) -> Result<Utc, UtcFault>
        ensures { Judges (tdt_checks self.now tdt.units) (λ utc. NoneRefuses (utc_checks self.now utc) × (tdt_of self.now utc ≡ tdt.units)) result }
    {
        match self.pairs() {
            [] => Err(UtcFault::BeforeTable),
            [first, later @ ..] => utc_of(*first, later, tdt),
        }
    }
}
