//! The time that a word says.

ghost use Rattle.std.specs.Prelude.{◌≡◌, [], ℤ, drop, length, IsTrue, IsFalse, MatchOption, IfOk, IfSome, option_map};
ghost use Rattle.sk_checks.specs.Checks.{Judges};
ghost use Rattle.sk_publishing.specs.Row.{IsObservedTime};
ghost use Rattle.sk_leap.specs.UtcText.{SpellsUtc};
ghost use Rattle.sk_leap.specs.declared.utc.Utc.{Utc};
ghost use Rattle.sk_obs.specs.Words.{has_mark, TdtNumber, UtcCode, time_word, IsCounted, IsSent, SaysTime};
ghost use Rattle.sk_outcome.specs.Time.{form_checks, time_stops};

use sk_decimal::{Decimal, Fixed};
use sk_leap::{LeapTable, Utc, read_utc};
use sk_status::TimeStop;
use std::str;

const GREATEST_TIME: u128 = 9_000_000_000_000_000_000_000;

/// The seconds past J2000 that a number of at most twelve decimals says; `None` where its picoseconds pass i128.
fn tdt_time(text: &[u8]) -> Result<Option<Fixed<12>>, TimeStop>
    ensures { Judges (form_checks [] (TdtNumber text.now)) (λ sent. IsSent [] (TdtNumber text.now) (option_map (λ time. time.units) sent)) result }
{
    match Decimal::read(text) {
        Err(_) => Err(TimeStop::Form),
        Ok(number) => {
            if number.scale() <= 12 {
                Ok(number.to_fixed())
            } else {
                Err(TimeStop::Form)
            }
        }
    }
}

/// The UTC that the bytes spell.
fn spelled_utc(text: &[u8]) -> Option<Utc>
    ensures { MatchOption result ((utc : Utc) → ¬ SpellsUtc text.now utc) (SpellsUtc text.now) }
{
    let Ok(text) = str::from_utf8(text) else {
        return None;
    };
    match read_utc(text) {
        Ok(utc) => Some(utc),
        Err(_) => None,
    }
}

/// The time of a UTC in code A or B.
fn utc_time(text: &[u8], leap: &LeapTable) -> Result<Option<Fixed<12>>, TimeStop>
    ensures { Judges (form_checks leap.now (UtcCode text.now)) (λ sent. IsSent leap.now (UtcCode text.now) (option_map (λ time. time.units) sent)) result }
{
    let Some(utc) = spelled_utc(text) else {
        return Err(TimeStop::Form);
    };
    match leap.to_tdt(utc) {
        Ok(time) => Ok(Some(time)),
        Err(fault) => Err(TimeStop::Utc(fault)),
    }
}

/// What stands behind the mark; `None` exactly where the word begins with something else.
fn behind<'a>(word: &'a [u8], mark: &[u8]) -> Option<&'a [u8]>
    ensures { MatchOption result (IsFalse (has_mark word.now mark.now)) (λ rest. IsTrue (has_mark word.now mark.now) × (rest.now ≡ drop (length mark.now) word.now)) }
{
    if word.starts_with(mark) {
        let (_, rest) = word.split_at(mark.len());
        Some(rest)
    } else {
        None
    }
}

/// The time of a number behind `tdt:`, or of an ASCII code A or B behind `utc:`.
fn said_time(word: &[u8], leap: &LeapTable) -> Result<Option<Fixed<12>>, TimeStop>
    ensures { Judges (form_checks leap.now (time_word word.now)) (λ sent. IsSent leap.now (time_word word.now) (option_map (λ time. time.units) sent)) result }
{
    if let Some(text) = behind(word, b"tdt:") {
        return tdt_time(text);
    }
    if let Some(text) = behind(word, b"utc:") {
        return utc_time(text, leap);
    }
    Err(TimeStop::Form)
}

/// The time, where its size is at most 9·10^9 s.
fn within_range(sent: Option<Fixed<12>>) -> Option<Fixed<12>>
    ensures small { IfSome result (λ time. IsObservedTime time.units) }
    ensures same { (time : ℤ) → IsCounted time (option_map (λ sent. sent.units) sent) → MatchOption result (¬ IsObservedTime time) (λ found. (found.units ≡ time) × IsObservedTime time) }
{
    match sent {
        None => None,
        Some(time) => {
            if time.units.unsigned_abs() <= GREATEST_TIME {
                Some(time)
            } else {
                None
            }
        }
    }
}

/// The time that a word says, of at most 9·10^9 s in size.
pub fn time_of_word(word: &[u8], leap: &LeapTable) -> Result<Fixed<12>, TimeStop>
    ensures judged { Judges (time_stops leap.now word.now) (λ time. SaysTime leap.now (time_word word.now) time.units) result }
    ensures small { IfOk result (λ time. IsObservedTime time.units) }
{
    let sent = match said_time(word, leap) {
        Ok(sent) => sent,
        Err(stop) => return Err(stop),
    };
    match within_range(sent) {
        Some(time) => Ok(time),
        None => Err(TimeStop::Range),
    }
}
