//! UTC as text, in the ASCII codes A and B of CCSDS 301.0-B-4.

ghost use Rattle.std.specs.Prelude.{◌≡◌, ◌≤◌, ◌++◌, ◌∷◌, pos, neg_ℤ, ◌≤ℤ◌, IfOk, OnOk, MatchResult, MatchOption};
ghost use Rattle.std.specs.String.{string_bytes};
ghost use Rattle.sk_leap.specs.Digits.{last_digits};
ghost use Rattle.sk_leap.specs.declared.utc.Utc.{Utc};
ghost use Rattle.sk_leap.specs.UtcText.{SpellsUtc, IsPrintedUtc};
ghost use Rattle.sk_leap.specs.Meaning.{AreNarrow, IsUtcOf};
ghost use Rattle.std.specs.Prelude.{◌<◌, ◌^◌};

use crate::date::date_of;
use crate::parts::{ClockParts, UtcParts, parts_of};
use crate::utc::{Utc, UtcTextFault};
use sk_checks::NoMemory;
use std::alloc::Global;

/// The UTC that the parts mean, where they mean one.
fn utc_of(parts: UtcParts) -> Option<Utc>
    requires narrow { AreNarrow parts.date }
    requires small { parts.sub < 10 ^ 12 }
    ensures { MatchOption result ((utc : Utc) → ¬ IsUtcOf parts utc) (IsUtcOf parts) }
{
    let Some(day) = parts.date.day() else {
        return None;
    };
    let Some(sod) = parts.clock.second_of_day() else {
        return None;
    };
    Some(Utc {
        day,
        sod,
        sub: parts.sub,
    })
}

/// The UTC that the text spells in code A (`YYYY-MM-DDThh:mm:ss`) or code B (`YYYY-DDDThh:mm:ss`), with a point and
/// 1 to 12 digits or none, and `Z` or none (CCSDS 301.0-B-4, section 3.5). Second 60 is read behind 23:59 alone;
/// whether the day has it, a leap table knows.
pub fn read_utc(text: &str) -> Result<Utc, UtcTextFault>
    ensures { MatchResult result (SpellsUtc text.now) (λ _. (utc : Utc) → ¬ SpellsUtc text.now utc) }
{
    let Some(parts) = parts_of(text.as_bytes()) else {
        return Err(UtcTextFault::NotUtc);
    };
    match utc_of(parts) {
        Some(utc) => Ok(utc),
        None => Err(UtcTextFault::NotUtc),
    }
}

/// Appends the last digits of a number, so many.
fn push_digits(text: &mut String, number: u64, width: u32) -> Result<(), NoMemory>
    requires { width ≤ 12 }
    ensures { OnOk result (string_bytes text.new ≡ string_bytes text.old ++ last_digits width number) }
{
    let mut place = width;
    while place > 0 {
        place -= 1;
        let digit = (number / 10u64.pow(place) % 10) as u8;
        text.push(char::from(b'0' + digit))?;
    }
    Ok(())
}

/// Appends `YYYY-MM-DD`.
fn push_date(text: &mut String, year: u64, month: u8, day: u8) -> Result<(), NoMemory>
    ensures { OnOk result (string_bytes text.new ≡ string_bytes text.old ++ (last_digits 4 year ++ 45 ∷ last_digits 2 month ++ 45 ∷ last_digits 2 day)) }
{
    push_digits(text, year, 4)?;
    text.push('-')?;
    push_digits(text, u64::from(month), 2)?;
    text.push('-')?;
    push_digits(text, u64::from(day), 2)?;
    Ok(())
}

/// Appends `Thh:mm:ss`.
fn push_clock(text: &mut String, clock: ClockParts) -> Result<(), NoMemory>
    ensures { OnOk result (string_bytes text.new ≡ string_bytes text.old ++ (84 ∷ last_digits 2 clock.hour ++ 58 ∷ last_digits 2 clock.minute ++ 58 ∷ last_digits 2 clock.second)) }
{
    text.push('T')?;
    push_digits(text, u64::from(clock.hour), 2)?;
    text.push(':')?;
    push_digits(text, u64::from(clock.minute), 2)?;
    text.push(':')?;
    push_digits(text, u64::from(clock.second), 2)?;
    Ok(())
}

/// A UTC in code A, with twelve decimals and `Z`, which `read_utc` reads to the same UTC. The only error is want of
/// memory.
pub fn print_utc(alloc: Global, utc: Utc) -> Result<String, NoMemory>
    requires from { neg_ℤ (pos 15340) ≤ℤ utc.day }
    requires to { utc.day ≤ℤ pos 104167 }
    requires second { utc.sod ≤ 86400 }
    ensures printed { IfOk result (λ text. IsPrintedUtc (string_bytes text) utc) }
    ensures read { IfOk result (λ text. SpellsUtc (string_bytes text) utc) }
{
    let date = date_of(utc.day);
    let year = u64::from(date.year.unsigned_abs());
    let mut text = String::with_capacity(alloc, 33)?;
    push_date(&mut text, year, date.month, date.day)?;
    push_clock(&mut text, ClockParts::of(utc.sod))?;
    text.push('.')?;
    push_digits(&mut text, utc.sub, 12)?;
    text.push('Z')?;
    Ok(text)
}
