//! The clock word of a record.

ghost use Rattle.std.specs.Prelude.{◌≡◌, ◌≤◌, [], ◌∷◌, IfOk, MatchResult, Ok, Err};
ghost use Rattle.sk_checks.specs.Checks.{Judges, JudgesUnless, FirstRefuses, carried};
ghost use Rattle.sk_clock.specs.Clock.{total as total_of};
ghost use Rattle.sk_obs.specs.Words.{form_checks, word_checks, IsClockWord, IsTickOf, TickDigits, ClockString};

use crate::code_word::code_tick;
use crate::digits::read_digits;
use crate::fault::{ClockWord, ClockWordStop};
use crate::marks::behind;
use sk_clock::{Clock, ClockFault};
use std::alloc::Global;
use std::str;

/// The tick of a clock word: `tick:` and an encoded tick of 1 to 16 digits, at most the clock's total; `cuc:` and the
/// hex text of a CUC code (CCSDS 301.0-B-4), behind a partition of 1 to 4 digits and `/` or none; or else a clock
/// string (NAIF SCLK Required Reading).
pub fn read_clock_word(alloc: Global, text: &[u8], clock: &Clock) -> Result<u64, ClockWordStop>
    ensures { JudgesUnless ClockWordStop.NoMemory (carried (FirstRefuses (word_checks clock.now text.now)) ClockWordStop.Refused ∷ []) (IsClockWord clock.now text.now) result }
{
    if let Some(digits) = behind(text, b"tick:") {
        return or_refused(encoded_tick(digits, clock));
    }
    if let Some(code) = behind(text, b"cuc:") {
        return code_tick(alloc, code, clock);
    }
    or_refused(string_tick(text, clock))
}

fn or_refused(tick: Result<u64, ClockWord>) -> Result<u64, ClockWordStop>
    ensures { MatchResult tick (λ n. result ≡ Ok n) (λ fault. result ≡ Err (ClockWordStop.Refused fault)) }
{
    match tick {
        Ok(tick) => Ok(tick),
        Err(fault) => Err(ClockWordStop::Refused(fault)),
    }
}

/// The tick that 1 to 16 digits write, where the clock has it.
fn encoded_tick(digits: &[u8], clock: &Clock) -> Result<u64, ClockWord>
    ensures { Judges (form_checks clock.now (TickDigits digits.now)) (IsTickOf clock.now (TickDigits digits.now)) result }
{
    match read_digits(digits, 16) {
        None => Err(ClockWord::Text(ClockFault::BadText)),
        Some(tick) => {
            if tick <= clock.total() {
                Ok(tick)
            } else {
                Err(ClockWord::Text(ClockFault::OutsidePartition))
            }
        }
    }
}

/// The tick of a clock string.
fn string_tick(text: &[u8], clock: &Clock) -> Result<u64, ClockWord>
    ensures { Judges (form_checks clock.now (ClockString text.now)) (IsTickOf clock.now (ClockString text.now)) result }
{
    let Ok(text) = str::from_utf8(text) else {
        return Err(ClockWord::Text(ClockFault::BadText));
    };
    match clock.ticks_of(text) {
        Ok(tick) => Ok(tick),
        Err(fault) => Err(ClockWord::Text(fault)),
    }
}
