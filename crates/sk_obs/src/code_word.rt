//! A code as the clock word of a record.

ghost use Rattle.std.specs.Prelude.{◌≡◌, [], ◌∷◌, Option, ℕ, position, option_map};
ghost use Rattle.sk_checks.specs.Checks.{JudgesUnless, Judges, FirstRefuses, carried, ◌⇒◌};
ghost use Rattle.sk_obs.specs.Words.{is_slash, partition_part, hex_part, IsNamed, form_checks, IsTickOf, CodeBytes, word_stop as word_stop_of};

use crate::digits::read_digits;
use crate::fault::{ClockWord, ClockWordStop};
use crate::hex_text::{CodeStop, cuc_of};
use sk_clock::{Clock, ClockFault};
use std::alloc::Global;

fn slash_place(word: &[u8]) -> Option<usize>
    ensures { result ≡ position is_slash word.now }
{
    word.iter().position(|byte| *byte == b'/')
}

/// What stands before the first `/`, where there is one.
fn before_slash(word: &[u8]) -> Option<&[u8]>
    ensures { option_map (λ part. part.now) result ≡ partition_part word.now }
{
    match slash_place(word) {
        Some(place) => {
            let (front, _) = word.split_at(place);
            Some(front)
        }
        None => None,
    }
}

/// What stands behind the first `/`, or all where there is none.
fn behind_slash(word: &[u8]) -> &[u8]
    ensures { result.now ≡ hex_part word.now }
{
    match slash_place(word) {
        Some(place) => {
            let (_, rest) = word.split_at(place + 1);
            rest
        }
        None => word,
    }
}

/// The partition that 1 to 4 digits before the first `/` name.
fn named_partition(word: &[u8]) -> Result<Option<u32>, ClockWord>
    ensures { Judges (((named : Option ℕ) → ¬ IsNamed word.now named) ⇒ ClockWord.Text ClockFault.BadText ∷ []) (IsNamed word.now) result }
{
    match before_slash(word) {
        None => Ok(None),
        Some(digits) => match read_digits(digits, 4) {
            Some(partition) => Ok(Some(partition as u32)),
            None => Err(ClockWord::Text(ClockFault::BadText)),
        },
    }
}

/// The tick of a partition or none and the hex text of a CUC code.
pub fn code_tick(alloc: Global, word: &[u8], clock: &Clock) -> Result<u64, ClockWordStop>
    ensures { JudgesUnless ClockWordStop.NoMemory (carried (FirstRefuses (form_checks clock.now (CodeBytes word.now))) ClockWordStop.Refused ∷ []) (IsTickOf clock.now (CodeBytes word.now)) result }
{
    let named = match named_partition(word) {
        Ok(named) => named,
        Err(fault) => return Err(ClockWordStop::Refused(fault)),
    };
    let code = match cuc_of(alloc, behind_slash(word)) {
        Ok(code) => code,
        Err(stop) => return Err(word_stop(stop)),
    };
    match clock.ticks_of_cuc(named, &code) {
        Ok(tick) => Ok(tick),
        Err(fault) => Err(ClockWordStop::Refused(ClockWord::Text(fault))),
    }
}

/// What a code that could not be read makes of its word.
fn word_stop(stop: CodeStop) -> ClockWordStop
    ensures { result ≡ word_stop_of stop }
{
    match stop {
        CodeStop::Hex => ClockWordStop::Refused(ClockWord::Hex),
        CodeStop::Code(fault) => ClockWordStop::Refused(ClockWord::Cuc(fault)),
        CodeStop::NoMemory => ClockWordStop::NoMemory,
    }
}
