//! The time word of a record.

ghost use Rattle.std.specs.Prelude.{◌≡◌, ◌<◌, ◌≤◌, ◌*◌, ◌^◌, ℤ, pos, ◌-ℤ◌, [], MatchOption, MatchResult, IfSome, option_map, Ok, Err, Some};
ghost use Rattle.sk_checks.specs.Checks.{Judges, JudgesUnless};
ghost use Rattle.sk_leap.specs.UtcText.{SpellsUtc};
ghost use Rattle.sk_leap.specs.declared.utc.Utc.{Utc};
ghost use Rattle.sk_cds.specs.Limit.{sub_limit};
ghost use Rattle.sk_obs.specs.Words.{time_checks, time_word, TdtNumber, UtcCode, CucHex, CdsHex, IsUtcOf, IsSent, SaysTime, record_stop as record_stop_of};

use crate::fault::{CodeFault, ObsFault};
use crate::hex_text::{CodeStop, HexStop, cuc_of, octets_of};
use crate::marks::behind;
use sk_cds::AnyCds;
use sk_decimal::{Decimal, Fixed};
use sk_leap::{LeapTable, Utc, read_utc};
use std::alloc::Global;
use std::str;

/// The time of a record's time word: `tdt:` and a number of at most twelve decimals, `utc:` and an ASCII code A or B,
/// `cuc:` or `cds:` and the hex text of a code (CCSDS 301.0-B-4). `None` is a time whose picoseconds pass i128.
pub fn read_time_word(
    alloc: Global,
    number: u32,
    word: &[u8],
    leap: &LeapTable,
) -> Result<Option<Fixed<12>>, ObsFault>
    ensures { JudgesUnless ObsFault.NoMemory (time_checks leap.now number (time_word word.now)) (λ sent. IsSent leap.now (time_word word.now) (option_map (λ time. time.units) sent)) result }
{
    if let Some(text) = behind(word, b"tdt:") {
        return tdt_time(number, text);
    }
    if let Some(text) = behind(word, b"utc:") {
        return counted(utc_time(number, text, leap));
    }
    if let Some(text) = behind(word, b"cuc:") {
        return counted(cuc_time(alloc, number, text));
    }
    if let Some(text) = behind(word, b"cds:") {
        return counted(cds_time(alloc, number, text, leap));
    }
    Err(ObsFault::TimeForm(number))
}

fn counted(time: Result<Fixed<12>, ObsFault>) -> Result<Option<Fixed<12>>, ObsFault>
    ensures { MatchResult time (λ time. result ≡ Ok (Some time)) (λ fault. result ≡ Err fault) }
{
    match time {
        Ok(time) => Ok(Some(time)),
        Err(fault) => Err(fault),
    }
}

/// The seconds past J2000 that a number of at most twelve decimals says.
fn tdt_time(number: u32, text: &[u8]) -> Result<Option<Fixed<12>>, ObsFault>
    ensures { Judges (time_checks [] number (TdtNumber text.now)) (λ sent. IsSent [] (TdtNumber text.now) (option_map (λ time. time.units) sent)) result }
{
    match Decimal::read(text) {
        Err(_) => Err(ObsFault::TimeForm(number)),
        Ok(decimal) => {
            if decimal.scale() <= 12 {
                Ok(decimal.to_fixed())
            } else {
                Err(ObsFault::TimeForm(number))
            }
        }
    }
}

/// The UTC that the bytes spell.
fn spelled_utc(text: &[u8]) -> Option<Utc>
    ensures { MatchOption result ((utc : Utc) → ¬ SpellsUtc text.now utc) (SpellsUtc text.now) }
{
    let Ok(text) = str::from_utf8(text) else {
        return None;
    };
    match read_utc(text) {
        Ok(utc) => Some(utc),
        Err(_) => None,
    }
}

/// The time of a UTC in code A or B.
fn utc_time(number: u32, text: &[u8], leap: &LeapTable) -> Result<Fixed<12>, ObsFault>
    ensures { Judges (time_checks leap.now number (UtcCode text.now)) (λ time. SaysTime leap.now (UtcCode text.now) time.units) result }
{
    let Some(utc) = spelled_utc(text) else {
        return Err(ObsFault::TimeForm(number));
    };
    match leap.to_tdt(utc) {
        Ok(time) => Ok(time),
        Err(fault) => Err(ObsFault::UtcRefused(number, fault)),
    }
}

/// The time of a CUC code in hex.
fn cuc_time(alloc: Global, number: u32, text: &[u8]) -> Result<Fixed<12>, ObsFault>
    ensures { JudgesUnless ObsFault.NoMemory (time_checks [] number (CucHex text.now)) (λ time. SaysTime [] (CucHex text.now) time.units) result }
{
    let code = match cuc_of(alloc, text) {
        Ok(code) => code,
        Err(stop) => return Err(record_stop(number, stop)),
    };
    match code.to_tdt() {
        Some(time) => Ok(time),
        None => Err(ObsFault::CodeRefused(number, CodeFault::CucAgencyEpoch)),
    }
}

/// What a code that could not be read makes of its record.
fn record_stop(number: u32, stop: CodeStop) -> ObsFault
    ensures { result ≡ record_stop_of number stop }
{
    match stop {
        CodeStop::Hex => ObsFault::CodeRefused(number, CodeFault::Hex),
        CodeStop::Code(fault) => ObsFault::CodeRefused(number, CodeFault::Cuc(fault)),
        CodeStop::NoMemory => ObsFault::NoMemory,
    }
}

/// The time of a CDS code in hex.
fn cds_time(
    alloc: Global,
    number: u32,
    text: &[u8],
    leap: &LeapTable,
) -> Result<Fixed<12>, ObsFault>
    ensures { JudgesUnless ObsFault.NoMemory (time_checks leap.now number (CdsHex text.now)) (λ time. SaysTime leap.now (CdsHex text.now) time.units) result }
{
    let octets = match octets_of(alloc, text) {
        Ok(octets) => octets,
        Err(HexStop::NotHex) => return Err(ObsFault::CodeRefused(number, CodeFault::Hex)),
        Err(HexStop::NoMemory) => return Err(ObsFault::NoMemory),
    };
    let code = match AnyCds::read(octets.as_slice()) {
        Ok(code) => code,
        Err(fault) => return Err(ObsFault::CodeRefused(number, CodeFault::Cds(fault))),
    };
    match leap.to_tdt(utc_of(&code)) {
        Ok(time) => Ok(time),
        Err(fault) => Err(ObsFault::UtcRefused(number, fault)),
    }
}

/// The days from 1958-01-01 to 2000-01-01.
const EPOCH_DAYS: i32 = 15340;

/// The UTC of a CDS code.
fn utc_of(code: &AnyCds) -> Utc
    requires day { code.now.day < 2 ^ 24 }
    requires sub { code.now.sub < sub_limit code.now.sub_octets }
    ensures { IsUtcOf code.now result }
{
    let ms = code.ms();
    Utc {
        day: code.day() as i32 - EPOCH_DAYS,
        sod: ms / 1000,
        sub: u64::from(ms % 1000) * 1_000_000_000 + code.picoseconds(),
    }
}
