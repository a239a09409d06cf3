//! The header of an observation file, and why a first record is not the header.

ghost use Rattle.std.specs.Prelude.{◌≡◌, ◌⊎◌, ◌↔◌, List as Sequence, ℕ, map, [], ◌∷◌, IfOk, IsTrue, MatchResult, slice_index_or};
ghost use Rattle.csv.specs.Records.{fields_of, trimmed};
ghost use Rattle.sk_checks.specs.Checks.{FirstRefuses};
ghost use Rattle.sk_clock.specs.Clock.{ClockView};
ghost use Rattle.sk_leap.specs.declared.pair.LeapPair.{LeapPair};
ghost use Rattle.sk_obs.specs.File.{header_fields, file_checks, header_causes, own_causes, name_causes, FollowsHeader, HasOtherSeparator, HoldsByte, BeginsWith, AreLowered, AreReordered, HasColumn, lowered};
ghost use Rattle.sk_obs.specs.Reading.{IsReading, rows_left};

use crate::fault::{HeaderCause, ObsFault};
use crate::fields::field;
use crate::reading::next_row;
use csv::{ByteRecord, Reader};
use sk_checks::NoMemory;
use std::alloc::Global;

/// Takes the header; where there is none, or another first record, the file is refused.
pub fn read_header(
    alloc: Global,
    reader: &mut Reader<&[u8]>,
    row: &mut ByteRecord,
) -> Result<(), ObsFault>
    requires { IsReading reader.old }
    ensures { MatchResult result (λ _. IsReading reader.new × (rows_left reader.old ≡ header_fields ∷ rows_left reader.new)) (λ fault. (fault ≡ ObsFault.NoMemory) ⊎ ((clock : ClockView) (pairs : Sequence LeapPair) → FirstRefuses (file_checks clock pairs (rows_left reader.old)) fault)) }
{
    let Ok(found) = next_row(reader, row) else {
        return Err(ObsFault::NoMemory);
    };
    if !found {
        return Err(ObsFault::Header(HeaderCause::Empty));
    }
    if is_header(row) {
        return Ok(());
    }
    match header_cause(alloc, reader, row) {
        Ok(cause) => Err(ObsFault::Header(cause)),
        Err(_) => Err(ObsFault::NoMemory),
    }
}

/// Why the first record, which has been read, is not the header.
fn header_cause(
    alloc: Global,
    reader: &mut Reader<&[u8]>,
    row: &mut ByteRecord,
) -> Result<HeaderCause, NoMemory>
    requires { IsReading reader.old }
    ensures { IfOk result (FirstRefuses (header_causes (fields_of row.old) (rows_left reader.old))) }
{
    if is_before_header(alloc, reader)? {
        return Ok(HeaderCause::LineBefore);
    }
    let cause = own_cause(alloc, row)?;
    Ok(cause)
}

/// Whether the next record is the header.
fn is_before_header(alloc: Global, reader: &mut Reader<&[u8]>) -> Result<bool, NoMemory>
    requires { IsReading reader.old }
    ensures { IfOk result (λ is. IsTrue is ↔ FollowsHeader (rows_left reader.old)) }
{
    let mut next = ByteRecord::new(alloc);
    if !next_row(reader, &mut next)? {
        return Ok(false);
    }
    Ok(is_header(&next))
}

/// Why a record is not the header, by itself.
fn own_cause(alloc: Global, row: &mut ByteRecord) -> Result<HeaderCause, NoMemory>
    ensures { IfOk result (FirstRefuses (own_causes (fields_of row.old))) }
{
    if holds(field(row, 0), 0) {
        return Ok(HeaderCause::ZeroByte);
    }
    if begins_with(field(row, 0), b'#') {
        return Ok(HeaderCause::Comment);
    }
    if has_other_separator(row) {
        return Ok(HeaderCause::OtherSeparator);
    }
    if holds(field(row, 2), b':') {
        return Ok(HeaderCause::NoHeader);
    }
    row.trim()?;
    let cause = name_cause(alloc, row)?;
    Ok(cause)
}

/// Why names without white space beside them are not the header as it was written.
fn name_cause(alloc: Global, row: &ByteRecord) -> Result<HeaderCause, NoMemory>
    ensures { IfOk result (FirstRefuses (name_causes (fields_of row.now))) }
{
    if is_header(row) {
        return Ok(HeaderCause::Blanks);
    }
    if are_lowered(alloc, row)? {
        return Ok(HeaderCause::Capitals);
    }
    if are_reordered(row) {
        return Ok(HeaderCause::OtherOrder);
    }
    if row.len() < 4 {
        return Ok(HeaderCause::TooFew);
    }
    if row.len() > 4 {
        return Ok(HeaderCause::TooMany);
    }
    Ok(HeaderCause::OtherNames)
}

fn holds(bytes: &[u8], byte: u8) -> bool
    ensures { IsTrue result ↔ HoldsByte bytes.now byte }
{
    bytes.contains(&byte)
}

fn begins_with(bytes: &[u8], byte: u8) -> bool
    ensures { IsTrue result ↔ BeginsWith bytes.now byte }
{
    match bytes.first() {
        None => false,
        Some(first) => *first == byte,
    }
}

fn has_other_separator(row: &ByteRecord) -> bool
    ensures { IsTrue result ↔ HasOtherSeparator (fields_of row.now) }
{
    row.len() == 1 && (holds(field(row, 0), b';') || holds(field(row, 0), b'\t'))
}

fn is_header(row: &ByteRecord) -> bool
    ensures { IsTrue result ↔ (fields_of row.now ≡ header_fields) }
{
    row.len() == 4
        && is_field(row, 0, b"id")
        && is_field(row, 1, b"clock")
        && is_field(row, 2, b"time")
        && is_field(row, 3, b"delay")
}

fn is_field(row: &ByteRecord, place: usize, name: &[u8]) -> bool
    ensures { IsTrue result ↔ (slice_index_or (fields_of row.now) place [] ≡ name.now) }
{
    field(row, place) == name
}

/// Whether the fields, in small letters, are those of the header.
fn are_lowered(alloc: Global, row: &ByteRecord) -> Result<bool, NoMemory>
    ensures { IfOk result (λ are. IsTrue are ↔ AreLowered (fields_of row.now)) }
{
    let id = is_lowered(alloc, field(row, 0), b"id")?;
    let clock = is_lowered(alloc, field(row, 1), b"clock")?;
    let time = is_lowered(alloc, field(row, 2), b"time")?;
    let delay = is_lowered(alloc, field(row, 3), b"delay")?;
    Ok(row.len() == 4 && id && clock && time && delay)
}

fn is_lowered(alloc: Global, field: &[u8], name: &[u8]) -> Result<bool, NoMemory>
    ensures { IfOk result (λ is. IsTrue is ↔ (lowered field.now ≡ name.now)) }
{
    let small = field.to_ascii_lowercase(alloc)?;
    Ok(small.as_slice() == name)
}

/// Whether the fields are those of the header in some order.
fn are_reordered(row: &ByteRecord) -> bool
    ensures { IsTrue result ↔ AreReordered (fields_of row.now) }
{
    let id = has_column(row, b"id");
    let clock = has_column(row, b"clock");
    let time = has_column(row, b"time");
    let delay = has_column(row, b"delay");
    row.len() == 4 && id && clock && time && delay
}

#[tactic(auto, unfolding(crate::specs::File::HasColumn))]
fn has_column(row: &ByteRecord, name: &[u8]) -> bool
    ensures { IsTrue result ↔ HasColumn (fields_of row.now) name.now }
{
    is_field(row, 0, name)
        || is_field(row, 1, name)
        || is_field(row, 2, name)
        || is_field(row, 3, name)
}
