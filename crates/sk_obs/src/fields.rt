//! The fields of a record: its id and its delay.

ghost use Rattle.std.specs.Prelude.{◌≡◌, ◌≤◌, ◌^◌, ◌↔◌, ℕ, [], IsTrue, MatchOption, slice_index_or};
ghost use Rattle.std.specs.List.{list_all};
ghost use Rattle.csv.specs.Records.{fields_of};
ghost use Rattle.sk_obs.specs.Observation.{IsId, is_id_byte as is_id_byte_of};
ghost use Rattle.sk_obs.specs.File.{IsDelay};

use crate::digits::read_digits;
use csv::ByteRecord;

/// The field at this place; nothing where there is none.
pub fn field(row: &ByteRecord, place: usize) -> &[u8]
    ensures { result.now ≡ slice_index_or (fields_of row.now) place [] }
{
    row.get(place).unwrap_or(&[])
}

fn is_id_byte(byte: u8) -> bool
    ensures { result ≡ is_id_byte_of byte }
{
    byte >= 33 && byte <= 126 && !(byte == b'"' || byte == b',' || byte == b';' || byte == b'\\')
}

fn are_id_bytes(bytes: &[u8]) -> bool
    ensures { result ≡ list_all is_id_byte_of bytes.now }
{
    bytes.iter().all(|byte| is_id_byte(*byte))
}

/// Whether these are 1 to 32 bytes from 33 to 126 without `"`, `,`, `;` and `\`.
pub fn is_id(id: &[u8]) -> bool
    ensures { IsTrue result ↔ IsId id.now }
{
    id.len() >= 1 && id.len() <= 32 && are_id_bytes(id)
}

const GREATEST_DELAY: u64 = 100_000_000_000_000;

/// The nanoseconds of 1 to 15 digits, at most 10^14; `None` exactly where the bytes are something else.
pub fn read_delay(bytes: &[u8]) -> Option<u64>
    ensures { MatchOption result ((delay : ℕ) → ¬ IsDelay bytes.now delay) (IsDelay bytes.now) }
{
    match read_digits(bytes, 15) {
        None => None,
        Some(delay) => {
            if delay <= GREATEST_DELAY {
                Some(delay)
            } else {
                None
            }
        }
    }
}
