//! The records of a text, as `csv` reads them with its defaults and no header.

ghost use Rattle.std.specs.Prelude.{◌≡◌, [], ◌∷◌, IfOk};
ghost use Rattle.std.specs.Bool.{MatchBool};
ghost use Rattle.csv.specs.Records.{fields_of};
ghost use Rattle.sk_obs.specs.File.{records_of};
ghost use Rattle.sk_obs.specs.Reading.{IsReading, rows_left};

use csv::{ByteRecord, Reader, ReaderBuilder};
use sk_checks::NoMemory;
use std::alloc::Global;

/// A reader of the text's records, whatever their lengths.
pub fn row_reader(alloc: Global, bytes: &[u8]) -> Reader<&[u8]>
    ensures reading { IsReading result }
    ensures all { rows_left result ≡ records_of bytes.now }
{
    ReaderBuilder::new()
        .has_headers(false)
        .flexible(true)
        .from_reader(alloc, bytes)
}

/// Reads the next record into `row`, and tells whether there was one.
pub fn next_row(reader: &mut Reader<&[u8]>, row: &mut ByteRecord) -> Result<bool, NoMemory>
    requires { IsReading reader.old }
    ensures { IfOk result (λ found. MatchBool found (IsReading reader.new × (rows_left reader.old ≡ fields_of row.new ∷ rows_left reader.new)) (rows_left reader.old ≡ [])) }
{
    let Ok(found) = reader.read_byte_record(row) else {
        return Err(NoMemory);
    };
    Ok(found)
}
