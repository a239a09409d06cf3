//! A whole observation file.

ghost use Rattle.std.specs.Prelude.{◌≡◌, ◌<◌, ◌⊎◌, ◌↔◌, List as Sequence, [], ◌∷◌, IfOk, IsTrue, MatchOption, MatchResult, slice_index_or};
ghost use Rattle.csv.specs.Records.{fields_of};
ghost use Rattle.sk_checks.specs.Checks.{FirstRefuses, JudgesUnless};
ghost use Rattle.sk_clock.specs.Clock.{ClockView, total as total_of};
ghost use Rattle.sk_publishing.specs.Row.{AreRows};
ghost use Rattle.sk_leap.specs.declared.pair.LeapPair.{LeapPair};
ghost use Rattle.sk_obs.specs.File.{records_of, header_fields, file_checks, AreObservations};
ghost use Rattle.sk_obs.specs.Reading.{IsReading, rows_left};

use crate::fault::ObsFault;
use crate::header::read_header;
use crate::observation::Observation;
use crate::reading::{next_row, row_reader};
use crate::record::{PAST_RECORDS, read_record};
use csv::ByteRecord;
use sk_checks::NoMemory;
use sk_clock::Clock;
use sk_grammar::List;
use sk_leap::LeapTable;
use std::alloc::Global;

/// The number of the first record behind the header.
const FIRST_RECORD: u32 = 2;

/// As many observations as a file may have.
const MOST_OBSERVATIONS: usize = 100_000;

/// The bytes of the shortest record with its line feed, as `a,0,tdt:0,0`.
const SHORTEST_RECORD: usize = 12;

/// Room for as many observations as a file of so many bytes may have, of which the untouched part costs nothing.
fn room_for(alloc: Global, bytes: &[u8]) -> Result<List<Observation>, NoMemory>
    ensures { IfOk result (λ list. list ≡ []) }
{
    let most = bytes.len() / SHORTEST_RECORD;
    let list = Vec::with_capacity(alloc, most.min(MOST_OBSERVATIONS))?;
    Ok(List::from_vec(list))
}

/// The observations of a file of CSV records (RFC 4180): the header `id`, `clock`, `time`, `delay`, and then for each
/// observation, at most 100,000, a record of an id of 1 to 32 bytes, a clock word, a time word, and a delay of 0 to
/// 10^14 ns in 1 to 15 digits. Its time is that of the time word less the delay, at most 9·10^9 s in size. Ticks rise.
///
/// Where the first record is not the header, `Header` tells why. Records are numbered from 1, the header's. The first bad one is named, for the first of these: `FieldCount`,
/// `TooMany`, `BadId`, `ClockRefused`, then `TimeForm`, `CodeRefused` or `UtcRefused`, `BadDelay`, `TimeRange` and
/// `OutOfOrder`.
pub fn read_observations(
    alloc: Global,
    bytes: &[u8],
    clock: &Clock,
    leap: &LeapTable,
) -> Result<List<Observation>, ObsFault>
    ensures answer { JudgesUnless ObsFault.NoMemory (file_checks clock.now leap.now (records_of bytes.now)) (AreObservations clock.now leap.now (records_of bytes.now)) result }
    ensures rows { IfOk result (AreRows (total_of clock.now)) }
{
    let mut reader = row_reader(alloc, bytes);
    let mut row = ByteRecord::new(alloc);
    if let Err(fault) = read_header(alloc, &mut reader, &mut row) {
        return Err(fault);
    }
    let Ok(mut list) = room_for(alloc, bytes) else {
        return Err(ObsFault::NoMemory);
    };
    let mut before: Option<u64> = None;
    for number in FIRST_RECORD..=PAST_RECORDS {
        let Ok(found) = next_row(&mut reader, &mut row) else {
            return Err(ObsFault::NoMemory);
        };
        if !found {
            return Ok(list);
        }
        let observation = match read_record(alloc, number, &row, clock, leap) {
            Ok(observation) => observation,
            Err(fault) => return Err(fault),
        };
        if !follows(before, observation.tick) {
            return Err(ObsFault::OutOfOrder(number));
        }
        before = Some(observation.tick);
        let Ok(()) = list.push(observation) else {
            return Err(ObsFault::NoMemory);
        };
    }
    unreachable!()
}

/// Whether the tick is above that of the record before, where there is one.
fn follows(before: Option<u64>, tick: u64) -> bool
    ensures { IsTrue result ↔ MatchOption before (Unit {0}) (λ earlier. earlier < tick) }
{
    match before {
        None => true,
        Some(earlier) => earlier < tick,
    }
}
