//! One record of an observation file.

ghost use Rattle.std.specs.Prelude.{◌≤◌, [], ◌∷◌, IfOk};
ghost use Rattle.csv.specs.Records.{fields_of};
ghost use Rattle.sk_checks.specs.Checks.{JudgesUnless, FirstRefuses, carried};
ghost use Rattle.sk_publishing.specs.Row.{IsObservedTime};
ghost use Rattle.sk_clock.specs.Clock.{total as total_of};
ghost use Rattle.sk_obs.specs.Words.{word_checks, IsClockWord};
ghost use Rattle.sk_obs.specs.File.{own_checks, clock_of, IsRecordOf};

use crate::clock_word::read_clock_word;
use crate::fault::{ClockWordStop, ObsFault};
use crate::fields::{field, is_id};
use crate::observation::Observation;
use crate::observed::observed_time;
use csv::ByteRecord;
use sk_clock::Clock;
use sk_grammar::Bytes;
use sk_leap::LeapTable;
use std::alloc::Global;

/// The number of the first record past those that a file may hold.
pub const PAST_RECORDS: u32 = 100_002;

/// The observation that the record of this number is, whatever stands before it.
pub fn read_record(
    alloc: Global,
    number: u32,
    row: &ByteRecord,
    clock: &Clock,
    leap: &LeapTable,
) -> Result<Observation, ObsFault>
    ensures answer { JudgesUnless ObsFault.NoMemory (own_checks clock.now leap.now number (fields_of row.now)) (IsRecordOf clock.now leap.now number (fields_of row.now)) result }
    ensures time { IfOk result (λ o. IsObservedTime o.time) }
{
    if row.len() != 4 {
        return Err(ObsFault::FieldCount(number));
    }
    if number == PAST_RECORDS {
        return Err(ObsFault::TooMany);
    }
    let id = field(row, 0);
    if !is_id(id) {
        return Err(ObsFault::BadId(number));
    }
    let tick = match tick_of(alloc, number, row, clock) {
        Ok(tick) => tick,
        Err(fault) => return Err(fault),
    };
    let time = match observed_time(alloc, number, row, leap) {
        Ok(time) => time,
        Err(fault) => return Err(fault),
    };
    let Ok(id) = Bytes::copied(alloc, id) else {
        return Err(ObsFault::NoMemory);
    };
    Ok(Observation {
        id,
        number,
        tick,
        time,
    })
}

/// The tick of the record's clock word.
fn tick_of(alloc: Global, number: u32, row: &ByteRecord, clock: &Clock) -> Result<u64, ObsFault>
    ensures { JudgesUnless ObsFault.NoMemory (carried (FirstRefuses (word_checks clock.now (clock_of (fields_of row.now)))) (ObsFault.ClockRefused number) ∷ []) (IsClockWord clock.now (clock_of (fields_of row.now))) result }
{
    match read_clock_word(alloc, field(row, 1), clock) {
        Ok(tick) => Ok(tick),
        Err(ClockWordStop::NoMemory) => Err(ObsFault::NoMemory),
        Err(ClockWordStop::Refused(word)) => Err(ObsFault::ClockRefused(number, word)),
    }
}
