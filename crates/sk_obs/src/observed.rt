//! The observed time of a record: that of its time word less its delay.

ghost use Rattle.std.specs.Prelude.{◌≡◌, ◌≤◌, ◌*◌, ◌^◌, ℤ, pos, ◌-ℤ◌, MatchOption, IfOk, IfSome, option_map};
ghost use Rattle.csv.specs.Records.{fields_of};
ghost use Rattle.sk_checks.specs.Checks.{JudgesUnless};
ghost use Rattle.sk_publishing.specs.Row.{IsObservedTime};
ghost use Rattle.sk_obs.specs.Words.{IsCounted};
ghost use Rattle.sk_obs.specs.File.{observed_checks, IsObserved};

use crate::fault::ObsFault;
use crate::fields::{field, read_delay};
use crate::time_word::read_time_word;
use csv::ByteRecord;
use sk_decimal::Fixed;
use sk_leap::LeapTable;
use std::alloc::Global;

const GREATEST_TIME: u128 = 9_000_000_000_000_000_000_000;

/// The time less a delay in nanoseconds; `None` exactly where its size is above 9·10^9 s.
fn less_delay(sent: Option<Fixed<12>>, delay: u64) -> Option<Fixed<12>>
    requires { delay ≤ 10 ^ 14 }
    ensures small { IfSome result (λ observed. IsObservedTime observed.units) }
    ensures less { (time : ℤ) → IsCounted time (option_map (λ sent. sent.units) sent) → MatchOption result (¬ IsObservedTime (time -ℤ pos (delay * 1000))) (λ observed. (observed.units ≡ time -ℤ pos (delay * 1000)) × IsObservedTime observed.units) }
{
    let sent = sent?;
    let units = sent.units.checked_sub(i128::from(delay) * 1000)?;
    if units.unsigned_abs() <= GREATEST_TIME {
        Some(Fixed { units })
    } else {
        None
    }
}

/// The time of the record's time word less its delay.
pub fn observed_time(
    alloc: Global,
    number: u32,
    row: &ByteRecord,
    leap: &LeapTable,
) -> Result<Fixed<12>, ObsFault>
    ensures answer { JudgesUnless ObsFault.NoMemory (observed_checks leap.now number (fields_of row.now)) (λ time. IsObserved leap.now (fields_of row.now) time.units) result }
    ensures small { IfOk result (λ time. IsObservedTime time.units) }
{
    let sent = match read_time_word(alloc, number, field(row, 2), leap) {
        Ok(sent) => sent,
        Err(fault) => return Err(fault),
    };
    let Some(delay) = read_delay(field(row, 3)) else {
        return Err(ObsFault::BadDelay(number));
    };
    match less_delay(sent, delay) {
        Some(time) => Ok(time),
        None => Err(ObsFault::TimeRange(number)),
    }
}
