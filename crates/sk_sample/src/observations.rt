//! The observations.

ghost use Rattle.std.specs.Prelude.{◌≡◌, ◌++◌, ◌+◌, ◌*◌, ◌≤◌, ◌^◌, pos, neg_ℤ, ◌+ℤ◌, ◌*ℤ◌, ◌≤ℤ◌, [], IfOk, codes, decimal};
ghost use Rattle.std.specs.Int.{IsInRange};
ghost use Rattle.sk_checks.specs.Checks.{JudgesUnless};
ghost use Rattle.sk_clock.specs.Clock.{total};
ghost use Rattle.sk_publishing.specs.Row.{AreRows, IsObservedTime};
ghost use Rattle.sk_obs.specs.File.{records_of, own_checks, file_checks, IsRecordOf, AreObservations};
ghost use Rattle.sk_sample.specs.Sample.{observations_text};
ghost use Rattle.sk_sample.specs.Fields.{fields_at};

use crate::walk::Walk;
use itoa::Buffer;
use sk_checks::NoMemory;
use sk_clock::{Clock, ClockFault};
use sk_decimal::Fixed;
use sk_grammar::{Bytes, List};
use sk_obs::{ClockWord, ObsFault, Observation};
use std::alloc::Global;

/// Ticks from one observation to the next.
const TICKS: u64 = 25_600;

/// Nanoseconds from one observation to the next.
const NANOSECONDS: i128 = 100_000_000_000;

/// The time of an observation that is this many nanoseconds late.
fn observed_time(number: u32, late: i64) -> Fixed<12>
    ensures { result.units ≡ (pos (10 ^ 11 * number) +ℤ late) *ℤ pos 1000 }
{
    Fixed {
        units: (i128::from(number) * NANOSECONDS + i128::from(late)) * 1000,
    }
}

/// The id of an observation.
fn id_of(alloc: Global, number: u32) -> Result<Bytes, NoMemory>
    ensures { IfOk result (λ id. id ≡ codes "s" ++ decimal number) }
{
    let mut buffer = Buffer::new();
    let digits = buffer.format(number).as_bytes();
    let mut id = Vec::with_capacity(alloc, 1 + digits.len())?;
    id.push(b's')?;
    id.extend_from_slice(digits)?;
    Ok(Bytes::from_vec(id))
}

/// The observation of this number, from 1, that is this many nanoseconds late; it is refused where the clock ends before
/// its tick.
fn observation(
    alloc: Global,
    clock: &Clock,
    number: u32,
    late: i64,
) -> Result<Observation, ObsFault>
    requires number { IsInRange 1 100000 number }
    requires from { neg_ℤ (pos (10 ^ 15)) ≤ℤ late }
    requires to { late ≤ℤ pos (10 ^ 15) }
    ensures answer { JudgesUnless ObsFault.NoMemory (own_checks clock.now [] (number + 1) (fields_at number (pos (10 ^ 11 * number) +ℤ late))) (IsRecordOf clock.now [] (number + 1) (fields_at number (pos (10 ^ 11 * number) +ℤ late))) result }
    ensures tick { IfOk result (λ o. o.tick ≡ 25600 * number) }
    ensures time { IfOk result (λ o. IsObservedTime o.time) }
{
    let tick = TICKS * u64::from(number);
    if tick > clock.total() {
        let past = ClockWord::Text(ClockFault::OutsidePartition);
        return Err(ObsFault::ClockRefused(number + 1, past));
    }
    let Ok(id) = id_of(alloc, number) else {
        return Err(ObsFault::NoMemory);
    };
    Ok(Observation {
        id,
        number: number + 1,
        tick,
        time: observed_time(number, late),
    })
}

/// Room for as many observations.
fn room_for(alloc: Global, count: u32) -> Result<List<Observation>, NoMemory>
    ensures { IfOk result (λ list. list ≡ []) }
{
    let list = Vec::with_capacity(alloc, count as usize)?;
    Ok(List::from_vec(list))
}

/// The observations of the sample with this seed and count, at most 100,000: those that the text of its observation file
/// says by the clock, without leap seconds. Observation k from 1 has the id `sK`, the encoded tick 25600 k, and the
/// terrestrial time 100 k seconds and the walk's nanoseconds.
///
/// # Errors
/// `ClockRefused` where the clock ends before the last tick, and `NoMemory` where memory runs out.
pub fn observations_of(
    alloc: Global,
    clock: &Clock,
    seed: u32,
    count: u32,
) -> Result<List<Observation>, ObsFault>
    requires { count ≤ 100000 }
    ensures answer { JudgesUnless ObsFault.NoMemory (file_checks clock.now [] (records_of (observations_text seed count))) (AreObservations clock.now [] (records_of (observations_text seed count))) result }
    ensures rows { IfOk result (AreRows (total clock.now)) }
{
    let Ok(mut list) = room_for(alloc, count) else {
        return Err(ObsFault::NoMemory);
    };
    let mut walk = Walk {
        drawn: seed,
        late: 0,
    };
    for before in 0..count {
        walk = walk.next();
        let next = match observation(alloc, clock, before + 1, walk.late) {
            Ok(next) => next,
            Err(fault) => return Err(fault),
        };
        let Ok(()) = list.push(next) else {
            return Err(ObsFault::NoMemory);
        };
    }
    Ok(list)
}
