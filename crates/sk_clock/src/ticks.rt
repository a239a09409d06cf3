//! The tick that a reading of the clock stands for.

ghost use Rattle.std.specs.Prelude.{◌≡◌, ◌*◌, ◌+◌, ◌^◌, ◌<◌, ◌≤◌, ◌↔◌, ℕ, length, slice_index_or, IsTrue, IsSome, MatchOption};
ghost use Rattle.std.specs.Int.{IsInRange};
ghost use Rattle.std.specs.List.{AllWithin};
ghost use Rattle.sk_checks.specs.Checks.{Judges};
ghost use Rattle.sk_clock.specs.Clock.{count as count_of_values, count_checks, Encodes, IsInPartition, IsPartitionFor, IsTick};
ghost use Rattle.sk_clock.specs.ClockText.{text_checks, HasLowValue, StandsFor};
ghost use Rattle.sk_clock.specs.Kept.{moduli_of, offsets_of, AreUnits};
ghost use Rattle.sk_clock.specs.Ticks.{HoldsAt, HoldsNone};

use crate::clock::Clock;
use crate::fault::ClockFault;
use crate::field::Field;
use crate::partition::Partition;
use crate::scan::read;

/// The count of the values; `None` exactly where one is below its field's offset.
fn count_of(fields: &[Field], values: &[u64]) -> Option<u128>
    requires few { length values.now ≤ length fields.now }
    requires most { length fields.now ≤ 10 }
    ensures low { MatchOption result (HasLowValue (offsets_of fields.now) values.now) (λ _. ¬ HasLowValue (offsets_of fields.now) values.now) }
    ensures value { AreUnits fields.now → MatchOption result (Unit {0}) (λ count. count ≡ count_of_values (moduli_of fields.now) (offsets_of fields.now) values.now) }
{
    let mut count: u128 = 0;
    for (i, value) in values.iter().enumerate() {
        let field = fields[i];
        if *value < field.offset {
            return None;
        }
        count += u128::from(*value - field.offset) * u128::from(field.unit);
    }
    Some(count)
}

/// Whether the count stands in the partition.
fn holds(partition: &Partition, count: u128) -> bool
    ensures { IsTrue result ↔ IsInRange partition.now.start partition.now.end count }
{
    u128::from(partition.start) <= count && count <= u128::from(partition.end)
}

/// The place of the first partition in which the count stands.
fn first_holding(partitions: &[Partition], count: u128) -> Option<usize>
    ensures { MatchOption result (HoldsNone partitions.now count (length partitions.now)) (λ i. (i < length partitions.now) × HoldsAt partitions.now count i × HoldsNone partitions.now count i) }
{
    for (i, partition) in partitions.iter().enumerate() {
        if holds(partition, count) {
            return Some(i);
        }
    }
    None
}

impl Clock {
    /// The number of the partition of a count: the one that is named, else the first in which it stands.
    fn partition_for(&self, named: Option<u32>, count: u128) -> Result<usize, ClockFault>
        ensures { Judges (count_checks self.now named count) (IsPartitionFor self.now named count) result }
    {
        let partitions = self.partitions.as_slice();
        match named {
            None => match first_holding(partitions, count) {
                None => Err(ClockFault::OutsidePartition),
                Some(place) => Ok(place + 1),
            },
            Some(named) => {
                let number = named as usize;
                if number == 0 || number > partitions.len() {
                    return Err(ClockFault::NoSuchPartition);
                }
                if !holds(&partitions[number - 1], count) {
                    return Err(ClockFault::OutsidePartition);
                }
                Ok(number)
            }
        }
    }

    /// The encoded tick of a count in its partition.
    fn tick_in(&self, partition: usize, count: u128) -> u64
        requires { IsInPartition self.now partition count }
        ensures { IsTick self.now partition count result }
    {
        let place = partition - 1;
        let partitions = self.partitions.as_slice();
        let earlier = self.earlier.as_slice();
        (count - u128::from(partitions[place].start)) as u64 + earlier[place]
    }

    /// The encoded tick of a count, in the named partition or the first in which it stands.
    pub(crate) fn tick_of(&self, named: Option<u32>, count: u128) -> Result<u64, ClockFault>
        ensures { Judges (count_checks self.now named count) (Encodes self.now named count) result }
    {
        match self.partition_for(named, count) {
            Err(fault) => Err(fault),
            Ok(partition) => Ok(self.tick_in(partition, count)),
        }
    }

    /// The encoded tick of a clock string.
    pub fn ticks_of(&self, text: &str) -> Result<u64, ClockFault>
        ensures { Judges (text_checks self.now text.now) (StandsFor self.now text.now) result }
    {
        let Some(reading) = read(text) else {
            return Err(ClockFault::BadText);
        };
        let fields = self.fields.as_slice();
        if reading.values.more {
            return Err(ClockFault::TooManyFields);
        }
        let values = reading.values.first.as_slice();
        if values.len() > fields.len() {
            return Err(ClockFault::TooManyFields);
        }
        match count_of(fields, values) {
            None => Err(ClockFault::BelowOffset),
            Some(count) => self.tick_of(reading.partition, count),
        }
    }
}
