//! A clock from its numbers.

ghost use Rattle.std.specs.Prelude.{◌≡◌, ◌+◌, ◌-◌, ◌^◌, ◌<◌, ◌≤◌, length, decimal, min, All, sum_by, IfOk};
ghost use Rattle.std.specs.Int.{IsInRange};
ghost use Rattle.sk_clock.specs.Clock.{product, ticks_in, AreModuli, ArePartitions, IsClock};
ghost use Rattle.sk_clock.specs.Kept.{lengths_before, moduli_of, offsets_of, AreUnits};

use crate::clock::Clock;
use crate::field::Field;
use crate::partition::Partition;
use itoa::Buffer;
use sk_checks::NoMemory;
use std::alloc::Global;

/// The most ticks that one of a field counts, but for the first field.
pub const MOST_TICKS: u64 = 1 << 32;

/// The product of the moduli, or `MOST_TICKS + 1` where that is less.
pub fn capped_product(moduli: &[u64]) -> u64
    requires { All (IsInRange 1 (2 ^ 53 - 1)) moduli.now }
    ensures { result ≡ min (product moduli.now) (2 ^ 32 + 1) }
{
    let mut value: u64 = 1;
    for modulus in moduli {
        value = value.saturating_mul(*modulus).min(MOST_TICKS + 1);
    }
    value
}

/// How many digits a number has.
fn digit_count(number: u64) -> usize
    ensures { result ≡ length (decimal number) }
{
    Buffer::new().format(number).len()
}

/// The fields, each with the product of the later moduli as its unit.
fn fields_of(alloc: Global, moduli: &[u64], offsets: &[u64]) -> Result<Vec<Field>, NoMemory>
    requires moduli { AreModuli moduli.now }
    requires as_many { length offsets.now ≡ length moduli.now }
    requires offsets { All (λ offset. offset ≤ 2 ^ 32) offsets.now }
    ensures { IfOk result (λ v. (moduli_of v.items ≡ moduli.now) × (offsets_of v.items ≡ offsets.now) × AreUnits v.items) }
{
    let mut fields = Vec::with_capacity(alloc, moduli.len())?;
    for (i, modulus) in moduli.iter().enumerate() {
        let (_, later) = moduli.split_at(i + 1);
        fields.push(Field {
            modulus: *modulus,
            offset: offsets[i],
            unit: capped_product(later),
            width: digit_count(*modulus + offsets[i] - 1),
        })?;
    }
    Ok(fields)
}

/// The lengths before each partition.
fn earlier_lengths(alloc: Global, partitions: &[Partition]) -> Result<Vec<u64>, NoMemory>
    requires { ArePartitions partitions.now }
    ensures { IfOk result (λ v. v.items ≡ lengths_before 0 partitions.now) }
{
    let mut earlier = Vec::with_capacity(alloc, partitions.len())?;
    let mut before = 0;
    for partition in partitions {
        earlier.push(before)?;
        before += partition.end - partition.start;
    }
    Ok(earlier)
}

/// The lengths of all partitions together.
fn total_length(partitions: &[Partition]) -> u64
    requires { ArePartitions partitions.now }
    ensures { result ≡ sum_by ticks_in partitions.now }
{
    let mut total = 0;
    for partition in partitions {
        total += partition.end - partition.start;
    }
    total
}

impl Clock {
    /// The clock with these numbers.
    pub(crate) fn new(
        alloc: Global,
        moduli: &[u64],
        offsets: &[u64],
        delimiter: u8,
        partitions: Vec<Partition>,
    ) -> Result<Clock, NoMemory>
        requires { IsClock (record { moduli = moduli.now; offsets = offsets.now; delimiter = delimiter; partitions = partitions.items }) }
        ensures { IfOk result (λ clock. clock ≡ record { moduli = moduli.now; offsets = offsets.now; delimiter = delimiter; partitions = partitions.items }) }
    {
        let fields = fields_of(alloc, moduli, offsets)?;
        let earlier = earlier_lengths(alloc, partitions.as_slice())?;
        let total = total_length(partitions.as_slice());
        Ok(Clock {
            fields,
            delimiter,
            partitions,
            earlier,
            total,
        })
    }
}
