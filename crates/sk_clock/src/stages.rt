//! The parts of a clock kernel, each exactly where the kernel has it.

ghost use Rattle.std.specs.Prelude.{◌≡◌, ◌-◌, ◌^◌, ◌<◌, ◌≤◌, ◌↔◌, ℕ, List, length, map, All, IsTrue, IfOk, MatchOption};
ghost use Rattle.std.specs.Int.{IsInRange};
ghost use Rattle.sk_clock.specs.declared.partition.Partition.{Partition};
ghost use Rattle.sk_clock.specs.Clock.{ArePartitions};
ghost use Rattle.sk_clock.specs.Kernel.{name_of as name_for, missing_checks, time_system as time_system_for, HasModuli, HasOffsets, HasPartitions, IsWhole};

use crate::fault::ClockName;
use crate::kept::{MOST_TICKS, capped_product};
use crate::name::name_of;
use crate::numbers::whole_numbers;
use crate::partition::Partition;
use sk_checks::NoMemory;
use sk_pool::Pool;
use std::alloc::Global;

/// No modulus, start or end is greater, and no sum of the lengths.
const MOST_COUNT: u64 = (1 << 53) - 1;

const MOST_OFFSET: u64 = 1 << 32;

const MOST_FIELDS: usize = 10;

const MOST_PARTITIONS: usize = 9_999;

/// The moduli, as many as there are fields; `None` exactly where the kernel has none such.
pub fn moduli_of(
    alloc: Global,
    pool: &Pool,
    sc: u32,
    fields: u64,
) -> Result<Option<Vec<u64>>, NoMemory>
    requires { IsWhole pool.now (name_for ClockName.Fields sc) fields }
    ensures { IfOk result (λ found. MatchOption found ((moduli : List ℕ) → ¬ HasModuli pool.now sc moduli) (λ v. HasModuli pool.now sc v.items)) }
{
    let name = name_of(ClockName::Moduli, sc);
    let Some(moduli) = whole_numbers(alloc, pool, &name, MOST_FIELDS, 1, MOST_COUNT)? else {
        return Ok(None);
    };
    if moduli.len() as u64 != fields {
        return Ok(None);
    }
    let (_, later) = moduli.as_slice().split_at(1);
    if capped_product(later) > MOST_TICKS {
        return Ok(None);
    }
    Ok(Some(moduli))
}

/// The offsets, as many as there are fields; `None` exactly where the kernel has none such.
pub fn offsets_of(
    alloc: Global,
    pool: &Pool,
    sc: u32,
    fields: u64,
) -> Result<Option<Vec<u64>>, NoMemory>
    requires is_count { IsWhole pool.now (name_for ClockName.Fields sc) fields }
    requires count { IsInRange 1 10 fields }
    ensures { IfOk result (λ found. MatchOption found ((offsets : List ℕ) → ¬ HasOffsets pool.now sc offsets) (λ v. HasOffsets pool.now sc v.items)) }
{
    let name = name_of(ClockName::Offsets, sc);
    let Some(offsets) = whole_numbers(alloc, pool, &name, MOST_FIELDS, 0, MOST_OFFSET)? else {
        return Ok(None);
    };
    if offsets.len() as u64 != fields {
        return Ok(None);
    }
    Ok(Some(offsets))
}

/// The partitions of these starts and ends.
fn paired(alloc: Global, starts: &[u64], ends: &[u64]) -> Result<Vec<Partition>, NoMemory>
    requires { length starts.now ≡ length ends.now }
    ensures { IfOk result (λ v. (map (λ p. p.start) v.items ≡ starts.now) × (map (λ p. p.end) v.items ≡ ends.now)) }
{
    let mut partitions = Vec::with_capacity(alloc, starts.len())?;
    for (i, start) in starts.iter().enumerate() {
        partitions.push(Partition {
            start: *start,
            end: ends[i],
        })?;
    }
    Ok(partitions)
}

/// Whether no partition ends before it starts, and the lengths together are small enough.
fn are_partitions(partitions: &[Partition]) -> bool
    requires some { IsInRange 1 9999 (length partitions.now) }
    requires ends { All (λ p. p.end < 2 ^ 53) partitions.now }
    ensures { IsTrue result ↔ ArePartitions partitions.now }
{
    let mut total: u64 = 0;
    for partition in partitions {
        if partition.end < partition.start {
            return false;
        }
        total += partition.end - partition.start;
        if total > MOST_COUNT {
            return false;
        }
    }
    true
}

/// The partitions; `None` exactly where the kernel has none such.
pub fn partitions_of(
    alloc: Global,
    pool: &Pool,
    sc: u32,
) -> Result<Option<Vec<Partition>>, NoMemory>
    ensures { IfOk result (λ found. MatchOption found ((partitions : List Partition) → ¬ HasPartitions pool.now sc partitions) (λ v. HasPartitions pool.now sc v.items)) }
{
    let name = name_of(ClockName::Start, sc);
    let Some(starts) = whole_numbers(alloc, pool, &name, MOST_PARTITIONS, 0, MOST_COUNT)? else {
        return Ok(None);
    };
    let name = name_of(ClockName::End, sc);
    let Some(ends) = whole_numbers(alloc, pool, &name, MOST_PARTITIONS, 0, MOST_COUNT)? else {
        return Ok(None);
    };
    if starts.len() != ends.len() {
        return Ok(None);
    }
    let partitions = paired(alloc, starts.as_slice(), ends.as_slice())?;
    if !are_partitions(partitions.as_slice()) {
        return Ok(None);
    }
    Ok(Some(partitions))
}
