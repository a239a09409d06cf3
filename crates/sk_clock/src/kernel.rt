//! The clock that the variables of a kernel give.

ghost use Rattle.std.specs.Prelude.{◌≡◌, ◌∷◌, [], ◌↔◌, IsTrue, MatchOption};
ghost use Rattle.std.specs.Int.{IsInRange};
ghost use Rattle.sk_checks.specs.Checks.{FirstRefuses, Judges, JudgesUnless, NoneRefuses};
ghost use Rattle.sk_clock.specs.Kernel.{clock_checks, missing_checks, IsClockOf, IsWhole};
ghost use Rattle.sk_clock.specs.Stages.{needed, kind_checks, number_checks};

use crate::clock::Clock;
use crate::fault::{ClockKernelFault, ClockName};
use crate::name::{name_of, time_system};
use crate::numbers::{is_whole, lacks, one_whole};
use crate::stages::{moduli_of, offsets_of, partitions_of};
use sk_pool::Pool;
use std::alloc::Global;

/// The variables that a clock kernel needs, but for its time system.
const NEEDED: [ClockName; 7] = [
    ClockName::DataType,
    ClockName::Fields,
    ClockName::Moduli,
    ClockName::Offsets,
    ClockName::Delim,
    ClockName::Start,
    ClockName::End,
];

/// The first of these variables that the pool has not.
fn first_missing(pool: &Pool, sc: u32, names: &[ClockName]) -> Option<ClockName>
    ensures { MatchOption result (NoneRefuses (missing_checks pool.now sc names.now)) (λ name. FirstRefuses (missing_checks pool.now sc names.now) (ClockKernelFault.Missing name)) }
{
    for name in names {
        if lacks(pool, &name_of(*name, sc)) {
            return Some(*name);
        }
    }
    None
}

/// Refuses a kernel that is not of type 1, or not in terrestrial time.
fn kind_of(pool: &Pool, sc: u32) -> Result<(), ClockKernelFault>
    ensures { Judges (kind_checks pool.now sc) (λ _. Unit {0}) result }
{
    let name = name_of(ClockName::DataType, sc);
    if !is_whole(pool, &name, 1) {
        return Err(ClockKernelFault::NotType1);
    }
    let name = time_system(sc);
    if lacks(pool, &name) {
        return Err(ClockKernelFault::Barycentric);
    }
    if is_whole(pool, &name, 1) {
        return Err(ClockKernelFault::Barycentric);
    }
    if !is_whole(pool, &name, 2) {
        return Err(ClockKernelFault::BadTimeSystem);
    }
    Ok(())
}

/// The clock of a kernel's numbers.
fn numbers_of(alloc: Global, pool: &Pool, sc: u32) -> Result<Clock, ClockKernelFault>
    ensures { JudgesUnless ClockKernelFault.NoMemory (number_checks pool.now sc) (IsClockOf pool.now sc) result }
{
    let name = name_of(ClockName::Fields, sc);
    let Some(fields) = one_whole(pool, &name, 1, 10) else {
        return Err(ClockKernelFault::BadFields);
    };
    let Ok(found) = moduli_of(alloc, pool, sc, fields) else {
        return Err(ClockKernelFault::NoMemory);
    };
    let Some(moduli) = found else {
        return Err(ClockKernelFault::BadModuli);
    };
    let Ok(found) = offsets_of(alloc, pool, sc, fields) else {
        return Err(ClockKernelFault::NoMemory);
    };
    let Some(offsets) = found else {
        return Err(ClockKernelFault::BadOffsets);
    };
    let name = name_of(ClockName::Delim, sc);
    let Some(delimiter) = one_whole(pool, &name, 1, 5) else {
        return Err(ClockKernelFault::BadDelim);
    };
    let Ok(found) = partitions_of(alloc, pool, sc) else {
        return Err(ClockKernelFault::NoMemory);
    };
    let Some(partitions) = found else {
        return Err(ClockKernelFault::BadPartitions);
    };
    let Ok(clock) = Clock::new(
        alloc,
        moduli.as_slice(),
        offsets.as_slice(),
        delimiter as u8,
        partitions,
    ) else {
        return Err(ClockKernelFault::NoMemory);
    };
    Ok(clock)
}

impl Clock {
    /// The clock of the spacecraft with the number -sc.
    pub fn of(alloc: Global, pool: &Pool, sc: u32) -> Result<Clock, ClockKernelFault>
        requires number { IsInRange 1 999_999_999 sc }
        ensures { JudgesUnless ClockKernelFault.NoMemory (clock_checks pool.now sc) (IsClockOf pool.now sc) result }
    {
        if let Some(name) = first_missing(pool, sc, &NEEDED) {
            return Err(ClockKernelFault::Missing(name));
        }
        match kind_of(pool, sc) {
            Err(fault) => Err(fault),
            Ok(()) => numbers_of(alloc, pool, sc),
        }
    }
}
