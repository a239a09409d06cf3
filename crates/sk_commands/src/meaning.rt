//! What documents and observation files mean.
ghost use Rattle.std.specs.Prelude.{◌≡◌, ◌≤◌, IfOk, length};
ghost use Rattle.std.specs.Int.{IsInRange};
ghost use Rattle.sk_grammar.specs.Variables.{IsCounted, items_of, variables_of};
ghost use Rattle.sk_clock.specs.Clock.{total};
ghost use Rattle.sk_publishing.specs.Row.{AreRows};
ghost use Rattle.sk_triples.specs.Coefficients.{AreTriplesOf};
ghost use Rattle.sk_triples.specs.Kernel.{AreOf};
ghost use Rattle.sk_outcome.specs.Stage.{MayAnswer};
ghost use Rattle.sk_outcome.specs.Files.{HasFew, leap_pool as leap_pool_stage, leap_table as leap_table_stage, leap_meaning as leap_stage, kernel_pool as pool_stage, kernel_clock as clock_stage, kernel_triples as triples_stage, kernel_meaning as kernel_stage, observed as observed_stage};
ghost use Rattle.sk_outcome.specs.Drawn.{as_new as as_new_by, new_meaning};

use crate::kernel::Kernel;
use sk_clock::{Clock, ClockKernelFault};
use sk_grammar::{Doc, List};
use sk_leap::{LeapFault, LeapTable};
use sk_obs::{ObsFault, Observation, read_observations};
use sk_pool::{Pool, PoolFault};
use sk_status::{KernelStop, LeapStop, ObsStop, Status};
use sk_triples::{Triples, TriplesFault};
use std::alloc::Global;

/// The pool of a leap second kernel's document.
fn leap_pool(alloc: Global, doc: &Doc) -> Result<Pool, Status>
    requires { HasFew doc.now }
    ensures stage { MayAnswer (λ p. p) (leap_pool_stage doc.now) result }
    ensures counted { IfOk result IsCounted }
{
    match Pool::of(alloc, doc) {
        Ok(pool) => Ok(pool),
        Err(PoolFault::NoMemory) => Err(Status::NoMemory),
        Err(fault) => Err(Status::LeapRefused(LeapStop::Pool(fault))),
    }
}

/// The leap table of its variables.
fn leap_table(alloc: Global, pool: &Pool) -> Result<LeapTable, Status>
    requires { IsCounted pool.now }
    ensures { MayAnswer (λ t. t) (leap_table_stage pool.now) result }
{
    match LeapTable::of(alloc, pool) {
        Ok(table) => Ok(table),
        Err(LeapFault::NoMemory) => Err(Status::NoMemory),
        Err(fault) => Err(Status::LeapRefused(LeapStop::Leap(fault))),
    }
}

/// The leap table of a document.
pub fn leap_meaning(alloc: Global, doc: &Doc) -> Result<LeapTable, Status>
    requires { HasFew doc.now }
    ensures { MayAnswer (λ t. t) (leap_stage doc.now) result }
{
    let pool = leap_pool(alloc, doc)?;
    leap_table(alloc, &pool)
}

/// The pool of a clock kernel's document.
fn kernel_pool(alloc: Global, doc: &Doc) -> Result<Pool, Status>
    requires { HasFew doc.now }
    ensures stage { MayAnswer (λ p. p) (pool_stage doc.now) result }
    ensures counted { IfOk result IsCounted }
{
    match Pool::of(alloc, doc) {
        Ok(pool) => Ok(pool),
        Err(PoolFault::NoMemory) => Err(Status::NoMemory),
        Err(fault) => Err(Status::KernelRefused(KernelStop::Pool(fault))),
    }
}

/// The clock of its variables.
fn kernel_clock(alloc: Global, pool: &Pool, sc: u32) -> Result<Clock, Status>
    requires number { IsInRange 1 999_999_999 sc }
    requires counted { IsCounted pool.now }
    ensures { MayAnswer (λ c. c) (clock_stage pool.now sc) result }
{
    match Clock::of(alloc, pool, sc) {
        Ok(clock) => Ok(clock),
        Err(ClockKernelFault::NoMemory) => Err(Status::NoMemory),
        Err(fault) => Err(Status::KernelRefused(KernelStop::Clock(fault))),
    }
}

/// The triples of its variables.
fn kernel_triples(alloc: Global, pool: &Pool, clock: &Clock, sc: u32) -> Result<Triples, Status>
    requires number { IsInRange 1 999_999_999 sc }
    requires counted { IsCounted pool.now }
    ensures stage { MayAnswer (λ t. t) (triples_stage pool.now clock.now sc) result }
    ensures of_clock { IfOk result (AreOf clock.now) }
{
    match Triples::of(alloc, pool, clock, sc) {
        Ok(triples) => Ok(triples),
        Err(TriplesFault::NoMemory) => Err(Status::NoMemory),
        Err(fault) => Err(Status::KernelRefused(KernelStop::Triples(fault))),
    }
}

/// The variables of a document, and what they mean as the clock kernel of a spacecraft.
#[derive(Drop)]
pub struct Meaning {
    pub pool: Pool,
    pub clock: Clock,
    pub triples: Triples,
}

/// What a document means as the clock kernel of a spacecraft, with its variables.
pub fn meaning_of(alloc: Global, doc: &Doc, sc: u32) -> Result<Meaning, Status>
    requires few { HasFew doc.now }
    requires number { IsInRange 1 999_999_999 sc }
    ensures stage { MayAnswer (λ m. record { doc = doc.now; clock = m.clock; triples = m.triples }) (kernel_stage sc doc.now) result }
    ensures pool { IfOk result (λ m. m.pool ≡ variables_of (items_of doc.now)) }
    ensures triples { IfOk result (λ m. AreTriplesOf m.pool m.clock sc m.triples) }
    ensures of_clock { IfOk result (λ m. AreOf m.clock m.triples) }
{
    let pool = kernel_pool(alloc, doc)?;
    let clock = kernel_clock(alloc, &pool, sc)?;
    let triples = kernel_triples(alloc, &pool, &clock, sc)?;
    Ok(Meaning {
        pool,
        clock,
        triples,
    })
}

/// What a document means as the clock kernel of a spacecraft.
pub fn kernel_meaning(alloc: Global, doc: Doc, sc: u32) -> Result<Kernel, Status>
    requires few { HasFew doc }
    requires number { IsInRange 1 999_999_999 sc }
    ensures { MayAnswer (λ k. k) (kernel_stage sc doc) result }
{
    let Meaning {
        pool: _,
        clock,
        triples,
    } = meaning_of(alloc, &doc, sc)?;
    Ok(Kernel {
        doc,
        clock,
        triples,
    })
}

/// A refusal of a clock kernel, as one of the second kernel.
fn as_new(status: Status) -> Status
    ensures { result ≡ as_new_by status }
{
    match status {
        Status::KernelRefused(stop) => Status::NewRefused(stop),
        other => other,
    }
}

/// What a document means as the second kernel.
pub fn second_meaning(alloc: Global, doc: Doc, sc: u32) -> Result<Kernel, Status>
    requires few { HasFew doc }
    requires number { IsInRange 1 999_999_999 sc }
    ensures { MayAnswer (λ k. k) (new_meaning sc doc) result }
{
    match kernel_meaning(alloc, doc, sc) {
        Ok(kernel) => Ok(kernel),
        Err(status) => Err(as_new(status)),
    }
}

/// The observations of a file.
pub fn observed(
    alloc: Global,
    bytes: &[u8],
    clock: &Clock,
    leap: &LeapTable,
) -> Result<List<Observation>, Status>
    ensures stage { MayAnswer (λ o. o) (observed_stage bytes.now clock.now leap.now) result }
    ensures rows { IfOk result (AreRows (total clock.now)) }
    ensures few { IfOk result (λ o. length o ≤ 100_000) }
{
    match read_observations(alloc, bytes, clock, leap) {
        Ok(observations) => Ok(observations),
        Err(ObsFault::NoMemory) => Err(Status::NoMemory),
        Err(fault) => Err(Status::ObservationRefused(ObsStop::Record(fault))),
    }
}
