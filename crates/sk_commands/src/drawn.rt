//! What a kernel draws: the observations as they lie from it, and its triples.
ghost use Rattle.std.specs.Prelude.{◌≡◌, ◌<◌, ◌+◌, ◌≤◌, ◌^◌, ◌*◌, ◌∷◌, [], IfOk, Some, length, slice_get, option_map, pos, ◌<ℤ◌, ◌≤ℤ◌, neg_ℤ};
ghost use Rattle.std.specs.List.{AllByRecursion};
ghost use Rattle.sk_checks.specs.Checks.{JudgesUnless, carried, FirstRefuses};
ghost use Rattle.sk_clock.specs.Clock.{total, partition_at as partition_at_of};
ghost use Rattle.sk_publishing.specs.Table.{kernel_view};
ghost use Rattle.sk_triples.specs.Kernel.{AreOf, IsTriple, range_checks};
ghost use Rattle.sk_report.specs.Report.{table_checks};
ghost use Rattle.sk_outcome.specs.Drawn.{point_by, points_of as points_by, begins_at as begins_by, first_rate as first_rate_by, drift_of as drift_by, begins_partition as begins_partition_by, piece_at as piece_by, pieces_of as pieces_by};

use sk_checks::NoMemory;
use sk_clock::Clock;
use sk_decimal::{Fixed, floor_div};
use sk_obs::Observation;
use sk_plot::{Piece, Point};
use sk_report::{ReportFault, time_of};
use sk_triples::{Triple, Triples};
use std::alloc::Global;

/// The same bytes.
fn copied(alloc: Global, bytes: &[u8]) -> Result<Vec<u8>, NoMemory>
    ensures { IfOk result (λ copy. copy.items ≡ bytes.now) }
{
    let mut copy = Vec::with_capacity(alloc, bytes.len())?;
    copy.extend_from_slice(bytes)?;
    Ok(copy)
}

/// An observation as it lies from a kernel.
fn point_of(
    alloc: Global,
    triples: &Triples,
    clock: &Clock,
    observation: &Observation,
) -> Result<Point, ReportFault>
    requires { AreOf clock.now triples.now }
    ensures { JudgesUnless ReportFault.NoMemory
        (carried (FirstRefuses (range_checks triples.now observation.now.tick)) (ReportFault.Range observation.now.number) ∷ [])
        (λ point. point ≡ point_by (kernel_view 12 clock.now triples.now.triples) observation.now) result }
{
    let timed = match time_of(triples, clock, observation.tick) {
        Ok(timed) => timed,
        Err(fault) => return Err(ReportFault::Range(observation.number, fault)),
    };
    let Ok(text) = clock.text_of(alloc, observation.tick) else {
        return Err(ReportFault::NoMemory);
    };
    let Ok(id) = copied(alloc, observation.id.as_slice()) else {
        return Err(ReportFault::NoMemory);
    };
    Ok(Point {
        id,
        clock: text.into_bytes(),
        time: observation.time,
        residual: Fixed {
            units: observation.time.units - timed.time.units,
        },
    })
}

/// The observations as they lie from a kernel.
pub fn points_of(
    alloc: Global,
    triples: &Triples,
    clock: &Clock,
    observations: &[Observation],
) -> Result<Vec<Point>, ReportFault>
    requires { AreOf clock.now triples.now }
    ensures { JudgesUnless ReportFault.NoMemory (table_checks triples.now observations.now)
        (λ points. points.items ≡ points_by (kernel_view 12 clock.now triples.now.triples) observations.now) result }
{
    let Ok(mut points) = Vec::with_capacity(alloc, observations.len()) else {
        return Err(ReportFault::NoMemory);
    };
    for observation in observations {
        let point = match point_of(alloc, triples, clock, observation) {
            Ok(point) => point,
            Err(fault) => return Err(fault),
        };
        let Ok(()) = points.push(point) else {
            return Err(ReportFault::NoMemory);
        };
    }
    Ok(points)
}

/// The time at which a triple begins; of none a time after all others.
fn begins_at(triple: Option<&Triple>) -> Fixed<12>
    ensures { result.units ≡ begins_by (option_map (λ t. t.now) triple.entry) }
{
    let units = match triple {
        None => 100_000_000_000_000_000_000_000,
        Some(triple) => floor_div(triple.time.units, 1_000_000),
    };
    Fixed { units }
}

/// The rate of the first triple.
fn first_rate(triples: &[Triple]) -> Fixed<18>
    requires { AllByRecursion (λ t. (pos 0 <ℤ t.rate) × (t.rate ≤ℤ pos (10 ^ 21))) triples.now }
    ensures value { result.units ≡ first_rate_by triples.now }
    ensures positive { pos 0 <ℤ result.units }
    ensures slow { result.units ≤ℤ pos (10 ^ 21) }
{
    match triples.first() {
        None => Fixed { units: 1 },
        Some(first) => first.rate,
    }
}

/// By how much a rate differs from the first one, in parts of 10^15 of that one.
fn drift_of(first: Fixed<18>, rate: Fixed<18>) -> Fixed<6>
    requires first { pos 0 <ℤ first.units }
    requires first_slow { first.units ≤ℤ pos (10 ^ 21) }
    requires positive { pos 0 <ℤ rate.units }
    requires slow { rate.units ≤ℤ pos (10 ^ 21) }
    ensures { result.units ≡ drift_by first.units rate.units }
{
    Fixed {
        units: floor_div(
            (rate.units - first.units) * 1_000_000_000_000_000,
            first.units,
        ),
    }
}

/// The partition of a tick.
fn partition_of(clock: &Clock, tick: u64) -> u32
    requires { tick ≤ total clock.now }
    ensures { result ≡ partition_at_of clock.now tick }
{
    match clock.partition_at(tick) {
        Some(partition) => partition,
        None => unreachable!(),
    }
}

/// Whether the triple is the first one after the beginning of a partition, other than the first triple.
fn begins_partition(clock: &Clock, triples: &[Triple], place: usize, triple: &Triple) -> bool
    requires each { AllByRecursion (IsTriple (total clock.now)) triples.now }
    requires triple { IsTriple (total clock.now) triple.now }
    ensures { result ≡ begins_partition_by clock.now triples.now place triple.now }
{
    match triples.get(place.saturating_sub(1)) {
        None => false,
        Some(before) => partition_of(clock, before.ticks) < partition_of(clock, triple.ticks),
    }
}

/// What a triple draws.
fn piece_at(clock: &Clock, triples: &[Triple], place: usize, triple: &Triple) -> Piece
    requires few { place < length triples.now }
    requires each { AllByRecursion (IsTriple (total clock.now)) triples.now }
    requires triple { IsTriple (total clock.now) triple.now }
    ensures { result ≡ piece_by clock.now triples.now place triple.now }
{
    Piece {
        number: place as u64 + 1,
        from: begins_at(Some(triple)),
        to: begins_at(triples.get(place + 1)),
        begins_partition: begins_partition(clock, triples, place, triple),
        drift: drift_of(first_rate(triples), triple.rate),
    }
}

/// What the triples of a clock draw.
pub fn pieces_of(alloc: Global, triples: &Triples, clock: &Clock) -> Result<Vec<Piece>, NoMemory>
    requires { AreOf clock.now triples.now }
    ensures { IfOk result (λ pieces. pieces.items ≡ pieces_by clock.now triples.now.triples) }
{
    let list = triples.list();
    let mut pieces = Vec::with_capacity(alloc, list.len())?;
    for (place, triple) in list.iter().enumerate() {
        pieces.push(piece_at(clock, list, place, triple))?;
    }
    Ok(pieces)
}
