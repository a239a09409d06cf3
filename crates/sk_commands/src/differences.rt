//! How far observations lie from a kernel.
ghost use Rattle.std.specs.Prelude.{◌≡◌, ◌∷◌, []};
ghost use Rattle.sk_checks.specs.Checks.{Judges, carried, FirstRefuses};
ghost use Rattle.sk_publishing.specs.Table.{kernel_view};
ghost use Rattle.sk_triples.specs.Kernel.{AreOf, range_checks};
ghost use Rattle.sk_report.specs.Report.{table_checks};
ghost use Rattle.sk_outcome.specs.Sample.{difference as difference_by, greatest_difference as greatest_by};

use sk_clock::Clock;
use sk_obs::Observation;
use sk_report::{ReportFault, time_of};
use sk_triples::Triples;

/// The size of an observation's difference in the table, in picoseconds.
fn difference(
    triples: &Triples,
    clock: &Clock,
    observation: &Observation,
) -> Result<u128, ReportFault>
    requires { AreOf clock.now triples.now }
    ensures { Judges (carried (FirstRefuses (range_checks triples.now observation.now.tick)) (ReportFault.Range observation.now.number) ∷ [])
        (λ size. size ≡ difference_by (kernel_view 12 clock.now triples.now.triples) observation.now) result }
{
    match time_of(triples, clock, observation.tick) {
        Ok(timed) => Ok((observation.time.units - timed.time.units).unsigned_abs()),
        Err(fault) => Err(ReportFault::Range(observation.number, fault)),
    }
}

/// The greatest of these sizes; 0 where there are no observations.
pub fn greatest_difference(
    triples: &Triples,
    clock: &Clock,
    observations: &[Observation],
) -> Result<u128, ReportFault>
    requires { AreOf clock.now triples.now }
    ensures { Judges (table_checks triples.now observations.now)
        (λ size. size ≡ greatest_by (kernel_view 12 clock.now triples.now.triples) observations.now) result }
{
    let mut greatest = 0u128;
    for observation in observations {
        match difference(triples, clock, observation) {
            Ok(size) => greatest = greatest.max(size),
            Err(fault) => return Err(fault),
        }
    }
    Ok(greatest)
}
