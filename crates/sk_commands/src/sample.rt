//! The publication of made observations, in one line.
ghost use Rattle.std.specs.Prelude.{◌≡◌, ◌++◌, ◌-◌, ◌∷◌, [], IfOk, codes, decimal, length};
ghost use Rattle.sk_clock.specs.Clock.{total};
ghost use Rattle.sk_publishing.specs.Table.{kernel_view};
ghost use Rattle.sk_triples.specs.Kernel.{AreOf, AreTriples};
ghost use Rattle.sk_fit.specs.Given.{new_triples_of};
ghost use Rattle.sk_words.specs.Asked.{options_in};
ghost use Rattle.sk_outcome.specs.Stage.{MayAnswer};
ghost use Rattle.sk_outcome.specs.Output.{line_of as line_of_fields};
ghost use Rattle.sk_outcome.specs.Sample.{greatest_difference as greatest_by, last_ticks as last_ticks_of};
ghost use Rattle.sk_outcome.specs.Outcome.{all_covered, sample_of, sampled as sampled_stage};

use crate::differences::greatest_difference;
use crate::inputs::Inputs;
use crate::kernel::Kernel;
use crate::publish::{behind, chain_of};
use sk_checks::NoMemory;
use sk_clock::Clock;
use sk_fit::Chain;
use sk_obs::Observation;
use sk_report::ReportFault;
use sk_status::{ObsStop, Status};
use sk_triples::{Triple, Triples};
use sk_words::Request;
use std::alloc::Global;

/// What is told of a publication: how many triples are new, the greatest difference in picoseconds, and the ticks of the
/// last triple.
#[derive(Clone, Copy, Debug)]
pub struct Told {
    pub new: usize,
    pub greatest: u128,
    pub ticks: u64,
}

/// The greatest difference by the new triples, where each observation has a time by them.
fn greatest_by_new(
    triples: &Triples,
    clock: &Clock,
    observations: &[Observation],
) -> Result<u128, Status>
    requires { AreOf clock.now triples.now }
    ensures covered { MayAnswer (λ _. tt) (all_covered triples.now observations.now) result }
    ensures greatest { IfOk result (λ size. size ≡ greatest_by (kernel_view 12 clock.now triples.now.triples) observations.now) }
{
    match greatest_difference(triples, clock, observations) {
        Ok(greatest) => Ok(greatest),
        Err(ReportFault::NoMemory) => Err(Status::NoMemory),
        Err(ReportFault::Range(number, fault)) => {
            Err(Status::ObservationRefused(ObsStop::Range(number, fault)))
        }
    }
}

/// The ticks of the last triple; 0 where there is none.
fn last_ticks(triples: &[Triple]) -> u64
    ensures { result ≡ last_ticks_of triples.now }
{
    match triples.last() {
        Some(triple) => triple.ticks,
        None => 0,
    }
}

/// The line of what is told, behind the numbers that the words gave.
fn line_of(alloc: Global, seed: u32, count: u32, told: Told) -> Result<Vec<u8>, NoMemory>
    ensures { IfOk result (λ line. line.items ≡ line_of_fields (codes "sample" ∷ decimal seed ∷ decimal count ∷ decimal told.new ∷ decimal told.greatest ∷ decimal told.ticks ∷ [])) }
{
    let Told {
        new,
        greatest,
        ticks,
    } = told;
    let line = format!(in alloc; "sample;{seed};{count};{new};{greatest};{ticks}\n")?;
    Ok(line.into_bytes())
}

/// The line of a chain.
fn sampled(
    alloc: Global,
    request: &Request,
    kernel: &Kernel,
    observations: &[Observation],
    chain: &Chain,
) -> Result<Vec<u8>, Status>
    requires { AreTriples kernel.now.triples.total (kernel.now.triples.triples ++ new_triples_of chain.now) }
    ensures { MayAnswer (λ v. v.items) (sampled_stage (options_in request.now) kernel.now observations.now chain.now) result }
{
    let Ok(triples) = chain.triples(alloc, &kernel.triples) else {
        return Err(Status::NoMemory);
    };
    let greatest = greatest_by_new(&triples, &kernel.clock, observations)?;
    let new = behind(&triples, &kernel.triples).len();
    let ticks = last_ticks(triples.list());
    let told = Told {
        new,
        greatest,
        ticks,
    };
    let Ok(line) = line_of(alloc, request.seed(), request.count(), told) else {
        return Err(Status::NoMemory);
    };
    Ok(line)
}

/// What `sample` writes.
pub fn sample(alloc: Global, request: &Request, inputs: Inputs) -> Result<Vec<u8>, Status>
    ensures { MayAnswer (λ v. v.items) (sample_of (options_in request.now) inputs) result }
{
    let rows = inputs.observations.as_slice();
    let chain = chain_of(alloc, request, &inputs.kernel, rows)?;
    sampled(alloc, request, &inputs.kernel, rows, &chain)
}
