//! The files of `sample`, which are made in memory, and what they mean.
ghost use Rattle.std.specs.Prelude.{◌≤◌, [], IfOk};
ghost use Rattle.sk_clock.specs.Clock.{total};
ghost use Rattle.sk_publishing.specs.Row.{AreRows};
ghost use Rattle.sk_words.specs.Asked.{options_in};
ghost use Rattle.sk_sample.specs.Sample.{observations_text};
ghost use Rattle.sk_outcome.specs.Stage.{MayAnswer};
ghost use Rattle.sk_outcome.specs.Files.{observed};
ghost use Rattle.sk_outcome.specs.Sample.{made_kernel as kernel_stage, made_observations as observations_stage, made_inputs as inputs_stage};

use crate::reading::document_of;
use sk_clock::Clock;
use sk_commands::{Inputs, Kernel, kernel_meaning};
use sk_grammar::List;
use sk_obs::{ObsFault, Observation};
use sk_sample::{SPACECRAFT, kernel_text, observations_of};
use sk_status::{DocumentKind, ObsStop, Status};
use sk_words::Request;
use std::alloc::Global;

/// The clock kernel.
fn made_kernel(alloc: Global) -> Result<Kernel, Status>
    ensures { MayAnswer (λ k. k) kernel_stage result }
{
    let doc = document_of(alloc, DocumentKind::Kernel, kernel_text().as_bytes())?;
    kernel_meaning(alloc, doc, SPACECRAFT)
}

/// The observations that the text of the observation file with this seed and count says by a clock.
fn made_by(alloc: Global, clock: &Clock, seed: u32, count: u32) -> Result<List<Observation>, Status>
    requires { count ≤ 100000 }
    ensures stage { MayAnswer (λ o. o) (observed (observations_text seed count) clock.now []) result }
    ensures rows { IfOk result (AreRows (total clock.now)) }
{
    match observations_of(alloc, clock, seed, count) {
        Ok(observations) => Ok(observations),
        Err(ObsFault::NoMemory) => Err(Status::NoMemory),
        Err(fault) => Err(Status::ObservationRefused(ObsStop::Record(fault))),
    }
}

/// The observations, by the clock kernel.
fn made_observations(
    alloc: Global,
    request: &Request,
    kernel: &Kernel,
) -> Result<List<Observation>, Status>
    ensures stage { MayAnswer (λ o. o) (observations_stage (options_in request.now) kernel.now) result }
    ensures rows { IfOk result (AreRows (total kernel.now.clock)) }
{
    made_by(alloc, &kernel.clock, request.seed(), request.count())
}

/// Makes the clock kernel, and then the observations by it.
pub fn made_inputs(alloc: Global, request: &Request) -> Result<Inputs, Status>
    ensures { MayAnswer (λ i. i) (inputs_stage (options_in request.now)) result }
{
    let kernel = made_kernel(alloc)?;
    let observations = made_observations(alloc, request, &kernel)?;
    Ok(Inputs {
        kernel,
        observations,
    })
}
