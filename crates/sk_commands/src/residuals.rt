//! The table of observations by a kernel.
ghost use Rattle.std.specs.Prelude.{◌≡◌};
ghost use Rattle.sk_outcome.specs.Stage.{MayAnswer};
ghost use Rattle.sk_outcome.specs.Outcome.{residuals_of, tabled as tabled_stage};

use crate::inputs::Inputs;
use crate::kernel::Kernel;
use sk_grammar::Lines;
use sk_obs::Observation;
use sk_report::{ReportFault, table};
use sk_status::{ObsStop, Status};
use std::alloc::Global;

/// The lines of the table by the kernel's own triples.
fn plain_table(
    alloc: Global,
    kernel: &Kernel,
    observations: &[Observation],
) -> Result<Lines, Status>
    ensures { MayAnswer (λ l. l) (tabled_stage kernel.now observations.now) result }
{
    match table(alloc, &kernel.triples, &kernel.clock, observations, None) {
        Ok(lines) => Ok(lines),
        Err(ReportFault::NoMemory) => Err(Status::NoMemory),
        Err(ReportFault::Range(number, fault)) => {
            Err(Status::ObservationRefused(ObsStop::Range(number, fault)))
        }
    }
}

/// What `residuals` writes.
pub fn residuals(alloc: Global, inputs: Inputs) -> Result<Vec<u8>, Status>
    ensures { MayAnswer (λ v. v.items) (residuals_of inputs) result }
{
    let lines = plain_table(alloc, &inputs.kernel, inputs.observations.as_slice())?;
    Ok(lines.into_text())
}
