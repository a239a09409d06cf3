//! The files that a command reads before it judges.
ghost use Rattle.std.specs.Prelude.{◌≤◌, IfOk, length};
ghost use Rattle.sk_edge.specs.Asked.{AsksAmong};
ghost use Rattle.sk_words.specs.Asked.{options_in, NeedsNumber};
ghost use Rattle.station.specs.Asking.{opened_names, inputs_names, audit_names};
ghost use Rattle.sk_outcome.specs.Stage.{MayAnswer};
ghost use Rattle.sk_outcome.specs.Seen.{seen_by, Stays};
ghost use Rattle.sk_outcome.specs.Files.{opened_read, inputs_read, audit_read};

use crate::files::{candidate_document, kernel_file, leap_file, observation_file};
use sk_commands::{AuditInputs, Inputs, Opened};
use sk_edge::Depot;
use sk_status::Status;
use sk_words::Request;
use std::alloc::Global;

/// Reads the leap second kernel, where one is named, and the clock kernel.
pub fn read_opened<D: Depot>(
    alloc: Global,
    depot: &mut D,
    request: &Request,
) -> Result<Opened, Status>
    requires { NeedsNumber request.now.command }
    ensures stays { Stays D.holds D.faults depot.old depot.new }
    ensures asks { AsksAmong (D.asked depot.old) (D.asked depot.new) (opened_names (options_in request.now)) }
    ensures stage { MayAnswer (λ o. o) (opened_read (seen_by D.holds D.given D.faults depot.old depot.new) (options_in request.now)) result }
{
    let leap = leap_file(alloc, depot, request)?;
    let kernel = kernel_file(alloc, depot, request)?;
    Ok(Opened { leap, kernel })
}

/// Reads these, and then the observations by them.
pub fn read_inputs<D: Depot>(
    alloc: Global,
    depot: &mut D,
    request: &Request,
) -> Result<Inputs, Status>
    requires { NeedsNumber request.now.command }
    ensures stays { Stays D.holds D.faults depot.old depot.new }
    ensures asks { AsksAmong (D.asked depot.old) (D.asked depot.new) (inputs_names (options_in request.now)) }
    ensures stage { MayAnswer (λ i. i) (inputs_read (seen_by D.holds D.given D.faults depot.old depot.new) (options_in request.now)) result }
    ensures few { IfOk result (λ i. length i.observations ≤ 100_000) }
{
    let opened = read_opened(alloc, depot, request)?;
    let observations = observation_file(alloc, depot, request, &opened)?;
    Ok(Inputs {
        kernel: opened.kernel,
        observations,
    })
}

/// Reads these, and then the kernel that is to be judged by them.
pub fn read_audit<D: Depot>(
    alloc: Global,
    depot: &mut D,
    request: &Request,
) -> Result<AuditInputs, Status>
    requires { NeedsNumber request.now.command }
    ensures stays { Stays D.holds D.faults depot.old depot.new }
    ensures asks { AsksAmong (D.asked depot.old) (D.asked depot.new) (audit_names (options_in request.now)) }
    ensures stage { MayAnswer (λ a. a) (audit_read (seen_by D.holds D.given D.faults depot.old depot.new) (options_in request.now)) result }
{
    let inputs = read_inputs(alloc, depot, request)?;
    let candidate = candidate_document(alloc, depot, request)?;
    Ok(AuditInputs { inputs, candidate })
}
