//! Whether a kernel is what the options and files publish.
ghost use Rattle.std.specs.Prelude.{◌≡◌};
ghost use Rattle.sk_audit.specs.Given.{AreSettings};
ghost use Rattle.sk_words.specs.Asked.{options_in, NeedsNumber};
ghost use Rattle.sk_outcome.specs.Stage.{MayAnswer};
ghost use Rattle.sk_outcome.specs.Output.{audit_settings_of};
ghost use Rattle.sk_outcome.specs.Outcome.{accepted as accepted_stage, audit_of};

use crate::inputs::AuditInputs;
use sk_audit::{AuditSettings, Verdict};
use sk_decimal::Fixed;
use sk_status::Status;
use sk_words::Request;
use std::alloc::Global;

/// What the publication was to meet, by the options.
fn settings_of(request: &Request) -> AuditSettings
    ensures settings { result ≡ audit_settings_of (options_in request.now) }
    ensures ranges { AreSettings result }
{
    AuditSettings {
        tolerance: Fixed {
            units: i128::from(request.tolerance()) * 1000,
        },
        rate_decimals: request.rate_decimals(),
        band: request.band(),
        slip: Fixed {
            units: i128::from(request.slip()),
        },
        hold: request.hold(),
        reject: request.reject(),
    }
}

/// The auditor's verdict, where it is yes.
fn accepted(alloc: Global, request: &Request, read: &AuditInputs) -> Result<(), Status>
    requires { NeedsNumber request.now.command }
    ensures { MayAnswer (λ _. tt) (accepted_stage (options_in request.now) read.now) result }
{
    let kernel = &read.inputs.kernel;
    let verdict = sk_audit::audit(
        alloc,
        &kernel.doc,
        &read.candidate,
        &kernel.clock,
        &kernel.triples,
        request.spacecraft(),
        read.inputs.observations.as_slice(),
        &settings_of(request),
    );
    let Ok(verdict) = verdict else {
        return Err(Status::NoMemory);
    };
    match verdict {
        Verdict::Yes => Ok(()),
        Verdict::No(fault) => Err(Status::AuditNo(fault)),
    }
}

/// What `audit` writes.
pub fn audit(alloc: Global, request: &Request, read: AuditInputs) -> Result<Vec<u8>, Status>
    requires { NeedsNumber request.now.command }
    ensures { MayAnswer (λ v. v.items) (audit_of (options_in request.now) read) result }
{
    accepted(alloc, request, &read)?;
    let mut text = Vec::new(alloc);
    let Ok(()) = text.extend_from_slice(b"yes\n") else {
        return Err(Status::NoMemory);
    };
    Ok(text)
}
