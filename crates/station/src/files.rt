//! The files that a command names.
ghost use Rattle.std.specs.Prelude.{◌≡◌, ◌≤◌, List, [], ◌∷◌, ℕ, Some, IfOk, length};
ghost use Rattle.std.specs.Option.{option_to_list};
ghost use Rattle.sk_edge.specs.Asked.{Asks};
ghost use Rattle.sk_clock.specs.Clock.{total};
ghost use Rattle.sk_publishing.specs.Row.{AreRows};
ghost use Rattle.sk_outcome.specs.Stage.{MayAnswer};
ghost use Rattle.sk_words.specs.Asked.{options_in, NeedsNumber};
ghost use Rattle.sk_words.specs.Request.{text_or};
ghost use Rattle.sk_outcome.specs.Seen.{seen_by, Stays};
ghost use Rattle.sk_outcome.specs.Files.{leap_named as named_stage, leap_file as leap_stage, kernel_document as document_stage, kernel_file as kernel_stage, observation_file as observation_stage, candidate_document as candidate_stage, HasFew};

use crate::reading::{document, read_file};
use sk_commands::{Kernel, Opened, kernel_meaning, leap_meaning, observed};
use sk_edge::Depot;
use sk_grammar::{Doc, List};
use sk_leap::LeapTable;
use sk_obs::Observation;
use sk_status::{DocumentKind, FileKind, Status};
use sk_words::{OptionName, Request};
use std::alloc::Global;

/// The leap table of a file.
fn leap_named<D: Depot>(alloc: Global, depot: &mut D, name: &str) -> Result<LeapTable, Status>
    ensures stays { Stays D.holds D.faults depot.old depot.new }
    ensures asks { Asks (D.asked depot.old) (D.asked depot.new) (name.now ∷ []) }
    ensures stage { MayAnswer (λ t. t) (named_stage (seen_by D.holds D.given D.faults depot.old depot.new) (Some name.now)) result }
{
    let doc = document(alloc, depot, DocumentKind::Leap, name)?;
    leap_meaning(alloc, &doc)
}

/// The leap table; it has no pairs where no file is named.
pub fn leap_file<D: Depot>(
    alloc: Global,
    depot: &mut D,
    request: &Request,
) -> Result<LeapTable, Status>
    ensures stays { Stays D.holds D.faults depot.old depot.new }
    ensures asks { Asks (D.asked depot.old) (D.asked depot.new) (option_to_list (options_in request.now OptionName.Leap)) }
    ensures stage { MayAnswer (λ t. t) (leap_stage (seen_by D.holds D.given D.faults depot.old depot.new) (options_in request.now)) result }
{
    match request.text(OptionName::Leap) {
        Some(name) => leap_named(alloc, depot, name),
        None => Ok(LeapTable::none()),
    }
}

/// The document of the clock kernel.
pub fn kernel_document<D: Depot>(
    alloc: Global,
    depot: &mut D,
    request: &Request,
) -> Result<Doc, Status>
    ensures stays { Stays D.holds D.faults depot.old depot.new }
    ensures asks { Asks (D.asked depot.old) (D.asked depot.new) (text_or OptionName.Kernel (options_in request.now) ∷ []) }
    ensures stage { MayAnswer (λ d. d) (document_stage (seen_by D.holds D.given D.faults depot.old depot.new) (options_in request.now)) result }
    ensures few { IfOk result HasFew }
{
    let name = request.text_or_empty(OptionName::Kernel);
    document(alloc, depot, DocumentKind::Kernel, name)
}

/// The clock kernel.
pub fn kernel_file<D: Depot>(
    alloc: Global,
    depot: &mut D,
    request: &Request,
) -> Result<Kernel, Status>
    requires { NeedsNumber request.now.command }
    ensures stays { Stays D.holds D.faults depot.old depot.new }
    ensures asks { Asks (D.asked depot.old) (D.asked depot.new) (text_or OptionName.Kernel (options_in request.now) ∷ []) }
    ensures stage { MayAnswer (λ k. k) (kernel_stage (seen_by D.holds D.given D.faults depot.old depot.new) (options_in request.now)) result }
{
    let doc = kernel_document(alloc, depot, request)?;
    kernel_meaning(alloc, doc, request.spacecraft())
}

/// The observations, by the leap table and the clock kernel.
pub fn observation_file<D: Depot>(
    alloc: Global,
    depot: &mut D,
    request: &Request,
    opened: &Opened,
) -> Result<List<Observation>, Status>
    ensures stays { Stays D.holds D.faults depot.old depot.new }
    ensures asks { Asks (D.asked depot.old) (D.asked depot.new) (text_or OptionName.Obs (options_in request.now) ∷ []) }
    ensures stage { MayAnswer (λ o. o) (observation_stage (seen_by D.holds D.given D.faults depot.old depot.new) (options_in request.now) opened.now) result }
    ensures rows { IfOk result (AreRows (total opened.now.kernel.clock)) }
    ensures few { IfOk result (λ o. length o ≤ 100_000) }
{
    let name = request.text_or_empty(OptionName::Obs);
    let bytes = read_file(alloc, depot, FileKind::Observations, name)?;
    observed(alloc, bytes.as_slice(), &opened.kernel.clock, &opened.leap)
}

/// The document of the kernel that is to be judged.
pub fn candidate_document<D: Depot>(
    alloc: Global,
    depot: &mut D,
    request: &Request,
) -> Result<Doc, Status>
    ensures stays { Stays D.holds D.faults depot.old depot.new }
    ensures asks { Asks (D.asked depot.old) (D.asked depot.new) (text_or OptionName.New (options_in request.now) ∷ []) }
    ensures stage { MayAnswer (λ d. d) (candidate_stage (seen_by D.holds D.given D.faults depot.old depot.new) (options_in request.now)) result }
{
    let name = request.text_or_empty(OptionName::New);
    document(alloc, depot, DocumentKind::New, name)
}
