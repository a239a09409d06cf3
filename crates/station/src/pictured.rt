//! What `plot` reads: the inputs, and the second kernel where one is named.
ghost use Rattle.std.specs.Prelude.{Some, [], ◌∷◌};
ghost use Rattle.std.specs.Option.{option_to_list};
ghost use Rattle.sk_edge.specs.Asked.{Asks, AsksAmong};
ghost use Rattle.sk_words.specs.Asked.{options_in, NeedsNumber};
ghost use Rattle.station.specs.Asking.{plot_names};
ghost use Rattle.std.specs.Int.{IsInRange};
ghost use Rattle.sk_outcome.specs.Stage.{MayAnswer};
ghost use Rattle.sk_outcome.specs.Seen.{seen_by, Stays};
ghost use Rattle.sk_outcome.specs.Drawn.{second_named as named_stage, second_kernel as second_stage, plot_read};

use crate::inputs::read_inputs;
use crate::reading::document;
use sk_commands::{Kernel, PlotInputs, second_meaning};
use sk_edge::Depot;
use sk_status::{DocumentKind, Status};
use sk_words::{OptionName, Request};
use std::alloc::Global;

/// The second kernel of a file.
fn second_named<D: Depot>(
    alloc: Global,
    depot: &mut D,
    sc: u32,
    name: &str,
) -> Result<Option<Kernel>, Status>
    requires { IsInRange 1 999_999_999 sc }
    ensures stays { Stays D.holds D.faults depot.old depot.new }
    ensures asks { Asks (D.asked depot.old) (D.asked depot.new) (name.now ∷ []) }
    ensures stage { MayAnswer (λ k. k) (named_stage (seen_by D.holds D.given D.faults depot.old depot.new) sc (Some name.now)) result }
{
    let doc = document(alloc, depot, DocumentKind::New, name)?;
    let kernel = second_meaning(alloc, doc, sc)?;
    Ok(Some(kernel))
}

/// The second kernel; none where no file is named.
fn second_kernel<D: Depot>(
    alloc: Global,
    depot: &mut D,
    request: &Request,
) -> Result<Option<Kernel>, Status>
    requires { NeedsNumber request.now.command }
    ensures stays { Stays D.holds D.faults depot.old depot.new }
    ensures asks { Asks (D.asked depot.old) (D.asked depot.new) (option_to_list (options_in request.now OptionName.New)) }
    ensures stage { MayAnswer (λ k. k) (second_stage (seen_by D.holds D.given D.faults depot.old depot.new) (options_in request.now)) result }
{
    match request.text(OptionName::New) {
        Some(name) => second_named(alloc, depot, request.spacecraft(), name),
        None => Ok(None),
    }
}

/// Reads the inputs, and then the second kernel.
pub fn read_plot<D: Depot>(
    alloc: Global,
    depot: &mut D,
    request: &Request,
) -> Result<PlotInputs, Status>
    requires { NeedsNumber request.now.command }
    ensures stays { Stays D.holds D.faults depot.old depot.new }
    ensures asks { AsksAmong (D.asked depot.old) (D.asked depot.new) (plot_names (options_in request.now)) }
    ensures stage { MayAnswer (λ p. p) (plot_read (seen_by D.holds D.given D.faults depot.old depot.new) (options_in request.now)) result }
{
    let inputs = read_inputs(alloc, depot, request)?;
    let second = second_kernel(alloc, depot, request)?;
    Ok(PlotInputs { inputs, second })
}
