//! A picture of how far observations lie from a kernel.
ghost use Rattle.std.specs.Prelude.{◌≡◌, ◌≤◌, ◌*◌, ◌^◌, ◌++◌, OnOk, IfOk, codes, option_map};
ghost use Rattle.sk_words.specs.Asked.{options_in, NeedsNumber};
ghost use Rattle.sk_words.specs.Help.{version as version_by};
ghost use Rattle.sk_words.specs.Request.{Options};
ghost use Rattle.sk_outcome.specs.Stage.{MayAnswer};
ghost use Rattle.sk_outcome.specs.Drawn.{panel_of as panel_by, given_as, title_of as title_by, foot_of as foot_by, tolerance_of as tolerance_by};
ghost use Rattle.sk_outcome.specs.Outcome.{paneled as paneled_stage, second_panel as second_stage, drawing_of, plot_of};

use crate::drawn::{pieces_of, points_of};
use crate::inputs::PlotInputs;
use crate::kernel::Kernel;
use sk_checks::NoMemory;
use sk_decimal::Line;
use sk_obs::Observation;
use sk_plot::{Drawing, Panel, picture};
use sk_report::ReportFault;
use sk_status::{ObsStop, Status};
use sk_words::{Command, OptionName, Request, version};
use std::alloc::Global;

/// A kernel's panel of the picture.
fn paneled(alloc: Global, kernel: &Kernel, observations: &[Observation]) -> Result<Panel, Status>
    ensures { MayAnswer (λ p. p) (paneled_stage kernel.now observations.now) result }
{
    let points = match points_of(alloc, &kernel.triples, &kernel.clock, observations) {
        Ok(points) => points,
        Err(ReportFault::NoMemory) => return Err(Status::NoMemory),
        Err(ReportFault::Range(number, fault)) => {
            return Err(Status::ObservationRefused(ObsStop::Range(number, fault)));
        }
    };
    let Ok(pieces) = pieces_of(alloc, &kernel.triples, &kernel.clock) else {
        return Err(Status::NoMemory);
    };
    Ok(Panel { points, pieces })
}

/// The panel of the second kernel, where there is one.
fn second_panel(
    alloc: Global,
    second: &Option<Kernel>,
    observations: &[Observation],
) -> Result<Option<Panel>, Status>
    ensures { MayAnswer (λ p. p) (second_stage second.now observations.now) result }
{
    let Some(kernel) = second else {
        return Ok(None);
    };
    match paneled(alloc, kernel, observations) {
        Ok(panel) => Ok(Some(panel)),
        Err(status) => Err(status),
    }
}

/// What stands over the picture.
fn title_of(alloc: Global, request: &Request) -> Result<Vec<u8>, NoMemory>
    requires { NeedsNumber request.now.command }
    ensures { IfOk result (λ title. title.items ≡ title_by (options_in request.now)) }
{
    let mut line = Line::new();
    line.push(b"Clock residuals, spacecraft ");
    line.push_number(u128::from(request.spacecraft()));
    let mut title = Vec::new(alloc);
    title.extend_from_slice(line.as_slice())?;
    Ok(title)
}

/// Appends an option as it was given.
fn push_given(out: &mut Vec<u8>, request: &Request, name: OptionName) -> Result<(), NoMemory>
    ensures { OnOk result (out.new.items ≡ out.old.items ++ given_as name (options_in request.now name)) }
{
    let Some(text) = request.text(name) else {
        return Ok(());
    };
    out.extend_from_slice(b" --")?;
    out.extend_from_slice(name.word().as_bytes())?;
    out.extend_from_slice(b"=")?;
    out.extend_from_slice(text.as_bytes())?;
    Ok(())
}

/// What stands below the picture.
fn foot_of(alloc: Global, request: &Request) -> Result<Vec<u8>, NoMemory>
    ensures { IfOk result (λ foot. foot.items ≡ foot_by (options_in request.now)) }
{
    let mut foot = Vec::new(alloc);
    foot.extend_from_slice(b"station ")?;
    foot.extend_from_slice(version().as_bytes())?;
    foot.extend_from_slice(b" plot")?;
    for name in Command::Plot.uses() {
        push_given(&mut foot, request, *name)?;
    }
    Ok(foot)
}

/// The tolerance, in 10^-12 s.
fn tolerance_of(request: &Request) -> u64
    ensures value { result ≡ tolerance_by (options_in request.now) }
    ensures few { result ≤ 10 ^ 17 }
{
    request.tolerance() * 1000
}

/// What is written over the picture and below it, and its tolerance.
fn drawing(alloc: Global, request: &Request) -> Result<Drawing, NoMemory>
    requires { NeedsNumber request.now.command }
    ensures title { IfOk result (λ d. d.title.items ≡ title_by (options_in request.now)) }
    ensures foot { IfOk result (λ d. d.foot.items ≡ foot_by (options_in request.now)) }
    ensures tolerance { IfOk result (λ d. d.tolerance ≡ tolerance_by (options_in request.now)) }
    ensures few { IfOk result (λ d. d.tolerance ≤ 10 ^ 17) }
{
    Ok(Drawing {
        title: title_of(alloc, request)?,
        foot: foot_of(alloc, request)?,
        tolerance: tolerance_of(request),
    })
}

/// The picture of these panels.
fn drawn(
    alloc: Global,
    request: &Request,
    panel: &Panel,
    newer: &Option<Panel>,
) -> Result<Vec<u8>, NoMemory>
    requires { NeedsNumber request.now.command }
    ensures { IfOk result (λ text. text.items ≡ drawing_of (options_in request.now) panel.now newer.now) }
{
    let drawing = drawing(alloc, request)?;
    picture(alloc, &drawing, panel, newer.as_ref())
}

/// What `plot` writes.
pub fn plot(alloc: Global, request: &Request, read: PlotInputs) -> Result<Vec<u8>, Status>
    requires { NeedsNumber request.now.command }
    ensures { MayAnswer (λ v. v.items) (plot_of (options_in request.now) read) result }
{
    let observations = read.inputs.observations.as_slice();
    let panel = paneled(alloc, &read.inputs.kernel, observations)?;
    let newer = second_panel(alloc, &read.second, observations)?;
    match drawn(alloc, request, &panel, &newer) {
        Ok(text) => Ok(text),
        Err(_) => Err(Status::NoMemory),
    }
}
