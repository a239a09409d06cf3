//! The document.

ghost use Rattle.std.specs.Prelude.{◌≡◌, ◌≤◌, ◌^◌, ◌++◌, pos, neg_ℤ, ◌≤ℤ◌, OnOk, IfOk, option_map};
ghost use Rattle.sk_plot.specs.Picture.{AreDays, shift_of as shift_by, opening, span_text, head_text, foot_text, kernel_panel, new_panel, rate_panel, layout_of as layout_by, panels_text, days_of as days_by, picture_of};
ghost use Rattle.sk_plot.specs.Scale.{micro as micro_of};

use crate::axis::push_days;
use crate::extent::{earliest, latest};
use crate::mark::{push_counted, push_named, push_text, push_valued};
use crate::panel::{axes_of, push_rates, push_residuals, rate_axes};
use crate::point::{Panel, Point};
use crate::scale::{Days, days_of, micro};
use sk_checks::NoMemory;
use sk_decimal::Fixed;
use std::alloc::Global;

const STYLE: &[u8] =
    b"\" font-family=\"sans-serif\" font-size=\"12\" fill=\"#333333\">\n<style>@media(prefers-color-scheme:dark){svg{fill:#d8dce0}.page{fill:#15181b}.frame{stroke:#70767c}.band{fill:#1d3226}.grid{stroke:#33383d}.inside{fill:#7fb2ff}.outside,.value{fill:#ff6b7d}.rate{stroke:#c58af0}.triple,.partition{stroke:#f0a050}.number{fill:#f0a050}}</style>\n<rect class=\"page\" fill=\"#ffffff\" width=\"1240\" height=\"";

/// What is drawn: what is written over the picture and below it, and the tolerance, in 10^-12 s.
#[derive(Debug, Drop)]
pub struct Drawing {
    pub title: Vec<u8>,
    pub foot: Vec<u8>,
    pub tolerance: u64,
}

// How much lower a second panel of residuals moves what stands below it.
fn shift_of(newer: Option<&Panel>) -> u64
    ensures value { result ≡ shift_by (option_map (λ p. p.now) newer.entry) }
    ensures few { result ≤ 460 }
{
    match newer {
        None => 0,
        Some(_) => 460,
    }
}

#[tactic(auto, unfolding(crate::specs::Picture::opening))]
fn push_opening(out: &mut Vec<u8>, height: u64) -> Result<(), NoMemory>
    ensures { OnOk result (out.new.items ≡ out.old.items ++ opening height) }
{
    push_counted(
        out,
        b"<svg xmlns=\"http://www.w3.org/2000/svg\" version=\"1.1\" width=\"1240\" height=\"",
        height,
    )?;
    push_counted(out, b"\" viewBox=\"0 0 1240 ", height)?;
    push_counted(out, STYLE, height)?;
    push_text(out, b"\"/>\n")?;
    Ok(())
}

// A day in millionths, as it is written.
fn day_of(time: Fixed<12>) -> Fixed<6>
    requires from { neg_ℤ (pos (10 ^ 22)) ≤ℤ time.units }
    requires to { time.units ≤ℤ pos (10 ^ 22) }
    ensures { result.units ≡ micro_of time.units }
{
    Fixed {
        units: micro(time.units),
    }
}

// Appends the days from the earliest to the latest one.
#[tactic(auto, unfolding(crate::specs::Picture::span_text))]
fn push_span(out: &mut Vec<u8>, points: &[Point]) -> Result<(), NoMemory>
    ensures { OnOk result (out.new.items ≡ out.old.items ++ span_text points.now) }
{
    if points.is_empty() {
        return Ok(());
    }
    let (first, last) = (earliest(points), latest(points));
    push_valued(out, b", days ", day_of(first), b"")?;
    push_valued(out, b" to ", day_of(last), b"")?;
    Ok(())
}

// Appends the title, how many observations there are, and their days.
fn push_head(out: &mut Vec<u8>, title: &[u8], points: &[Point]) -> Result<(), NoMemory>
    ensures { OnOk result (out.new.items ≡ out.old.items ++ head_text title.now points.now) }
{
    push_named(out, b"<text x=\"120\" y=\"26\" font-size=\"18\">", title)?;
    push_counted(
        out,
        b"</text>\n<text x=\"120\" y=\"46\">",
        points.len() as u64,
    )?;
    push_text(out, b" observations")?;
    push_span(out, points)?;
    push_text(out, b"</text>\n")?;
    Ok(())
}

#[tactic(auto, unfolding(crate::specs::Picture::foot_text))]
fn push_foot(out: &mut Vec<u8>, y: u64, foot: &[u8]) -> Result<(), NoMemory>
    ensures { OnOk result (out.new.items ≡ out.old.items ++ foot_text y foot.now) }
{
    push_counted(out, b"<text x=\"120\" font-size=\"11\" y=\"", y)?;
    push_named(out, b"\">", foot)?;
    push_text(out, b"</text>\n</svg>\n")?;
    Ok(())
}

#[tactic(auto, unfolding(crate::specs::Picture::kernel_panel))]
fn push_kernel(out: &mut Vec<u8>, days: Days, tolerance: u64, panel: &Panel) -> Result<(), NoMemory>
    requires days { AreDays days }
    requires few { tolerance ≤ 10 ^ 17 }
    ensures { OnOk result (out.new.items ≡ out.old.items ++ kernel_panel days tolerance panel.now) }
{
    let axes = axes_of(days, 300, tolerance, panel.points());
    push_residuals(out, b"--kernel", axes, panel)
}

fn push_newer(
    out: &mut Vec<u8>,
    days: Days,
    tolerance: u64,
    newer: Option<&Panel>,
) -> Result<(), NoMemory>
    requires days { AreDays days }
    requires few { tolerance ≤ 10 ^ 17 }
    ensures { OnOk result (out.new.items ≡ out.old.items ++ new_panel days tolerance (option_map (λ p. p.now) newer.entry)) }
{
    let Some(panel) = newer else {
        return Ok(());
    };
    let axes = axes_of(days, 760, tolerance, panel.points());
    push_residuals(out, b"--new", axes, panel)
}

// The days of the points.
fn days_over(points: &[Point]) -> Days
    ensures value { result ≡ days_by points.now }
    ensures days { AreDays result }
{
    days_of(earliest(points).units, latest(points).units)
}

/// Where the panels stand: their days, how much lower a second panel moves what stands below it, and the tolerance.
#[derive(Clone, Copy, Debug)]
pub struct Layout {
    pub days: Days,
    pub shift: u64,
    pub tolerance: u64,
}

fn layout_of(tolerance: u64, panel: &Panel, newer: Option<&Panel>) -> Layout
    ensures value { result ≡ layout_by tolerance panel.now (option_map (λ p. p.now) newer.entry) }
    ensures days { AreDays result.days }
    ensures few { result.shift ≤ 460 }
    ensures tolerance { result.tolerance ≡ tolerance }
{
    Layout {
        days: days_over(panel.points()),
        shift: shift_of(newer),
        tolerance,
    }
}

#[tactic(auto, unfolding(crate::specs::Picture::rate_panel))]
fn push_rate_panel(out: &mut Vec<u8>, days: Days, shift: u64, panel: &Panel) -> Result<(), NoMemory>
    requires days { AreDays days }
    requires few { shift ≤ 460 }
    ensures { OnOk result (out.new.items ≡ out.old.items ++ rate_panel days shift panel.now) }
{
    let axes = rate_axes(days, 760 + shift, panel.pieces());
    push_rates(out, axes, panel.pieces())
}

// Appends the panels over their days.
fn push_panels(
    out: &mut Vec<u8>,
    layout: Layout,
    panel: &Panel,
    newer: Option<&Panel>,
) -> Result<(), NoMemory>
    requires days { AreDays layout.days }
    requires low { layout.shift ≤ 460 }
    requires few { layout.tolerance ≤ 10 ^ 17 }
    ensures { OnOk result (out.new.items ≡ out.old.items ++ panels_text layout panel.now (option_map (λ p. p.now) newer.entry)) }
{
    push_kernel(out, layout.days, layout.tolerance, panel)?;
    push_newer(out, layout.days, layout.tolerance, newer)?;
    push_rate_panel(out, layout.days, layout.shift, panel)?;
    push_days(out, 985 + layout.shift, layout.days)?;
    Ok(())
}

/// The picture of these observations and triples, and of the same observations by a second kernel, as one SVG 1.1
/// document.
pub fn picture(
    alloc: Global,
    drawing: &Drawing,
    panel: &Panel,
    newer: Option<&Panel>,
) -> Result<Vec<u8>, NoMemory>
    requires { drawing.now.tolerance ≤ 10 ^ 17 }
    ensures { IfOk result (λ text. text.items ≡ picture_of drawing.now.title.items drawing.now.foot.items drawing.now.tolerance panel.now (option_map (λ p. p.now) newer.entry)) }
{
    let layout = layout_of(drawing.tolerance, panel, newer);
    let mut out = Vec::new(alloc);
    push_opening(&mut out, 1030 + layout.shift)?;
    push_head(&mut out, drawing.title.as_slice(), panel.points())?;
    push_panels(&mut out, layout, panel, newer)?;
    push_foot(&mut out, 1012 + layout.shift, drawing.foot.as_slice())?;
    Ok(out)
}
