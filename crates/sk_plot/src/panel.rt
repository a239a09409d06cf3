//! The panel of residuals, and that of rates.

ghost use Rattle.std.specs.Prelude.{◌≡◌, ◌≤◌, ◌*◌, ◌^◌, ◌++◌, [], OnOk, option_map, codes, decimal, pos, ◌-ℤ◌};
ghost use Rattle.sk_plot.specs.Picture.{IsSheet, AreDays, AreAxes, sheet_of as sheet_of_axes, worst_text, worst_of as worst_of_points, outside_count as outside_count_of, valued, counts_text, caption_text, band_at, band_text, residuals_text, axes_of as axes_by, bare_axes as bare_axes_by, lines_text, marks_text, steps_text, shown_drift as shown_by, rate_axes as rate_axes_by, rates_caption, rates_text};
ghost use Rattle.sk_plot.specs.Place.{band_top as band_top_of, band_bottom as band_bottom_of};

use crate::axis::push_ground;
use crate::extent::{outside_count, worst, worst_size};
use crate::mark::{
    micros, push_counted, push_marks, push_named, push_placed, push_text, push_valued,
};
use crate::piece::{Piece, push_lines, push_steps, worst_drift};
use crate::place::{Sheet, Values, band_bottom, band_top};
use crate::point::{Panel, Point};
use crate::scale::{Days, PER_MICRO, step_for};
use sk_checks::NoMemory;
use sk_decimal::Fixed;

const MOST_DRIFT: u128 = 100_000_000_000_000_000;

/// The axes of a panel: its days, the place of its line of 0, the step of its values and the tolerance.
#[derive(Clone, Copy, Debug)]
pub struct Axes {
    pub days: Days,
    pub zero: u64,
    pub step: u64,
    pub tolerance: u64,
}

/// The same as lengths of time and of values.
pub fn sheet_of(axes: Axes) -> Sheet
    requires { AreAxes axes }
    ensures value { result ≡ sheet_of_axes axes }
    ensures sheet { IsSheet result }
{
    Sheet {
        left: axes.days.left * PER_MICRO,
        wide: i128::from(axes.days.step) * 10 * PER_MICRO,
        values: Values {
            zero: axes.zero,
            reach: 5 * axes.step,
            tolerance: axes.tolerance,
        },
    }
}

// The worst residual, where there is one.
#[tactic(auto, unfolding(crate::specs::Picture::worst_text))]
fn push_worst(out: &mut Vec<u8>, worst: Option<&Point>) -> Result<(), NoMemory>
    ensures { OnOk result (out.new.items ≡ out.old.items ++ worst_text (option_map (λ p. p.now) worst.entry)) }
{
    let Some(point) = worst else {
        return Ok(());
    };
    push_valued(out, b", the worst ", micros(point), b"")?;
    push_named(out, b" of ", point.id.as_slice())?;
    Ok(())
}

// The tolerance in microseconds.
fn tolerance_of(axes: Axes) -> Fixed<6>
    ensures { result.units ≡ pos axes.tolerance }
{
    Fixed {
        units: i128::from(axes.tolerance),
    }
}

// Appends how many residuals are outside.
fn push_outside(out: &mut Vec<u8>, tolerance: u64, points: &[Point]) -> Result<(), NoMemory>
    ensures { OnOk result (out.new.items ≡ out.old.items ++ (codes " in microseconds: " ++ decimal (outside_count_of tolerance points.now))) }
{
    let outside = outside_count(points, tolerance) as u64;
    push_counted(out, b" in microseconds: ", outside)?;
    Ok(())
}

// Appends how many residuals are outside, how many there are, and the tolerance.
fn push_counts(out: &mut Vec<u8>, axes: Axes, points: &[Point]) -> Result<(), NoMemory>
    ensures { OnOk result (out.new.items ≡ out.old.items ++ counts_text axes points.now) }
{
    push_outside(out, axes.tolerance, points)?;
    push_counted(out, b" of ", points.len() as u64)?;
    push_tolerance(out, axes)?;
    Ok(())
}

// Appends the tolerance in microseconds.
fn push_tolerance(out: &mut Vec<u8>, axes: Axes) -> Result<(), NoMemory>
    ensures { OnOk result (out.new.items ≡ out.old.items ++ valued (codes " outside ") (pos axes.tolerance) []) }
{
    push_valued(out, b" outside ", tolerance_of(axes), b"")?;
    Ok(())
}

// Appends the worst residual, where there is one.
fn push_worst_of(out: &mut Vec<u8>, points: &[Point]) -> Result<(), NoMemory>
    ensures { OnOk result (out.new.items ≡ out.old.items ++ worst_text (worst_of_points points.now)) }
{
    push_worst(out, worst(points))?;
    Ok(())
}

// Appends the kernel, these counts, and the worst residual.
fn push_caption(
    out: &mut Vec<u8>,
    name: &[u8],
    axes: Axes,
    points: &[Point],
) -> Result<(), NoMemory>
    requires { AreAxes axes }
    ensures { OnOk result (out.new.items ≡ out.old.items ++ caption_text name.now axes points.now) }
{
    push_counted(out, b"<text x=\"120\" y=\"", axes.zero - 228)?;
    push_named(out, b"\">Residuals by ", name)?;
    push_counts(out, axes, points)?;
    push_worst_of(out, points)?;
    push_text(out, b"</text>\n")?;
    Ok(())
}

#[tactic(auto, unfolding(crate::specs::Picture::band_at))]
fn push_band_at(out: &mut Vec<u8>, top: Fixed<2>, height: Fixed<2>) -> Result<(), NoMemory>
    ensures { OnOk result (out.new.items ≡ out.old.items ++ band_at top.units height.units) }
{
    push_placed(
        out,
        b"<rect class=\"band\" fill=\"#e3f1e8\" x=\"120\" width=\"1000\" y=\"",
        top,
    )?;
    push_placed(out, b"\" height=\"", height)?;
    push_text(out, b"\"/>\n")?;
    Ok(())
}

// The place of the band's upper edge.
fn top_of(values: Values) -> Fixed<2>
    requires some { 1 ≤ values.reach }
    requires low { values.zero ≤ 10 ^ 4 }
    ensures { result.units ≡ pos (100 * values.zero) -ℤ band_top_of values.reach values.tolerance }
{
    Fixed {
        units: i128::from(100 * values.zero) - band_top(values),
    }
}

// The height of the band.
fn height_of(values: Values) -> Fixed<2>
    requires { 1 ≤ values.reach }
    ensures { result.units ≡ band_top_of values.reach values.tolerance -ℤ band_bottom_of values.reach values.tolerance }
{
    Fixed {
        units: band_top(values) - band_bottom(values),
    }
}

// Appends the band of the tolerance.
#[tactic(auto, unfolding(crate::specs::Picture::band_text))]
fn push_band(out: &mut Vec<u8>, axes: Axes) -> Result<(), NoMemory>
    requires { AreAxes axes }
    ensures { OnOk result (out.new.items ≡ out.old.items ++ band_text axes) }
{
    let values = sheet_of(axes).values;
    push_band_at(out, top_of(values), height_of(values))
}

// Appends the lines at which triples begin.
fn push_all_lines(out: &mut Vec<u8>, axes: Axes, pieces: &[Piece]) -> Result<(), NoMemory>
    requires { AreAxes axes }
    ensures { OnOk result (out.new.items ≡ out.old.items ++ lines_text (sheet_of_axes axes) (pos 0) pieces.now) }
{
    push_lines(out, sheet_of(axes), pieces)?;
    Ok(())
}

// Appends the marks.
fn push_all_marks(out: &mut Vec<u8>, axes: Axes, points: &[Point]) -> Result<(), NoMemory>
    requires { AreAxes axes }
    ensures { OnOk result (out.new.items ≡ out.old.items ++ marks_text (sheet_of_axes axes) points.now) }
{
    push_marks(out, sheet_of(axes), points)?;
    Ok(())
}

// Appends the steps of the rates.
fn push_all_steps(out: &mut Vec<u8>, axes: Axes, pieces: &[Piece]) -> Result<(), NoMemory>
    requires { AreAxes axes }
    ensures { OnOk result (out.new.items ≡ out.old.items ++ steps_text (sheet_of_axes axes) pieces.now) }
{
    push_steps(out, sheet_of(axes), pieces)?;
    Ok(())
}

/// Appends a panel of residuals.
pub fn push_residuals(
    out: &mut Vec<u8>,
    name: &[u8],
    axes: Axes,
    panel: &Panel,
) -> Result<(), NoMemory>
    requires { AreAxes axes }
    ensures { OnOk result (out.new.items ≡ out.old.items ++ residuals_text name.now axes panel.now) }
{
    push_band(out, axes)?;
    push_ground(out, axes)?;
    push_caption(out, name, axes, panel.points())?;
    push_all_lines(out, axes, panel.pieces())?;
    push_all_marks(out, axes, panel.points())?;
    Ok(())
}

/// The axes of these residuals about a line of 0.
pub fn axes_of(days: Days, zero: u64, tolerance: u64, points: &[Point]) -> Axes
    requires days { AreDays days }
    requires high { 300 ≤ zero }
    requires low { zero ≤ 10 ^ 4 }
    requires few { tolerance ≤ 10 ^ 17 }
    ensures value { result ≡ axes_by days zero tolerance points.now }
    ensures axes { AreAxes result }
{
    Axes {
        days,
        zero,
        step: step_for(tolerance, worst_size(points)),
        tolerance,
    }
}

// Axes of which the days alone count.
fn bare_axes(days: Days) -> Axes
    requires { AreDays days }
    ensures value { result ≡ bare_axes_by days }
    ensures axes { AreAxes result }
{
    Axes {
        days,
        zero: 300,
        step: 1,
        tolerance: 0,
    }
}

// What the axis of the rates is to show.
fn shown_drift(days: Days, pieces: &[Piece]) -> u64
    requires { AreDays days }
    ensures value { result ≡ shown_by days pieces.now }
    ensures few { result ≤ 10 ^ 17 }
{
    let worst = worst_drift(sheet_of(bare_axes(days)), pieces);
    if MOST_DRIFT < worst {
        MOST_DRIFT as u64
    } else {
        worst as u64
    }
}

/// The axes of these rates about a line of 0.
pub fn rate_axes(days: Days, zero: u64, pieces: &[Piece]) -> Axes
    requires days { AreDays days }
    requires high { 300 ≤ zero }
    requires low { zero ≤ 10 ^ 4 }
    ensures value { result ≡ rate_axes_by days zero pieces.now }
    ensures axes { AreAxes result }
{
    let step = step_for(shown_drift(days, pieces), 0);
    Axes {
        days,
        zero,
        step,
        tolerance: 5 * step,
    }
}

#[tactic(auto, unfolding(crate::specs::Picture::rates_caption))]
fn push_rates_caption(out: &mut Vec<u8>, y: u64) -> Result<(), NoMemory>
    ensures { OnOk result (out.new.items ≡ out.old.items ++ rates_caption y) }
{
    push_counted(out, b"<text x=\"120\" y=\"", y)?;
    push_text(
        out,
        b"\">Rates of --kernel in parts of 10^9 from that of triple 1, over days of TDT past J2000</text>\n",
    )?;
    Ok(())
}

/// Appends the panel of the rates.
pub fn push_rates(out: &mut Vec<u8>, axes: Axes, pieces: &[Piece]) -> Result<(), NoMemory>
    requires { AreAxes axes }
    ensures { OnOk result (out.new.items ≡ out.old.items ++ rates_text axes pieces.now) }
{
    push_ground(out, axes)?;
    push_rates_caption(out, axes.zero - 228)?;
    push_all_lines(out, axes, pieces)?;
    push_all_steps(out, axes, pieces)?;
    Ok(())
}
