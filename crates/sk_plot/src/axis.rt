//! The ground of a panel: its frame, the lines of its axes and their labels.

ghost use Rattle.std.specs.Prelude.{◌≡◌, ◌≤◌, ◌+◌, ◌-◌, ◌*◌, ◌^◌, ◌++◌, OnOk, decimal, pos, neg_ℤ, ◌+ℤ◌, ◌-ℤ◌, ◌≤ℤ◌};
ghost use Rattle.sk_plot.specs.Picture.{AreDays, AreAxes, label_text, level_text, levels_text, frame_text, ground_text, day_text, days_text as days_text_of};

use crate::mark::{push_counted, push_text};
use crate::panel::Axes;
use crate::scale::Days;
use sk_checks::NoMemory;
use sk_decimal::{Fixed, floor_div};

const WHOLE: u64 = 1_000_000;

const DAY_LINES: &[u8] =
    b"v410m100-410v410m100-410v410m100-410v410m100-410v410m100-410v410m100-410v410m100-410v410m100-410v410\"/>\n";

// Appends a number with six decimals, without these where the step is whole.
#[tactic(auto, unfolding(crate::specs::Picture::label_text))]
fn push_label(out: &mut Vec<u8>, step: u64, value: Fixed<6>) -> Result<(), NoMemory>
    ensures { OnOk result (out.new.items ≡ out.old.items ++ label_text step value.units) }
{
    if step % WHOLE == 0 {
        let whole = Fixed::<0> {
            units: floor_div(value.units, 1_000_000),
        };
        return whole.print(out);
    }
    value.print(out)
}

// The value at a line of a panel.
fn level_value(step: u64, k: u64) -> Fixed<6>
    requires { k ≤ 10 }
    ensures { result.units ≡ pos (k * step) -ℤ pos (5 * step) }
{
    Fixed {
        units: i128::from(k) * i128::from(step) - 5 * i128::from(step),
    }
}

fn push_level(out: &mut Vec<u8>, foot: u64, step: u64, k: u64) -> Result<(), NoMemory>
    requires few { k ≤ 10 }
    requires foot { 400 ≤ foot }
    ensures { OnOk result (out.new.items ≡ out.old.items ++ level_text foot step k) }
{
    let y = foot - 40 * k;
    push_counted(out, b"<path class=\"grid\" stroke=\"#c8ccd0\" d=\"M120 ", y)?;
    push_counted(out, b"H1120\"/>\n<text x=\"112\" y=\"", y)?;
    push_text(out, b"\" dy=\"4\" text-anchor=\"end\">")?;
    push_label(out, step, level_value(step, k))?;
    push_text(out, b"</text>\n")?;
    Ok(())
}

// Appends the eleven lines of a panel, from the lowest one.
fn push_levels(out: &mut Vec<u8>, foot: u64, step: u64) -> Result<(), NoMemory>
    requires { 400 ≤ foot }
    ensures { OnOk result (out.new.items ≡ out.old.items ++ levels_text foot step 11) }
{
    for k in 0..11 {
        push_level(out, foot, step, k)?;
    }
    Ok(())
}

// Appends the frame of a panel from its upper edge down, and the lines of the days.
#[tactic(auto, unfolding(crate::specs::Picture::frame_text))]
fn push_frame(out: &mut Vec<u8>, top: u64) -> Result<(), NoMemory>
    ensures { OnOk result (out.new.items ≡ out.old.items ++ frame_text top) }
{
    push_counted(
        out,
        b"<rect class=\"frame\" fill=\"none\" stroke=\"#8a9096\" x=\"120\" width=\"1000\" height=\"410\" y=\"",
        top,
    )?;
    push_counted(
        out,
        b"\"/>\n<path class=\"grid\" stroke=\"#e3e6e8\" d=\"M220 ",
        top,
    )?;
    push_text(out, DAY_LINES)?;
    Ok(())
}

/// Appends the ground of a panel.
#[tactic(auto, unfolding(crate::specs::Picture::ground_text))]
pub fn push_ground(out: &mut Vec<u8>, axes: Axes) -> Result<(), NoMemory>
    requires { AreAxes axes }
    ensures { OnOk result (out.new.items ≡ out.old.items ++ ground_text axes) }
{
    push_frame(out, axes.zero - 205)?;
    push_levels(out, axes.zero + 200, axes.step)?;
    Ok(())
}

// The place of a line of the days, in millionths of a day.
fn day_value(days: Days, k: u64) -> Fixed<6>
    requires few { k ≤ 10 }
    requires days { AreDays days }
    ensures { result.units ≡ days.left +ℤ pos (k * days.step) }
{
    Fixed {
        units: days.left + i128::from(k) * i128::from(days.step),
    }
}

fn push_day(out: &mut Vec<u8>, y: u64, days: Days, k: u64) -> Result<(), NoMemory>
    requires few { k ≤ 10 }
    requires days { AreDays days }
    ensures { OnOk result (out.new.items ≡ out.old.items ++ day_text y days k) }
{
    push_counted(out, b"<text x=\"", 120 + 100 * k)?;
    push_counted(out, b"\" y=\"", y)?;
    push_text(out, b"\" text-anchor=\"middle\">")?;
    push_label(out, days.step, day_value(days, k))?;
    push_text(out, b"</text>\n")?;
    Ok(())
}

/// Appends the numbers of the eleven lines of the days, from the left one.
pub fn push_days(out: &mut Vec<u8>, y: u64, days: Days) -> Result<(), NoMemory>
    requires { AreDays days }
    ensures { OnOk result (out.new.items ≡ out.old.items ++ days_text_of y days 11) }
{
    for k in 0..11 {
        push_day(out, y, days, k)?;
    }
    Ok(())
}
