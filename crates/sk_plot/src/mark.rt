//! The marks of the observations.

ghost use Rattle.std.specs.Prelude.{◌≡◌, ◌++◌, OnOk, codes, decimal};
ghost use Rattle.sk_decimal.specs.Fixed.{fixed_text};
ghost use Rattle.sk_plot.specs.Escape.{escaped};
ghost use Rattle.sk_plot.specs.Picture.{IsSheet, class_of as class_of_value, circle_text, title_text, value_text, off_text, mark_text, marks_text};

use crate::escape::push_escaped;
use crate::place::{Sheet, cross_at, is_inside, is_on, level_at};
use crate::point::Point;
use sk_checks::NoMemory;
use sk_decimal::{Fixed, Line};

/// Appends the bytes.
pub fn push_text(out: &mut Vec<u8>, text: &[u8]) -> Result<(), NoMemory>
    ensures { OnOk result (out.new.items ≡ out.old.items ++ text.now) }
{
    out.extend_from_slice(text)?;
    Ok(())
}

/// Appends a text and a number.
pub fn push_counted(out: &mut Vec<u8>, text: &[u8], number: u64) -> Result<(), NoMemory>
    ensures { OnOk result (out.new.items ≡ out.old.items ++ (text.now ++ decimal number)) }
{
    let mut line = Line::new();
    line.push_number(u128::from(number));
    push_text(out, text)?;
    push_text(out, line.as_slice())?;
    Ok(())
}

/// Appends the bytes, and hundredths of a unit.
pub fn push_placed(out: &mut Vec<u8>, text: &[u8], hundredths: Fixed<2>) -> Result<(), NoMemory>
    ensures { OnOk result (out.new.items ≡ out.old.items ++ (text.now ++ fixed_text 2 hundredths.units)) }
{
    push_text(out, text)?;
    push_place(out, hundredths)?;
    Ok(())
}

/// Appends a number with six decimals, between two texts.
pub fn push_valued(
    out: &mut Vec<u8>,
    before: &[u8],
    value: Fixed<6>,
    after: &[u8],
) -> Result<(), NoMemory>
    ensures { OnOk result (out.new.items ≡ out.old.items ++ (before.now ++ (fixed_text 6 value.units ++ after.now))) }
{
    push_text(out, before)?;
    push_value(out, value)?;
    push_text(out, after)?;
    Ok(())
}

/// Appends two texts, of which the second is escaped.
pub fn push_named(out: &mut Vec<u8>, before: &[u8], name: &[u8]) -> Result<(), NoMemory>
    ensures { OnOk result (out.new.items ≡ out.old.items ++ (before.now ++ escaped name.now)) }
{
    push_text(out, before)?;
    push_escaped(out, name)?;
    Ok(())
}

/// Appends hundredths of a unit.
pub fn push_place(out: &mut Vec<u8>, hundredths: Fixed<2>) -> Result<(), NoMemory>
    ensures { OnOk result (out.new.items ≡ out.old.items ++ fixed_text 2 hundredths.units) }
{
    hundredths.print(out)
}

// Appends a value in microseconds.
fn push_value(out: &mut Vec<u8>, value: Fixed<6>) -> Result<(), NoMemory>
    ensures { OnOk result (out.new.items ≡ out.old.items ++ fixed_text 6 value.units) }
{
    value.print(out)
}

/// The residual in microseconds.
pub fn micros(point: &Point) -> Fixed<6>
    ensures { result.units ≡ point.now.residual }
{
    Fixed {
        units: point.residual.units,
    }
}

fn class_of(tolerance: u64, value: Fixed<12>) -> &'static [u8]
    ensures { result.now ≡ class_of_value tolerance value.units }
{
    if is_inside(tolerance, value.units) {
        b"inside\" fill=\"#1d4f91"
    } else {
        b"outside\" fill=\"#c00020"
    }
}

fn push_circle(out: &mut Vec<u8>, class: &[u8], x: Fixed<2>, y: Fixed<2>) -> Result<(), NoMemory>
    ensures { OnOk result (out.new.items ≡ out.old.items ++ circle_text class.now x.units y.units) }
{
    push_text(out, b"<circle class=\"")?;
    push_text(out, class)?;
    push_placed(out, b"\" cx=\"", x)?;
    push_placed(out, b"\" cy=\"", y)?;
    push_text(out, b"\" r=\"2.5\">")?;
    Ok(())
}

#[tactic(auto, unfolding(crate::specs::Picture::title_text))]
fn push_title(out: &mut Vec<u8>, point: &Point) -> Result<(), NoMemory>
    ensures { OnOk result (out.new.items ≡ out.old.items ++ title_text point.now) }
{
    push_named(out, b"<title>", point.id.as_slice())?;
    push_named(out, b" ", point.clock.as_slice())?;
    push_valued(out, b" ", micros(point), b" us</title></circle>\n")?;
    Ok(())
}

#[tactic(auto, unfolding(crate::specs::Picture::value_text))]
fn push_off_value(
    out: &mut Vec<u8>,
    x: Fixed<2>,
    y: Fixed<2>,
    value: Fixed<6>,
) -> Result<(), NoMemory>
    ensures { OnOk result (out.new.items ≡ out.old.items ++ value_text x.units y.units value.units) }
{
    push_placed(out, b"<text class=\"value\" fill=\"#c00020\" x=\"", x)?;
    push_placed(out, b"\" y=\"", y)?;
    push_valued(out, b"\" dx=\"6\" dy=\"4\">", value, b"</text>\n")?;
    Ok(())
}

#[tactic(auto, unfolding(crate::specs::Picture::off_text))]
fn push_off(
    out: &mut Vec<u8>,
    reach: u64,
    x: Fixed<2>,
    y: Fixed<2>,
    value: Fixed<6>,
) -> Result<(), NoMemory>
    ensures { OnOk result (out.new.items ≡ out.old.items ++ off_text reach x.units y.units value.units) }
{
    if is_on(reach, value.units) {
        return Ok(());
    }
    push_off_value(out, x, y, value)?;
    Ok(())
}

/// Appends the mark of an observation.
#[tactic(auto, unfolding(crate::specs::Picture::mark_text))]
pub fn push_mark(out: &mut Vec<u8>, sheet: Sheet, point: &Point) -> Result<(), NoMemory>
    requires { IsSheet sheet }
    ensures { OnOk result (out.new.items ≡ out.old.items ++ mark_text sheet point.now) }
{
    let x = cross_at(sheet, point.time);
    let y = level_at(sheet, point.residual);
    let class = class_of(sheet.values.tolerance, point.residual);
    push_circle(out, class, x, y)?;
    push_title(out, point)?;
    push_off(out, sheet.values.reach, x, y, micros(point))?;
    Ok(())
}

/// Appends the marks of the observations, in order.
pub fn push_marks(out: &mut Vec<u8>, sheet: Sheet, points: &[Point]) -> Result<(), NoMemory>
    requires { IsSheet sheet }
    ensures { OnOk result (out.new.items ≡ out.old.items ++ marks_text sheet points.now) }
{
    for point in points {
        push_mark(out, sheet, point)?;
    }
    Ok(())
}
