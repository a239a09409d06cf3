//! How far a record lies from a line.

ghost use Rattle.std.specs.Prelude.{◌≡◌, ◌++◌, OnOk, nat_abs, pos};
ghost use Rattle.sk_decimal.specs.Fixed.{fixed_text};
ghost use Rattle.sk_advice.specs.Distances.{away, distance_text, side as side_of};

use crate::naming::push_text;
use sk_checks::NoMemory;
use sk_decimal::{Fixed, Line};

/// Appends a size of 10^-12 s in microseconds, with six decimals.
fn push_microseconds(line: &mut Vec<u8>, size: u128) -> Result<(), NoMemory>
    ensures { OnOk result (line.new.items ≡ line.old.items ++ fixed_text 6 (pos size)) }
{
    let mut text = Line::new();
    text.push_number(size / 1_000_000);
    text.push(b".");
    text.push_padded(6, size % 1_000_000);
    line.extend_from_slice(text.as_slice())?;
    Ok(())
}

fn side(distance: Fixed<12>) -> &'static str
    ensures { result.now ≡ side_of distance.units }
{
    if distance.units < 0 {
        " us before "
    } else {
        " us after "
    }
}

/// Appends how far a time lies after or before a line.
pub fn push_distance(line: &mut Vec<u8>, distance: Fixed<12>) -> Result<(), NoMemory>
    ensures { OnOk result (line.new.items ≡ line.old.items ++ distance_text distance.units) }
{
    push_microseconds(line, distance.units.unsigned_abs())?;
    push_text(line, side(distance))?;
    Ok(())
}

/// Appends the same in brackets, with the name of the line.
pub fn push_away(line: &mut Vec<u8>, distance: Fixed<12>, name: &str) -> Result<(), NoMemory>
    ensures { OnOk result (line.new.items ≡ line.old.items ++ away distance.units name.now) }
{
    push_text(line, " (")?;
    push_distance(line, distance)?;
    push_text(line, name)?;
    push_text(line, ")")?;
    Ok(())
}
