//! One line of the table.

ghost use Rattle.std.specs.Prelude.{◌≡◌, ◌∷◌, [], ◌++◌, ◌+◌, ◌*◌, ◌^◌, OnOk, pos, neg_ℤ, ◌≤ℤ◌, decimal};
ghost use Rattle.sk_decimal.specs.Fixed.{fixed_text};
ghost use Rattle.sk_audit.specs.Rows.{line_with};

use crate::times::Timed;
use sk_checks::NoMemory;
use sk_decimal::{Fixed, Line};
use sk_obs::Observation;

// Appends the id, the clock text and the observed time, each with `;` behind it.
fn print_reading(out: &mut Vec<u8>, observation: &Observation, text: &str) -> Result<(), NoMemory>
    ensures { OnOk result (out.new.items ≡ out.old.items ++ observation.now.id ++ 59 ∷ (text.now ++ 59 ∷ (fixed_text 12 observation.now.time ++ 59 ∷ []))) }
{
    out.extend_from_slice(observation.id.as_slice())?;
    out.push(b';')?;
    out.extend_from_slice(text.as_bytes())?;
    out.push(b';')?;
    observation.time.print(out)?;
    out.push(b';')?;
    Ok(())
}

// Appends the number of a place, from 1, and `;`.
fn print_number(out: &mut Vec<u8>, place: usize) -> Result<(), NoMemory>
    ensures { OnOk result (out.new.items ≡ out.old.items ++ decimal (place + 1) ++ 59 ∷ []) }
{
    let mut text = Line::new();
    text.push_number(place as u128 + 1);
    text.push(b";");
    out.extend_from_slice(text.as_slice())?;
    Ok(())
}

// Appends the time, the difference and the triple's number, each with `;` behind it.
fn print_times(out: &mut Vec<u8>, timed: Timed, difference: Fixed<0>) -> Result<(), NoMemory>
    ensures { OnOk result (out.new.items ≡ out.old.items ++ fixed_text 12 timed.time.units ++ 59 ∷ (fixed_text 0 difference.units ++ 59 ∷ (decimal (timed.place + 1) ++ 59 ∷ []))) }
{
    timed.time.print(out)?;
    out.push(b';')?;
    difference.print(out)?;
    out.push(b';')?;
    print_number(out, timed.place)?;
    Ok(())
}

// Appends the kind, `;` and the end.
fn print_marks(out: &mut Vec<u8>, kind: &str, ended: &[u8]) -> Result<(), NoMemory>
    ensures { OnOk result (out.new.items ≡ out.old.items ++ kind.now ++ 59 ∷ ended.now) }
{
    out.extend_from_slice(kind.as_bytes())?;
    out.push(b';')?;
    out.extend_from_slice(ended)?;
    Ok(())
}

/// Puts the line of an observation in place of what `out` holds.
pub fn write_line(
    out: &mut Vec<u8>,
    observation: &Observation,
    text: &str,
    timed: Timed,
    kind: &str,
    ended: &[u8],
) -> Result<(), NoMemory>
    requires from { neg_ℤ (pos (10 ^ 33)) ≤ℤ timed.time.units }
    requires to { timed.time.units ≤ℤ pos (10 ^ 33) }
    ensures { OnOk result (out.new.items ≡ line_with observation.now text.now timed kind.now ended.now) }
{
    let difference = Fixed {
        units: observation.time.units - timed.time.units,
    };
    out.clear();
    print_reading(out, observation, text)?;
    print_times(out, timed, difference)?;
    print_marks(out, kind, ended)?;
    Ok(())
}
