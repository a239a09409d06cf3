//! The fields of a tick.
ghost use Rattle.std.specs.Prelude.{◌≡◌, [], ◌∷◌, ◌++◌, OnOk, decimal};
ghost use Rattle.std.specs.List.{join_with_byte};
ghost use Rattle.sk_clock.specs.Clock.{clock_text};
ghost use Rattle.sk_decimal.specs.Fixed.{fixed_text};

use sk_checks::NoMemory;
use sk_clock::Clock;
use sk_decimal::{Fixed, Line};
use std::alloc::Global;

/// Appends a number between two `;`.
fn push_tick_number(out: &mut Vec<u8>, tick: u64) -> Result<(), NoMemory>
    ensures { OnOk result (out.new.items ≡ out.old.items ++ 59 ∷ (decimal tick ++ 59 ∷ [])) }
{
    let mut text = Line::new();
    text.push(b";");
    text.push_number(u128::from(tick));
    text.push(b";");
    out.extend_from_slice(text.as_slice())?;
    Ok(())
}

/// Appends the canonical clock text of a tick, the tick, and its time with twelve decimals, joined by `;`.
pub fn push_tick(
    out: &mut Vec<u8>,
    clock_text: &str,
    tick: u64,
    time: Fixed<12>,
) -> Result<(), NoMemory>
    ensures { OnOk result (out.new.items ≡ out.old.items ++ join_with_byte 59 (clock_text.now ∷ decimal tick ∷ fixed_text 12 time.units ∷ [])) }
{
    out.extend_from_slice(clock_text.as_bytes())?;
    push_tick_number(out, tick)?;
    time.print(out)?;
    Ok(())
}
