//! The names of a clock kernel's variables.

ghost use Rattle.std.specs.Prelude.{◌≡◌, ◌≤◌, ◌++◌, ℕ, length, decimal};
ghost use Rattle.sk_clock.specs.Kernel.{name_of as name_for, time_system as time_system_for};

use crate::fault::ClockName;
use sk_decimal::Line;

/// What stands before the spacecraft's number in the variable's name.
fn stem_of(name: ClockName) -> &'static [u8]
    ensures stem { (sc : ℕ) → result.now ++ decimal sc ≡ name_for name sc }
    ensures short { length result.now ≤ 24 }
{
    match name {
        ClockName::DataType => b"SCLK_DATA_TYPE_",
        ClockName::Fields => b"SCLK01_N_FIELDS_",
        ClockName::Moduli => b"SCLK01_MODULI_",
        ClockName::Offsets => b"SCLK01_OFFSETS_",
        ClockName::Delim => b"SCLK01_OUTPUT_DELIM_",
        ClockName::Start => b"SCLK_PARTITION_START_",
        ClockName::End => b"SCLK_PARTITION_END_",
    }
}

/// The variable's name, for the spacecraft of this number.
pub fn name_of(name: ClockName, sc: u32) -> Line
    ensures { result ≡ name_for name sc }
{
    let mut line = Line::new();
    line.push(stem_of(name));
    line.push_number(u128::from(sc));
    line
}

/// The name of the time system's variable.
pub fn time_system(sc: u32) -> Line
    ensures { result ≡ time_system_for sc }
{
    let mut line = Line::new();
    line.push(b"SCLK01_TIME_SYSTEM_");
    line.push_number(u128::from(sc));
    line
}
