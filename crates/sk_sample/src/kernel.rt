//! The clock kernel.

ghost use Rattle.std.specs.Prelude.{◌≡◌, ◌≤◌, length};
ghost use Rattle.sk_sample.specs.Sample.{kernel_text as kernel_text_of, spacecraft};

/// The number of the kernel's spacecraft, without NAIF's minus sign.
pub const SPACECRAFT: u32 = 99;

const KERNEL: &str = "KPL/SCLK
\\begindata
SCLK_KERNEL_ID = @2024-01-01
SCLK_DATA_TYPE_99 = 1
SCLK01_TIME_SYSTEM_99 = 2
SCLK01_N_FIELDS_99 = 2
SCLK01_MODULI_99 = (
4294967296 256
)
SCLK01_OFFSETS_99 = (
0 0
)
SCLK01_OUTPUT_DELIM_99 = 2
SCLK_PARTITION_START_99 = 0
SCLK_PARTITION_END_99 = 1099511627775
SCLK01_COEFFICIENTS_99 = (
0 0 1
)
\\begintext
";

/// The text of the kernel, in the canonical layout: a clock of type 1 (NAIF, SCLK Required Reading) that counts seconds
/// in 32 bits and their 256th parts, with one partition from tick 0 to tick 2^40 - 1, and one triple, by which tick 0 is
/// 0 s past J2000 TDT and a count is a second.
#[tactic(auto, unfolding(crate::specs::Sample::kernel_text))]
pub fn kernel_text() -> &'static str
    ensures text { result.now ≡ kernel_text_of }
    ensures short { length result.now ≤ 1000 }
{
    KERNEL
}
