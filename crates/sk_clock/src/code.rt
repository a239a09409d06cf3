//! CUC codes as readings of the clock.

ghost use Rattle.std.specs.Prelude.{◌≡◌, ◌*◌, ◌+◌, ◌^◌, ◌<◌, ◌↔◌, ◌==◌, if◌then◌else◌, All, IsTrue};
ghost use Rattle.sk_checks.specs.Checks.{Judges};
ghost use Rattle.sk_cuc.specs.Code.{count as count_of_code};
ghost use Rattle.sk_clock.specs.Clock.{Encodes};
ghost use Rattle.sk_clock.specs.ClockText.{code_checks, HasWrongShape};

use crate::clock::Clock;
use crate::fault::ClockFault;
use crate::field::Field;
use sk_cuc::AnyCuc;

/// Whether all fields count from 0.
fn all_from_zero(fields: &[Field]) -> bool
    ensures { IsTrue result ↔ All (λ field. field.offset ≡ 0) fields.now }
{
    fields.iter().all(|field| field.offset == 0)
}

/// The count of the code, in units of its last fraction octet.
fn count_of(code: &AnyCuc) -> u128
    ensures { result ≡ count_of_code code.now }
{
    u128::from(code.coarse()) * 256u128.pow(code.fraction()) + u128::from(code.fine())
}

/// How many fields a clock has whose counts have so many fraction octets.
fn field_count(fraction: u32) -> usize
    ensures { result ≡ (if fraction == 0 then 1 else 2) }
{
    if fraction == 0 { 1 } else { 2 }
}

impl Clock {
    /// Whether the fields of the clock are not those of the code.
    fn has_wrong_shape(&self, code: &AnyCuc) -> bool
        ensures { IsTrue result ↔ HasWrongShape self.now code.now }
    {
        let fields = self.fields.as_slice();
        if !all_from_zero(fields) {
            return true;
        }
        let fraction = code.fraction();
        let ticks = self.ticks_per();
        let scale = 256u64.pow(fraction);
        if ticks != scale {
            return true;
        }
        let count = fields.len();
        let expected = field_count(fraction);
        if count != expected {
            return true;
        }
        false
    }

    /// The encoded tick of a CUC code, in the named partition or the first that has its count. Either epoch is taken.
    pub fn ticks_of_cuc(&self, part: Option<u32>, code: &AnyCuc) -> Result<u64, ClockFault>
        ensures { Judges (code_checks self.now part code.now) (Encodes self.now part (count_of_code code.now)) result }
    {
        if self.has_wrong_shape(code) {
            return Err(ClockFault::WrongShape);
        }
        self.tick_of(part, count_of(code))
    }
}
