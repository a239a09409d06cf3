//! Numbers of few digits, whose arithmetic fits 64 bits.

ghost use Rattle.std.specs.Prelude.{◌≡◌, ◌+◌, ◌*◌, ◌^◌, ◌<◌, ◌≤◌, length, IsTrue, Some};
ghost use Rattle.std.specs.Char.{is_ascii_digit};
ghost use Rattle.std.specs.List.{list_all};
ghost use Rattle.std.specs.Str.Parse.{digits_value_after};
ghost use Rattle.sk_decimal.specs.Power.{with_power};
ghost use Rattle.sk_decimal.specs.Reading.{decimal_of, reduced as reduced_of};
ghost use Rattle.sk_decimal.specs.Significant.{IsPlaced};

use crate::decimal::Decimal;
use crate::placing::with_sign;
use crate::reading::{Power, digit_of};

/// The number that few digits write behind those of `front`.
pub fn short_value(front: u64, digits: &[u8]) -> u64
    requires digits { IsTrue (list_all is_ascii_digit digits.now) }
    requires few { (front + 1) * 10 ^ length digits.now ≤ 10 ^ 18 }
    ensures value { result ≡ digits_value_after 10 front digits.now }
    ensures small { result + 1 ≤ (front + 1) * 10 ^ length digits.now }
{
    let mut value = front;
    for byte in digits {
        value = value * 10 + u64::from(digit_of(*byte));
    }
    value
}

/// `size` over ten to `scale` without zeros at its end: the new size and scale.
fn reduced(scale: u32, size: u64) -> (u64, u32)
    ensures { (result.0, result.1) ≡ reduced_of scale size }
{
    let mut size = size;
    let mut scale = scale;
    while scale > 0 && size % 10 == 0 {
        size /= 10;
        scale -= 1;
    }
    (size, scale)
}

/// The decimal that is `size` times ten to `raise`, over ten to `lower`.
fn placed(negative: bool, size: u64, raise: u32, lower: u32) -> Decimal
    requires size { size < 10 ^ 18 }
    requires powers { (raise ≤ 18) × (lower ≤ 36) }
    ensures { IsPlaced negative size raise lower result }
{
    if raise >= lower {
        let scale = 10u64.pow(raise - lower);
        return Decimal::new(with_sign(negative, u128::from(size) * u128::from(scale)), 0);
    }
    let (size, scale) = reduced(lower - raise, size);
    Decimal::new(with_sign(negative, u128::from(size)), scale)
}

/// The decimal of few digits and a small power.
pub fn short_decimal(negative: bool, whole: &[u8], fraction: &[u8], power: Power) -> Decimal
    requires whole { IsTrue (list_all is_ascii_digit whole.now) }
    requires fraction { IsTrue (list_all is_ascii_digit fraction.now) }
    requires few { length whole.now + length fraction.now ≤ 18 }
    requires power { power.size ≤ 18 }
    ensures { decimal_of (with_power negative whole.now fraction.now power.negative power.size) ≡ Some result }
{
    let size = short_value(short_value(0, whole), fraction);
    let length = fraction.len() as u32;
    placed(
        negative,
        size,
        power.up() as u32,
        power.down() as u32 + length,
    )
}
