//! A number's digits and its power of ten as a decimal.

ghost use Rattle.std.specs.Prelude.{◌≡◌, ◌≢◌, ◌+◌, ◌*◌, ◌%◌, ◌^◌, ◌<◌, ◌≤◌, IfSome, IfNone, IsTrue, ◌++◌, ℕ, min, length};
ghost use Rattle.std.specs.Char.{is_ascii_digit};
ghost use Rattle.std.specs.List.{list_all};
ghost use Rattle.std.specs.Str.Parse.{digits_value};
ghost use Rattle.sk_decimal.specs.Number.{signed};
ghost use Rattle.sk_decimal.specs.Fixed.{HasUnits};
ghost use Rattle.sk_decimal.specs.Reading.{decimal_of, reduced as reduced_of};
ghost use Rattle.sk_decimal.specs.Power.{with_power};
ghost use Rattle.sk_decimal.specs.Significant.{IsNowhere, IsPlaced, IsSignificant, IsWide, number_of_part};

use crate::decimal::Decimal;
use crate::reading::{Power, Significant, significant_behind};
use crate::short::short_decimal;

/// The number of this size with a sign.
pub fn with_sign(negative: bool, size: u128) -> i128
    requires { size < 2 ^ 127 }
    ensures { result ≡ signed negative size }
{
    let size = size as i128;
    if negative { -size } else { size }
}

/// `size` over ten to `scale` without zeros at its end: the new size and scale.
fn reduced(scale: u32, size: u128) -> (u128, u32)
    ensures { (result.0, result.1) ≡ reduced_of scale size }
{
    let mut size = size;
    let mut scale = scale;
    while scale > 0 && size % 10 == 0 {
        size /= 10;
        scale -= 1;
    }
    (size, scale)
}

/// The decimal that is `size` over ten to `places`, with a sign.
pub fn decimal_over(negative: bool, size: u128, places: u32) -> Decimal
    requires size { size < 2 ^ 127 }
    requires places { places ≤ 38 }
    ensures { HasUnits places result (signed negative size) }
{
    let (size, scale) = reduced(places, size);
    Decimal::new(with_sign(negative, size), scale)
}

/// The decimal that is `part` times ten to `raise`, over ten to `lower`.
pub fn placed(negative: bool, part: u128, raise: u128, lower: u128) -> Option<Decimal>
    requires part { (part % 10 ≢ 0) × (part < 2 ^ 127) }
    requires powers { (raise < 2 ^ 127) × (lower < 2 ^ 127) }
    ensures some { IfSome result (IsPlaced negative part raise lower) }
    ensures none { IfNone result (IsNowhere part raise lower) }
{
    if raise >= lower {
        raised(negative, part, raise, lower)
    } else {
        lowered(negative, part, raise, lower)
    }
}

fn raised(negative: bool, part: u128, raise: u128, lower: u128) -> Option<Decimal>
    requires part { (part % 10 ≢ 0) × (part < 2 ^ 127) }
    requires order { lower ≤ raise }
    ensures some { IfSome result (IsPlaced negative part raise lower) }
    ensures none { IfNone result (IsNowhere part raise lower) }
{
    if raise - lower > 38 {
        return None;
    }
    let scale = 10u128.pow((raise - lower) as u32);
    match part.checked_mul(scale) {
        None => None,
        Some(size) => {
            if size < 1 << 127 {
                Some(Decimal::new(with_sign(negative, size), 0))
            } else {
                None
            }
        }
    }
}

fn lowered(negative: bool, part: u128, raise: u128, lower: u128) -> Option<Decimal>
    requires part { (part % 10 ≢ 0) × (part < 2 ^ 127) }
    requires order { raise < lower }
    ensures some { IfSome result (IsPlaced negative part raise lower) }
    ensures none { IfNone result (IsNowhere part raise lower) }
{
    if lower - raise > 38 {
        return None;
    }
    Some(Decimal::new(with_sign(negative, part), (lower - raise) as u32))
}

/// The digits before and behind a point as one number; `None` where its part is too wide.
fn significant_of(whole: &[u8], fraction: &[u8]) -> Option<Significant>
    requires whole { IsTrue (list_all is_ascii_digit whole.now) }
    requires fraction { IsTrue (list_all is_ascii_digit fraction.now) }
    ensures some { IfSome result (λ s. IsSignificant s × (digits_value 10 (whole.now ++ fraction.now) ≡ number_of_part s) × (s.zeros < 2 ^ 66)) }
    ensures none { IfNone result (IsWide (digits_value 10 (whole.now ++ fraction.now))) }
{
    let _whole_len = whole.len();
    let _fraction_len = fraction.len();
    let none = Significant { part: 0, zeros: 0 };
    match significant_behind(none, whole) {
        None => None,
        Some(front) => match significant_behind(front, fraction) {
            None => None,
            Some(both) => Some(both),
        },
    }
}

/// The decimal of these digits and this power; `None` where none has the value.
pub fn decimal_at(negative: bool, whole: &[u8], fraction: &[u8], power: Power) -> Option<Decimal>
    requires whole { IsTrue (list_all is_ascii_digit whole.now) }
    requires fraction { IsTrue (list_all is_ascii_digit fraction.now) }
    requires power { power.size ≤ 2 ^ 100 }
    ensures { (size : ℕ) → power.size ≡ min size (2 ^ 100) → result ≡ decimal_of (with_power negative whole.now fraction.now power.negative size) }
{
    // Most numbers are short.
    if whole.len() <= 18 && fraction.len() <= 18 - whole.len() && power.size <= 18 {
        return Some(short_decimal(negative, whole, fraction, power));
    }
    let length = fraction.len() as u128;
    match significant_of(whole, fraction) {
        None => None,
        Some(all) => {
            if all.part == 0 {
                Some(Decimal::new(0, 0))
            } else {
                let raise = all.zeros + power.up();
                let lower = power.down() + length;
                placed(negative, all.part, raise, lower)
            }
        }
    }
}
