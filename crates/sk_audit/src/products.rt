//! Products and quotients of 128 bits.

ghost use Rattle.std.specs.Prelude.{◌≡◌, ◌↔◌, IsTrue, false, ◌-◌, ◌*◌, ◌^◌, ◌<◌, ◌≤◌, ℤ, pos, neg_ℤ, ◌+ℤ◌, ◌-ℤ◌, ◌*ℤ◌, ◌≤ℤ◌, ◌<ℤ◌};
ghost use Rattle.sk_decimal.specs.Quotient.{floor_quotient, ceiling_quotient};

use crate::line::Bounds;

/// Time units as 10^-18 s.
pub fn in_seconds(time: i128) -> i128
    requires from { neg_ℤ (pos (91 * 10 ^ 20)) ≤ℤ time }
    requires to { time ≤ℤ pos (91 * 10 ^ 20) }
    ensures value { result ≡ time *ℤ pos (10 ^ 6) }
    ensures from { neg_ℤ (pos (91 * 10 ^ 26)) ≤ℤ result }
    ensures to { result ≤ℤ pos (91 * 10 ^ 26) }
{
    time * 1_000_000
}

/// A time of 10^-18 s times ticks per count.
fn times_count(time: i128, ticks_per: u64) -> i128
    requires from { neg_ℤ (pos (91 * 10 ^ 26)) ≤ℤ time }
    requires to { time ≤ℤ pos (91 * 10 ^ 26) }
    requires few { ticks_per ≤ 2 ^ 32 }
    ensures value { result ≡ time *ℤ pos ticks_per }
    ensures from { neg_ℤ (pos (4 * 10 ^ 37)) ≤ℤ result }
    ensures to { result ≤ℤ pos (4 * 10 ^ 37) }
{
    time * ticks_per as i128
}

/// A time of units as 10^-18 s times ticks per count.
pub fn scaled(time: i128, ticks_per: u64) -> i128
    requires from { neg_ℤ (pos (91 * 10 ^ 20)) ≤ℤ time }
    requires to { time ≤ℤ pos (91 * 10 ^ 20) }
    requires few { ticks_per ≤ 2 ^ 32 }
    ensures value { result ≡ (time *ℤ pos (10 ^ 6)) *ℤ pos ticks_per }
    ensures from { neg_ℤ (pos (4 * 10 ^ 37)) ≤ℤ result }
    ensures to { result ≤ℤ pos (4 * 10 ^ 37) }
{
    times_count(in_seconds(time), ticks_per)
}

/// An anchor's time times ticks per count.
pub fn begun(time: i128, ticks_per: u64) -> i128
    requires from { neg_ℤ (pos (6 * 10 ^ 37)) ≤ℤ (time *ℤ pos ticks_per) }
    requires to { (time *ℤ pos ticks_per) ≤ℤ pos (6 * 10 ^ 37) }
    ensures value { result ≡ time *ℤ pos ticks_per }
    ensures from { neg_ℤ (pos (6 * 10 ^ 37)) ≤ℤ result }
    ensures to { result ≤ℤ pos (6 * 10 ^ 37) }
{
    time * ticks_per as i128
}

/// A rate times ticks.
pub fn gain(rate: i128, ahead: u64) -> i128
    requires from { pos 0 <ℤ rate }
    requires to { rate ≤ℤ pos (1000 * 10 ^ 18) }
    requires ahead { ahead < 2 ^ 53 }
    ensures value { result ≡ rate *ℤ pos ahead }
    ensures from { pos 0 ≤ℤ result }
    ensures to { result ≤ℤ pos (10 ^ 37) }
{
    rate * ahead as i128
}

/// One step of the rate grid.
pub fn grid(rate_decimals: u32) -> u64
    requires from { 1 ≤ rate_decimals }
    requires to { rate_decimals ≤ 15 }
    ensures value { result ≡ 10 ^ (18 - rate_decimals) }
    ensures small { result ≤ 10 ^ 17 }
    ensures positive { 0 < result }
{
    10u64.pow(18 - rate_decimals)
}

/// What one step of the grid gains over ticks.
pub fn step_gain(grid: u64, ahead: u64) -> u128
    requires grid { grid ≤ 10 ^ 17 }
    requires ahead { ahead < 2 ^ 53 }
    ensures value { result ≡ grid * ahead }
    ensures small { result ≤ 10 ^ 33 }
{
    grid as u128 * ahead as u128
}

/// The greatest whole number that is not above value / by.
pub fn floor_by(value: i128, by: u128) -> i128
    requires positive { 0 < by }
    requires small { by ≤ 10 ^ 33 }
    requires from { neg_ℤ (pos (10 ^ 38)) ≤ℤ value }
    requires to { value ≤ℤ pos (10 ^ 38) }
    ensures value { result ≡ floor_quotient value by }
    ensures from { neg_ℤ (pos (10 ^ 38)) ≤ℤ result }
    ensures to { result ≤ℤ pos (10 ^ 38) }
{
    value.div_euclid(by as i128)
}

/// The least whole number that is not below value / by.
pub fn ceiling_by(value: i128, by: u128) -> i128
    requires positive { 0 < by }
    requires small { by ≤ 10 ^ 33 }
    requires from { neg_ℤ (pos (10 ^ 38)) ≤ℤ value }
    requires to { value ≤ℤ pos (10 ^ 38) }
    ensures { result ≡ ceiling_quotient value by }
{
    let floor = floor_by(-value, by);
    -floor
}

/// The one number is less than the other.
pub fn is_less(a: i128, b: i128) -> bool
    ensures { IsTrue result ↔ (a <ℤ b) }
{
    a < b
}

/// The number is a whole number of steps, from the least to the greatest.
pub fn is_step_between(step: u64, number: i128, bounds: Bounds) -> bool
    requires positive { 0 < step }
    ensures yes { IsTrue result → (n : ℤ) × (number ≡ n *ℤ pos step) × (bounds.least ≤ℤ n) × (n ≤ℤ bounds.greatest) }
    ensures no { result ≡ false → (n : ℤ) → number ≡ n *ℤ pos step → bounds.least ≤ℤ n → ¬ (n ≤ℤ bounds.greatest) }
{
    let steps = number.div_euclid(step as i128);
    if number.rem_euclid(step as i128) != 0 {
        return false;
    }
    if steps < bounds.least {
        return false;
    }
    steps <= bounds.greatest
}
