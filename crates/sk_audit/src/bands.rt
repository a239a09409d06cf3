//! The band of allowed rates.

ghost use Rattle.std.specs.Prelude.{◌≡◌, ◌↔◌, ◌-◌, ◌+◌, ◌*◌, ◌^◌, ◌<◌, ◌≤◌, ℤ, pos, neg_ℤ, ◌*ℤ◌, ◌≤ℤ◌, ◌<ℤ◌, IfSome, IfNone};

use crate::line::Band;
use crate::products::{ceiling_by, floor_by, grid};
use crate::settings::AuditSettings;
use sk_decimal::Fixed;

/// A share of a rate, in parts of a million.
fn share(rate: i128, parts: u32) -> i128
    requires from { pos 0 <ℤ rate }
    requires to { rate ≤ℤ pos (1000 * 10 ^ 18) }
    requires parts { parts ≤ 1100000 }
    ensures value { result ≡ rate *ℤ pos parts }
    ensures from { pos 0 ≤ℤ result }
    ensures to { result ≤ℤ pos (10 ^ 38) }
{
    rate * parts as i128
}

/// What a million steps of the grid are.
fn million_steps(grid: u64) -> u128
    requires small { grid ≤ 10 ^ 17 }
    requires positive { 0 < grid }
    ensures value { result ≡ grid * 10 ^ 6 }
    ensures small { result ≤ 10 ^ 33 }
    ensures positive { 0 < result }
{
    grid as u128 * 1_000_000
}

/// The least number of steps that are at least this share of the rate.
fn least_steps(rate: i128, parts: u32, grid: u64) -> i128
    requires from { pos 0 <ℤ rate }
    requires to { rate ≤ℤ pos (1000 * 10 ^ 18) }
    requires parts { parts ≤ 1100000 }
    requires small { grid ≤ 10 ^ 17 }
    requires positive { 0 < grid }
    ensures { (n : ℤ) → ((rate *ℤ pos parts) ≤ℤ ((n *ℤ pos grid) *ℤ pos (10 ^ 6))) ↔ (result ≤ℤ n) }
{
    ceiling_by(share(rate, parts), million_steps(grid))
}

/// The greatest number of steps that are at most this share of the rate.
fn greatest_steps(rate: i128, parts: u32, grid: u64) -> i128
    requires from { pos 0 <ℤ rate }
    requires to { rate ≤ℤ pos (1000 * 10 ^ 18) }
    requires parts { parts ≤ 1100000 }
    requires small { grid ≤ 10 ^ 17 }
    requires positive { 0 < grid }
    ensures { (n : ℤ) → (((n *ℤ pos grid) *ℤ pos (10 ^ 6)) ≤ℤ (rate *ℤ pos parts)) ↔ (n ≤ℤ result) }
{
    floor_by(share(rate, parts), million_steps(grid))
}

/// The greatest number of steps that are at most 1000 s.
fn most_steps(grid: u64) -> i128
    requires small { grid ≤ 10 ^ 17 }
    requires positive { 0 < grid }
    ensures { (n : ℤ) → ((n *ℤ pos grid) ≤ℤ pos (1000 * 10 ^ 18)) ↔ (n ≤ℤ result) }
{
    floor_by(1_000_000_000_000_000_000_000, grid as u128)
}

impl AuditSettings {
    ghost use Rattle.sk_audit.specs.Given.{AreSettings, band_view};
    ghost use Rattle.sk_publishing.specs.Rates.{IsAllowed, IsBand};

    /// The least and the greatest allowed rate; `None` exactly where there is none.
    pub fn band_of(&self, old_rate: Fixed<18>) -> Option<Band>
        requires settings { AreSettings self.now }
        requires positive { pos 0 <ℤ old_rate.units }
        requires slow { old_rate.units ≤ℤ pos (1000 * 10 ^ 18) }
        ensures some { IfSome result (λ band. IsBand (IsAllowed self.now.rate_decimals self.now.band old_rate.units) (band_view band)) }
        ensures none { IfNone result ((n : ℤ) → ¬ IsAllowed self.now.rate_decimals self.now.band old_rate.units n) }
    {
        let band = self.steps_around(old_rate);
        if band.least <= band.greatest {
            Some(band)
        } else {
            None
        }
    }

    /// The allowed rates are those between these, if any.
    fn steps_around(&self, old_rate: Fixed<18>) -> Band
        requires settings { AreSettings self.now }
        requires positive { pos 0 <ℤ old_rate.units }
        requires slow { old_rate.units ≤ℤ pos (1000 * 10 ^ 18) }
        ensures { (n : ℤ) → IsAllowed self.now.rate_decimals self.now.band old_rate.units n ↔ ((result.least ≤ℤ n) × (n ≤ℤ result.greatest)) }
    {
        let grid = grid(self.rate_decimals);
        let least = least_steps(old_rate.units, 1_000_000 - self.band, grid);
        let fast = greatest_steps(old_rate.units, 1_000_000 + self.band, grid);
        let most = most_steps(grid);
        let greatest = lesser(fast, most);
        Band { least, greatest }
    }
}

/// The lesser of two numbers.
pub fn lesser(a: i128, b: i128) -> i128
    ensures { (n : ℤ) → (n ≤ℤ result) ↔ ((n ≤ℤ a) × (n ≤ℤ b)) }
{
    if a < b { a } else { b }
}

/// The greater of two numbers.
pub fn greater(a: i128, b: i128) -> i128
    ensures { (n : ℤ) → (result ≤ℤ n) ↔ ((a ≤ℤ n) × (b ≤ℤ n)) }
{
    if a < b { b } else { a }
}
