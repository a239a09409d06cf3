//! The bounds of a band that an observation sets.

ghost use Rattle.std.specs.Prelude.{◌≡◌, ◌↔◌, IsTrue, ◌-◌, ◌*◌, ◌^◌, ◌<◌, ◌≤◌, ℤ, pos, neg_ℤ, ◌+ℤ◌, ◌-ℤ◌, ◌*ℤ◌, ◌≤ℤ◌, ◌<ℤ◌};
ghost use Rattle.sk_audit.specs.Given.{band_view};
ghost use Rattle.sk_audit.specs.Gains.{IsLeastGain, IsGreatestGain};

use crate::line::Band;
use crate::products::{ceiling_by, floor_by, scaled};

/// The least rate of the band that gains what is wanted, or one above the band.
pub fn least_gain(band: Band, wanted: i128, step: u128) -> i128
    requires filled { band.least ≤ℤ band.greatest }
    requires slow { band.greatest ≤ℤ pos (10 ^ 18) }
    requires small { step ≤ 10 ^ 33 }
    requires from { neg_ℤ (pos (10 ^ 38)) ≤ℤ wanted }
    requires to { wanted ≤ℤ pos (10 ^ 38) }
    ensures { IsLeastGain (band_view band) wanted step result }
{
    if step == 0 {
        return if wanted <= 0 {
            band.least
        } else {
            band.greatest + 1
        };
    }
    let quotient = ceiling_by(wanted, step);
    if quotient > band.greatest {
        return band.greatest + 1;
    }
    if quotient > band.least {
        return quotient;
    }
    band.least
}

/// The greatest rate of the band that keeps to the room, or one below the band.
pub fn greatest_gain(band: Band, room: i128, step: u128) -> i128
    requires filled { band.least ≤ℤ band.greatest }
    requires positive { pos 1 ≤ℤ band.least }
    requires small { step ≤ 10 ^ 33 }
    requires from { neg_ℤ (pos (10 ^ 38)) ≤ℤ room }
    requires to { room ≤ℤ pos (10 ^ 38) }
    ensures { IsGreatestGain (band_view band) room step result }
{
    if step == 0 {
        return if room >= 0 {
            band.greatest
        } else {
            band.least - 1
        };
    }
    let quotient = floor_by(room, step);
    if quotient < band.least {
        return band.least - 1;
    }
    if quotient < band.greatest {
        return quotient;
    }
    band.greatest
}

/// What is left from the anchor to a time.
fn left_to(time: i128, ticks_per: u64, begun: i128) -> i128
    requires from { neg_ℤ (pos (91 * 10 ^ 20)) ≤ℤ time }
    requires to { time ≤ℤ pos (91 * 10 ^ 20) }
    requires few { ticks_per ≤ 2 ^ 32 }
    requires begun_from { neg_ℤ (pos (6 * 10 ^ 37)) ≤ℤ begun }
    requires begun_to { begun ≤ℤ pos (6 * 10 ^ 37) }
    ensures value { result ≡ ((time *ℤ pos (10 ^ 6)) *ℤ pos ticks_per) -ℤ begun }
    ensures from { neg_ℤ (pos (10 ^ 38)) ≤ℤ result }
    ensures to { result ≤ℤ pos (10 ^ 38) }
{
    let scaled = scaled(time, ticks_per);
    scaled - begun
}

/// A time before the observed one by the tolerance.
fn earlier(time: i128, tolerance: i128) -> i128
    requires time_from { neg_ℤ (pos (9 * 10 ^ 21)) ≤ℤ time }
    requires time_to { time ≤ℤ pos (9 * 10 ^ 21) }
    requires tolerance_from { pos 1000 ≤ℤ tolerance }
    requires tolerance_to { tolerance ≤ℤ pos (60 * 10 ^ 12) }
    ensures value { result ≡ time -ℤ tolerance }
    ensures from { neg_ℤ (pos (91 * 10 ^ 20)) ≤ℤ result }
    ensures to { result ≤ℤ pos (91 * 10 ^ 20) }
{
    time - tolerance
}

/// A time after the observed one by the tolerance.
fn later(time: i128, tolerance: i128) -> i128
    requires time_from { neg_ℤ (pos (9 * 10 ^ 21)) ≤ℤ time }
    requires time_to { time ≤ℤ pos (9 * 10 ^ 21) }
    requires tolerance_from { pos 1000 ≤ℤ tolerance }
    requires tolerance_to { tolerance ≤ℤ pos (60 * 10 ^ 12) }
    ensures value { result ≡ time +ℤ tolerance }
    ensures from { neg_ℤ (pos (91 * 10 ^ 20)) ≤ℤ result }
    ensures to { result ≤ℤ pos (91 * 10 ^ 20) }
{
    time + tolerance
}

/// The last time within the tolerance of the observed one, as 10^-18 s times ticks per count.
pub fn latest(time: i128, tolerance: i128, ticks_per: u64) -> i128
    requires time_from { neg_ℤ (pos (9 * 10 ^ 21)) ≤ℤ time }
    requires time_to { time ≤ℤ pos (9 * 10 ^ 21) }
    requires tolerance_from { pos 1000 ≤ℤ tolerance }
    requires tolerance_to { tolerance ≤ℤ pos (60 * 10 ^ 12) }
    requires few { ticks_per ≤ 2 ^ 32 }
    ensures { result ≡ ((time +ℤ tolerance) *ℤ pos (10 ^ 6)) *ℤ pos ticks_per }
{
    let time = later(time, tolerance);
    scaled(time, ticks_per)
}

/// What a rate has to gain from the anchor at least.
pub fn wanted(time: i128, tolerance: i128, ticks_per: u64, begun: i128) -> i128
    requires time_from { neg_ℤ (pos (9 * 10 ^ 21)) ≤ℤ time }
    requires time_to { time ≤ℤ pos (9 * 10 ^ 21) }
    requires tolerance_from { pos 1000 ≤ℤ tolerance }
    requires tolerance_to { tolerance ≤ℤ pos (60 * 10 ^ 12) }
    requires few { ticks_per ≤ 2 ^ 32 }
    requires begun_from { neg_ℤ (pos (6 * 10 ^ 37)) ≤ℤ begun }
    requires begun_to { begun ≤ℤ pos (6 * 10 ^ 37) }
    ensures value { result ≡ (((time -ℤ tolerance) *ℤ pos (10 ^ 6)) *ℤ pos ticks_per) -ℤ begun }
    ensures from { neg_ℤ (pos (10 ^ 38)) ≤ℤ result }
    ensures to { result ≤ℤ pos (10 ^ 38) }
{
    let time = earlier(time, tolerance);
    left_to(time, ticks_per, begun)
}

/// What a rate may gain from the anchor at most.
pub fn room(time: i128, tolerance: i128, ticks_per: u64, begun: i128) -> i128
    requires time_from { neg_ℤ (pos (9 * 10 ^ 21)) ≤ℤ time }
    requires time_to { time ≤ℤ pos (9 * 10 ^ 21) }
    requires tolerance_from { pos 1000 ≤ℤ tolerance }
    requires tolerance_to { tolerance ≤ℤ pos (60 * 10 ^ 12) }
    requires few { ticks_per ≤ 2 ^ 32 }
    requires begun_from { neg_ℤ (pos (6 * 10 ^ 37)) ≤ℤ begun }
    requires begun_to { begun ≤ℤ pos (6 * 10 ^ 37) }
    ensures value { result ≡ (((time +ℤ tolerance) *ℤ pos (10 ^ 6)) *ℤ pos ticks_per) -ℤ begun }
    ensures from { neg_ℤ (pos (10 ^ 38)) ≤ℤ result }
    ensures to { result ≤ℤ pos (10 ^ 38) }
{
    let time = later(time, tolerance);
    left_to(time, ticks_per, begun)
}

/// The gain is between these.
pub fn is_within(low: i128, gained: i128, high: i128) -> bool
    ensures { IsTrue result ↔ ((low ≤ℤ gained) × (gained ≤ℤ high)) }
{
    low <= gained && gained <= high
}
