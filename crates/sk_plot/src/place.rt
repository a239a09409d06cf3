//! Where a value is drawn, in hundredths of a unit.

ghost use Rattle.std.specs.Int.{int_min};
ghost use Rattle.std.specs.Prelude.{◌≡◌, ◌⊎◌, ◌≤◌, ◌^◌, pos, neg_ℤ, ◌+ℤ◌, ◌-ℤ◌, ◌≤ℤ◌, int_le};
ghost use Rattle.sk_plot.specs.Place.{scaled as scaled_of, rise_of, rise_above as rise_above_of, rise_below as rise_below_of, rise_up_to as rise_up_to_of, under_band as under_band_of, band_top as band_top_of, band_bottom as band_bottom_of, held_of, share_of, across_of, is_inside as is_inside_of, is_on as is_on_of};
ghost use Rattle.sk_plot.specs.Picture.{IsSheet, cross_at as cross_at_of, level_at as level_at_of, is_within as is_within_of};

use sk_decimal::{Fixed, floor_div};

/// The axis of values: its line of 0 stands so many units below the picture's upper edge, it reaches so far above 0 and
/// below, and the band of the tolerance lies about 0.
#[derive(Clone, Copy, Debug)]
pub struct Values {
    pub zero: u64,
    pub reach: u64,
    pub tolerance: u64,
}

/// The axes of a panel: across from `left`, so wide, in 10^-12 s past J2000 TDT, and the axis of its values.
#[derive(Clone, Copy, Debug)]
pub struct Sheet {
    pub left: i128,
    pub wide: i128,
    pub values: Values,
}

// A value of the axis as its place above the line of 0.
fn scaled(reach: u64, value: i128) -> i128
    requires some { 1 ≤ reach }
    requires from { neg_ℤ (pos (10 ^ 20)) ≤ℤ value }
    requires to { value ≤ℤ pos (10 ^ 20) }
    ensures place { result ≡ scaled_of reach value }
    ensures from { neg_ℤ (pos (10 ^ 25)) ≤ℤ result }
    ensures to { result ≤ℤ pos (10 ^ 25) }
{
    floor_div(value * 20_000, i128::from(reach))
}

/// The place of the band's upper edge.
pub fn band_top(values: Values) -> i128
    requires { 1 ≤ values.reach }
    ensures place { result ≡ band_top_of values.reach values.tolerance }
    ensures from { neg_ℤ (pos (10 ^ 25)) ≤ℤ result }
    ensures to { result ≤ℤ pos (10 ^ 25) }
{
    scaled(values.reach, i128::from(values.tolerance))
}

/// The place of the band's lower edge.
pub fn band_bottom(values: Values) -> i128
    requires { 1 ≤ values.reach }
    ensures place { result ≡ band_bottom_of values.reach values.tolerance }
    ensures from { neg_ℤ (pos (10 ^ 25)) ≤ℤ result }
    ensures to { result ≤ℤ pos (10 ^ 25) }
{
    scaled(values.reach, -i128::from(values.tolerance))
}

/// Whether the size of the value is at most the tolerance.
pub fn is_inside(tolerance: u64, value: i128) -> bool
    ensures { result ≡ is_inside_of tolerance value }
{
    let most = i128::from(tolerance);
    -most <= value && value <= most
}

/// Whether the value is on the axis.
pub fn is_on(reach: u64, value: i128) -> bool
    ensures { result ≡ is_on_of reach value }
{
    let most = i128::from(reach);
    -most <= value && value <= most
}

fn rise_above(values: Values, value: i128) -> i128
    requires some { 1 ≤ values.reach }
    requires above { pos 0 ≤ℤ value }
    ensures place { result ≡ rise_above_of values.reach values.tolerance value }
    ensures from { neg_ℤ (pos (10 ^ 30)) ≤ℤ result }
    ensures to { result ≤ℤ pos (10 ^ 30) }
{
    if value <= i128::from(values.reach) {
        scaled(values.reach, value).max(band_top(values) + 1)
    } else {
        20_500
    }
}

// The lesser one.
fn lesser(left: i128, right: i128) -> i128
    ensures value { result ≡ int_min left right }
    ensures either { (result ≡ left) ⊎ (result ≡ right) }
{
    if right < left { right } else { left }
}

// A hundredth below the band.
fn below_band(values: Values) -> i128
    requires { 1 ≤ values.reach }
    ensures place { result ≡ band_bottom_of values.reach values.tolerance -ℤ pos 1 }
    ensures from { neg_ℤ (pos (10 ^ 26)) ≤ℤ result }
    ensures to { result ≤ℤ pos (10 ^ 26) }
{
    band_bottom(values) - 1
}

fn under_band(values: Values, value: i128) -> i128
    requires some { 1 ≤ values.reach }
    requires on { neg_ℤ (pos values.reach) ≤ℤ value }
    requires below { value ≤ℤ pos 0 }
    ensures place { result ≡ under_band_of values.reach values.tolerance value }
    ensures from { neg_ℤ (pos (10 ^ 30)) ≤ℤ result }
    ensures to { result ≤ℤ pos (10 ^ 30) }
{
    lesser(scaled(values.reach, value), below_band(values))
}

fn rise_below(values: Values, value: i128) -> i128
    requires some { 1 ≤ values.reach }
    requires below { value ≤ℤ pos 0 }
    ensures place { result ≡ rise_below_of values.reach values.tolerance value }
    ensures from { neg_ℤ (pos (10 ^ 30)) ≤ℤ result }
    ensures to { result ≤ℤ pos (10 ^ 30) }
{
    let least = -i128::from(values.reach);
    if least <= value {
        under_band(values, value)
    } else {
        -20_500
    }
}

fn rise_up_to(values: Values, value: i128) -> i128
    requires some { 1 ≤ values.reach }
    requires up_to { value ≤ℤ pos values.tolerance }
    ensures place { result ≡ rise_up_to_of values.reach values.tolerance value }
    ensures from { neg_ℤ (pos (10 ^ 30)) ≤ℤ result }
    ensures to { result ≤ℤ pos (10 ^ 30) }
{
    let least = -i128::from(values.tolerance);
    if value < least {
        rise_below(values, value)
    } else {
        scaled(values.reach, value)
    }
}

/// How far above the line of 0 a value is drawn: its share of the axis, floored to a hundredth; beyond the band's edge
/// where it is above the tolerance in size, and at the panel's edge where it is off the axis.
#[tactic(auto, unfolding(crate::specs::Place::rise_of))]
pub fn rise(values: Values, value: i128) -> i128
    requires { 1 ≤ values.reach }
    ensures place { result ≡ rise_of values.reach values.tolerance value }
    ensures from { neg_ℤ (pos (10 ^ 30)) ≤ℤ result }
    ensures to { result ≤ℤ pos (10 ^ 30) }
{
    let most = i128::from(values.tolerance);
    if most < value {
        rise_above(values, value)
    } else {
        rise_up_to(values, value)
    }
}

// The time, or the end that it is beyond.
fn held(left: i128, right: i128, time: i128) -> i128
    requires { left ≤ℤ right }
    ensures value { result ≡ held_of left right time }
    ensures from { left ≤ℤ result }
    ensures to { result ≤ℤ right }
{
    if time < left {
        left
    } else if right < time {
        right
    } else {
        time
    }
}

// A part of the axis across as its place to the right of the edge.
fn share(past: i128, wide: i128) -> i128
    requires from { pos 0 ≤ℤ past }
    requires to { past ≤ℤ pos (10 ^ 32) }
    requires some { pos 1 ≤ℤ wide }
    requires within { past ≤ℤ wide }
    ensures place { result ≡ share_of past wide }
    ensures from { pos 0 ≤ℤ result }
    ensures to { result ≤ℤ pos (10 ^ 37) }
{
    floor_div(past * 100_000, wide)
}

/// How far to the right of the edge a time is drawn, of an axis from `left`, so wide; at an edge where it is beyond it.
pub fn across(left: i128, wide: i128, time: i128) -> i128
    requires from { neg_ℤ (pos (10 ^ 36)) ≤ℤ left }
    requires to { left ≤ℤ pos (10 ^ 36) }
    requires some { pos 1 ≤ℤ wide }
    requires few { wide ≤ℤ pos (10 ^ 32) }
    ensures place { result ≡ across_of left wide time }
    ensures from { pos 0 ≤ℤ result }
    ensures to { result ≤ℤ pos (10 ^ 37) }
{
    let past = held(left, left + wide, time) - left;
    share(past, wide)
}

/// The place of a time from the left edge of the picture.
#[tactic(auto, unfolding(crate::specs::Picture::cross_at))]
pub fn cross_at(sheet: Sheet, time: Fixed<12>) -> Fixed<2>
    requires { IsSheet sheet }
    ensures place { result.units ≡ cross_at_of sheet time.units }
    ensures to { result.units ≤ℤ pos (10 ^ 38) }
{
    Fixed {
        units: 12_000 + across(sheet.left, sheet.wide, time.units),
    }
}

/// Whether the time is not after the axis.
pub fn is_up_to_end(sheet: Sheet, time: Fixed<12>) -> bool
    requires { IsSheet sheet }
    ensures { result ≡ int_le time.units (sheet.left +ℤ sheet.wide) }
{
    time.units <= sheet.left + sheet.wide
}

/// Whether the time is not before the axis.
pub fn is_from_begin(sheet: Sheet, time: Fixed<12>) -> bool
    ensures { result ≡ int_le sheet.left time.units }
{
    sheet.left <= time.units
}

/// Whether the time is on the axis.
pub fn is_within(sheet: Sheet, time: Fixed<12>) -> bool
    requires { IsSheet sheet }
    ensures { result ≡ is_within_of sheet time.units }
{
    sheet.left <= time.units && time.units <= sheet.left + sheet.wide
}

/// The place of a difference of rates from the upper edge of the picture.
#[tactic(auto, unfolding(crate::specs::Picture::level_at))]
pub fn rate_level_at(sheet: Sheet, value: Fixed<6>) -> Fixed<2>
    requires { IsSheet sheet }
    ensures { result.units ≡ level_at_of sheet value.units }
{
    Fixed {
        units: i128::from(100 * sheet.values.zero) - rise(sheet.values, value.units),
    }
}

/// The place of a residual from the upper edge of the picture.
#[tactic(auto, unfolding(crate::specs::Picture::level_at))]
pub fn level_at(sheet: Sheet, value: Fixed<12>) -> Fixed<2>
    requires { IsSheet sheet }
    ensures { result.units ≡ level_at_of sheet value.units }
{
    Fixed {
        units: i128::from(100 * sheet.values.zero) - rise(sheet.values, value.units),
    }
}
