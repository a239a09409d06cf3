//! Where the line of a segment is, and the anchor that it leaves.

ghost use Rattle.std.specs.Prelude.{◌≡◌, ◌-◌, ◌+◌, ◌*◌, ◌^◌, ◌<◌, ◌≤◌, ℤ, pos, neg_ℤ, ◌+ℤ◌, ◌-ℤ◌, ◌*ℤ◌, ◌≤ℤ◌, ◌<ℤ◌};
ghost use Rattle.std.specs.Int.{int_max};
ghost use Rattle.sk_decimal.specs.Quotient.{floor_quotient, ceiling_quotient};
ghost use Rattle.sk_line.specs.Line.{line_over};
ghost use Rattle.sk_publishing.specs.Rates.{on_grid as grid_rate};
ghost use Rattle.sk_fit.specs.Given.{anchor_of, IsRate};
ghost use Rattle.sk_fit.specs.State.{HoldsLine};

use crate::products::{begun, ceiling_by, floor_by, gain, grid, in_seconds};
use crate::settings::Line;
use sk_decimal::Fixed;
use sk_obs::Observation;

/// The line at a tick, over ticks per count; before its anchor it is as at it.
pub fn line_at(line: Line, rate: i128, tick: u64, ticks_per: u64) -> i128
    requires line { HoldsLine ticks_per line }
    requires rate { IsRate rate }
    requires short { tick < 2 ^ 53 }
    ensures value { result ≡ line_over ticks_per (anchor_of line) rate tick }
    ensures from { neg_ℤ (pos (7 * 10 ^ 37)) ≤ℤ result }
    ensures to { result ≤ℤ pos (7 * 10 ^ 37) }
{
    let gained = gain(rate, tick.saturating_sub(line.ticks));
    let start = begun(line.time.units, ticks_per);
    added(start, gained)
}

/// What the line gains, added to where it begins.
fn added(start: i128, gained: i128) -> i128
    requires start_from { neg_ℤ (pos (6 * 10 ^ 37)) ≤ℤ start }
    requires start_to { start ≤ℤ pos (6 * 10 ^ 37) }
    requires from { pos 0 ≤ℤ gained }
    requires to { gained ≤ℤ pos (10 ^ 37) }
    ensures value { result ≡ start +ℤ gained }
    ensures from { neg_ℤ (pos (7 * 10 ^ 37)) ≤ℤ result }
    ensures to { result ≤ℤ pos (7 * 10 ^ 37) }
{
    start + gained
}

/// Ticks per count, for times in units.
fn unit_ticks(ticks_per: u64) -> u128
    requires few { ticks_per ≤ 2 ^ 32 }
    requires some { 0 < ticks_per }
    ensures value { result ≡ 10 ^ 6 * ticks_per }
    ensures from { 10 ^ 6 ≤ result }
    ensures to { result ≤ 10 ^ 33 }
{
    1_000_000 * ticks_per as u128
}

/// The line as whole time units, rounded up.
fn units_up(line: i128, ticks_per: u64) -> i128
    requires few { ticks_per ≤ 2 ^ 32 }
    requires some { 0 < ticks_per }
    requires from { neg_ℤ (pos (7 * 10 ^ 37)) ≤ℤ line }
    requires to { line ≤ℤ pos (7 * 10 ^ 37) }
    ensures value { result ≡ ceiling_quotient line (10 ^ 6 * ticks_per) }
    ensures from { neg_ℤ (pos (10 ^ 32)) ≤ℤ result }
    ensures to { result ≤ℤ pos (10 ^ 32) }
{
    let step = unit_ticks(ticks_per);
    ceiling_by(line, step)
}

/// A time less that of the line, which is rounded down to the time unit.
pub fn time_after(time: i128, line: i128, ticks_per: u64) -> i128
    requires time_from { neg_ℤ (pos (91 * 10 ^ 20)) ≤ℤ time }
    requires time_to { time ≤ℤ pos (91 * 10 ^ 20) }
    requires from { neg_ℤ (pos (7 * 10 ^ 37)) ≤ℤ line }
    requires to { line ≤ℤ pos (7 * 10 ^ 37) }
    requires few { ticks_per ≤ 2 ^ 32 }
    requires some { 0 < ticks_per }
    ensures { result ≡ time -ℤ floor_quotient line (10 ^ 6 * ticks_per) }
{
    time - floor_by(line, unit_ticks(ticks_per))
}

/// Whole units as 10^-18 s.
fn whole(units: i128) -> i128
    requires from { neg_ℤ (pos (10 ^ 32)) ≤ℤ units }
    requires to { units ≤ℤ pos (10 ^ 32) }
    ensures { result ≡ units *ℤ pos (10 ^ 6) }
{
    units * 1_000_000
}

/// The line rounded up to the time unit.
pub fn rounded_up(line: i128, ticks_per: u64) -> i128
    requires few { ticks_per ≤ 2 ^ 32 }
    requires some { 0 < ticks_per }
    requires from { neg_ℤ (pos (7 * 10 ^ 37)) ≤ℤ line }
    requires to { line ≤ℤ pos (7 * 10 ^ 37) }
    ensures { result ≡ ceiling_quotient line (10 ^ 6 * ticks_per) *ℤ pos (10 ^ 6) }
{
    let units = units_up(line, ticks_per);
    whole(units)
}

/// The middle of two numbers, rounded down.
fn middle(least: i128, greatest: i128) -> i128
    requires from { pos 1 ≤ℤ least }
    requires filled { least ≤ℤ greatest }
    requires to { greatest ≤ℤ pos (10 ^ 18) }
    ensures value { result ≡ floor_quotient (least +ℤ greatest) 2 }
    ensures from { pos 1 ≤ℤ result }
    ensures to { result ≤ℤ greatest }
{
    floor_by(least + greatest, 2)
}

/// Steps of the grid as a rate.
fn on_grid(steps: i128, grid: u64) -> i128
    requires from { pos 1 ≤ℤ steps }
    requires to { (steps *ℤ pos grid) ≤ℤ pos (1000 * 10 ^ 18) }
    requires positive { 0 < grid }
    ensures value { result ≡ steps *ℤ pos grid }
    ensures positive { pos 0 <ℤ result }
    ensures slow { result ≤ℤ pos (1000 * 10 ^ 18) }
{
    steps * grid as i128
}

/// The middle of two numbers of steps, as a rate.
pub fn middle_rate(rate_decimals: u32, least: i128, greatest: i128) -> Fixed<18>
    requires decimals_from { 1 ≤ rate_decimals }
    requires decimals_to { rate_decimals ≤ 15 }
    requires positive { pos 1 ≤ℤ least }
    requires filled { least ≤ℤ greatest }
    requires small { greatest ≤ℤ pos (10 ^ 18) }
    requires slow { grid_rate rate_decimals greatest ≤ℤ pos (1000 * 10 ^ 18) }
    ensures value { result.units ≡ grid_rate rate_decimals (floor_quotient (least +ℤ greatest) 2) }
    ensures rate { IsRate result.units }
{
    let steps = middle(least, greatest);
    let step = grid(rate_decimals);
    Fixed {
        units: on_grid(steps, step),
    }
}

/// The later of two times.
fn later_of(a: i128, b: i128) -> i128
    ensures { result ≡ int_max a b }
{
    a.max(b)
}

/// The anchor at the tick of an observation, at its time or at that of the line there, whichever is later.
pub fn anchored_at(obs: &Observation, line: Line) -> Line
    ensures { anchor_of result ≡ record { ticks = obs.now.tick; time = int_max (obs.now.time *ℤ pos (10 ^ 6)) line.time.units } }
{
    let seen = in_seconds(obs.time.units);
    Line {
        ticks: obs.tick,
        time: Fixed {
            units: later_of(seen, line.time.units),
        },
    }
}
