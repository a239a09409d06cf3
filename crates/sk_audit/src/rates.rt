//! The line of an anchor and a rate against an observation.

ghost use Rattle.std.specs.Prelude.{◌≡◌, ◌≤◌, ◌↔◌, ℤ, pos, ◌≤ℤ◌, ◌<ℤ◌, ◌*◌, ◌^◌, IsTrue};
ghost use Rattle.sk_audit.specs.Given.{AreSettings, gauge_of, anchor_of, sight_at, band_view, CanMeet, IsRate, IsUsableBand};
ghost use Rattle.sk_publishing.specs.Meets.{Meets};
ghost use Rattle.sk_publishing.specs.Rates.{InBand, IsLeastRate, IsGreatestRate};

use crate::gains::{greatest_gain, is_within, least_gain, room, wanted};
use crate::line::{Band, Bounds, Line};
use crate::products::{begun, gain, grid, step_gain};
use crate::settings::AuditSettings;
use sk_clock::Clock;
use sk_decimal::Fixed;
use sk_obs::Observation;

/// The line is within the tolerance of the observation, both ends counted.
pub fn meets(
    clock: &Clock,
    settings: &AuditSettings,
    line: Line,
    rate: Fixed<18>,
    obs: &Observation,
) -> bool
    requires settings { AreSettings settings.now }
    requires line { CanMeet clock.now line obs.now }
    requires rate { IsRate rate.units }
    ensures { IsTrue result ↔ Meets (gauge_of settings.now clock.now) (anchor_of line) rate.units (sight_at 0 obs.now) }
{
    let ticks_per = clock.ticks_per();
    let start = begun(line.time.units, ticks_per);
    let gained = gain(rate.units, obs.tick - line.ticks);
    let low = wanted(obs.time.units, settings.tolerance.units, ticks_per, start);
    let high = room(obs.time.units, settings.tolerance.units, ticks_per, start);
    is_within(low, gained, high)
}

/// The least rate of the band that is not too small at the observation, and the greatest that is not too large.
pub fn bounds(
    clock: &Clock,
    settings: &AuditSettings,
    band: Band,
    line: Line,
    obs: &Observation,
) -> Bounds
    requires settings { AreSettings settings.now }
    requires line { CanMeet clock.now line obs.now }
    requires band { IsUsableBand settings.now.rate_decimals (band_view band) }
    ensures least { IsLeastRate (InBand (band_view band)) (gauge_of settings.now clock.now) (anchor_of line) (sight_at 0 obs.now) result.least }
    ensures greatest { IsGreatestRate (InBand (band_view band)) (gauge_of settings.now clock.now) (anchor_of line) (sight_at 0 obs.now) result.greatest }
{
    let ticks_per = clock.ticks_per();
    let start = begun(line.time.units, ticks_per);
    let step = step_gain(grid(settings.rate_decimals), obs.tick - line.ticks);
    let low = wanted(obs.time.units, settings.tolerance.units, ticks_per, start);
    let high = room(obs.time.units, settings.tolerance.units, ticks_per, start);
    let least = least_gain(band, low, step);
    let greatest = greatest_gain(band, high, step);
    Bounds { least, greatest }
}
