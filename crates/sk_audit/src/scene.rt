//! What a walk goes by: all that it reads and never changes, the claims among it.

ghost use Rattle.std.specs.Prelude.{◌≡◌, ◌↔◌, ◌+◌, ◌<◌, ◌≤◌, ◌^◌, ◌≤ℤ◌, IsTrue, true, false, length, slice_get, Some, []};
ghost use Rattle.sk_clock.specs.Clock.{total, ticks_per as ticks_per_of, partition_at};
ghost use Rattle.sk_publishing.specs.Meets.{Meets, IsTooLarge};
ghost use Rattle.sk_publishing.specs.Rates.{IsLeastRate, IsGreatestRate};
ghost use Rattle.sk_publishing.specs.Chain.{IsAllowedStep, rounded_up as rounded_up_of};
ghost use Rattle.sk_publishing.specs.Kept.{is_new};
ghost use Rattle.sk_publishing.specs.Built.{middle_rate as middle_of};
ghost use Rattle.sk_audit.specs.Given.{CanMeet, HoldsLine, IsRate, anchor_of, sight_at};
ghost use Rattle.sk_audit.specs.Walking.{open_at};
ghost use Rattle.sk_audit.specs.Scene.{IsScene, IsNext, claiming, terms};
ghost use Rattle.sk_audit.specs.Evaluated.{IsBetween};

use crate::anchors::{line_at, middle_rate, rounded_up};
use crate::gains::latest;
use crate::line::{Bounds, Line};
use crate::partitions::are_together;
use crate::products::{grid, is_less, is_step_between};
use crate::rates::{bounds, meets};
use crate::settings::AuditSettings;
use crate::start::Start;
use sk_clock::Clock;
use sk_decimal::Fixed;
use sk_obs::Observation;
use sk_triples::Triple;
use std::marker::Model;

/// The clock, the settings, the start, the observations and the claimed triples of a walk.
#[derive(Drop)]
pub struct Scene<'a> {
    clock: &'a Clock,
    settings: AuditSettings,
    start: Start,
    observations: &'a [Observation],
    claims: &'a [Triple],
}

impl<'a> Model for Scene<'a> {
    ghost use Rattle.sk_audit.specs.Scene.{SceneView, IsScene};

    ghost Value = { SceneView };

    ghost view = { λ f. record { settings = f.settings; clock = f.clock.now; start = f.start; rows = f.observations.now; claims = f.claims.now } };

    ghost invariant = { λ f. IsScene (record { settings = f.settings; clock = f.clock.now; start = f.start; rows = f.observations.now; claims = f.claims.now }) };
}

impl<'a> Scene<'a> {
    /// A scene of settings in their ranges and a band that is that of the allowed rates, where no triple is claimed.
    pub fn new(
        clock: &'a Clock,
        settings: AuditSettings,
        start: Start,
        observations: &'a [Observation],
    ) -> Scene<'a>
        requires { IsScene (record { settings = settings; clock = clock.now; start = start; rows = observations.now; claims = [] }) }
        ensures { result ≡ record { settings = settings; clock = clock.entry.now; start = start; rows = observations.entry.now; claims = [] } }
    {
        Scene {
            clock,
            settings,
            start,
            observations,
            claims: &[],
        }
    }

    /// The same scene, where these triples are claimed.
    pub fn claiming(&self, claims: &'a [Triple]) -> Scene<'a>
        ensures { result ≡ claiming self.now claims.entry.now }
    {
        Scene {
            clock: self.clock,
            settings: self.settings,
            start: self.start,
            observations: self.observations,
            claims,
        }
    }

    /// The claimed triple of a number, from 0, where there are so many.
    pub fn claim(&self, number: usize) -> Option<Triple>
        ensures { result ≡ slice_get self.now.claims number }
    {
        let claims = self.claims;
        claims.get(number).copied()
    }

    /// How many triples are claimed.
    pub fn claim_count(&self) -> usize
        ensures { result ≡ length self.now.claims }
    {
        self.claims.len()
    }

    /// What new triples go on from.
    pub fn start(&self) -> Start
        ensures { result ≡ self.now.start }
    {
        self.start
    }

    /// How many observations there are.
    pub fn count(&self) -> usize
        ensures { result ≡ length self.now.rows }
    {
        self.observations.len()
    }

    /// The observation of a place.
    pub fn at(&self, place: usize) -> &'a Observation
        requires { place < length self.now.rows }
        ensures here { slice_get self.now.rows place ≡ Some result.now }
        ensures next { is_new (terms self.now) (sight_at place result.now) ≡ true → IsNext self.now place result.now }
    {
        let rows = self.observations;
        &rows[place]
    }

    /// As many observations are dropped as may be.
    pub fn is_full(&self, dropped: usize) -> bool
        ensures { IsTrue result ↔ (self.now.settings.reject ≤ dropped) }
    {
        dropped >= self.settings.reject as usize
    }

    /// The observation is in the partition of a tick.
    pub fn are_together(&self, obs: &Observation, tick: u64) -> bool
        requires obs { obs.now.tick ≤ total self.now.clock }
        requires tick { tick ≤ total self.now.clock }
        ensures { IsTrue result ↔ (partition_at self.now.clock obs.now.tick ≡ partition_at self.now.clock tick) }
    {
        are_together(self.clock, obs.tick, tick)
    }

    /// The line is within the tolerance of the observation, both ends counted.
    pub fn meets(&self, anchor: Line, rate: Fixed<18>, obs: &Observation) -> bool
        requires line { CanMeet self.now.clock anchor obs.now }
        requires rate { IsRate rate.units }
        ensures { IsTrue result ↔ Meets (terms self.now).gauge (anchor_of anchor) rate.units (sight_at 0 obs.now) }
    {
        meets(self.clock, &self.settings, anchor, rate, obs)
    }

    /// The least allowed rate that is not too small at the observation, and the greatest that is not too large.
    pub fn bounds(&self, anchor: Line, obs: &Observation) -> Bounds
        requires { CanMeet self.now.clock anchor obs.now }
        ensures least { IsLeastRate (IsAllowedStep (terms self.now)) (terms self.now).gauge (anchor_of anchor) (sight_at 0 obs.now) result.least }
        ensures greatest { IsGreatestRate (IsAllowedStep (terms self.now)) (terms self.now).gauge (anchor_of anchor) (sight_at 0 obs.now) result.greatest }
    {
        bounds(self.clock, &self.settings, self.start.band, anchor, obs)
    }

    /// The rate in the middle of two allowed ones, rounded down to the grid.
    pub fn middle_rate(&self, bounds: Bounds) -> Fixed<18>
        requires least { IsAllowedStep (terms self.now) bounds.least }
        requires greatest { IsAllowedStep (terms self.now) bounds.greatest }
        requires filled { bounds.least ≤ℤ bounds.greatest }
        ensures value { result.units ≡ middle_of (terms self.now) bounds.least bounds.greatest }
        ensures rate { IsRate result.units }
    {
        middle_rate(self.settings.rate_decimals, bounds.least, bounds.greatest)
    }

    /// The anchor on a line at a tick: its time is rounded up to the time unit.
    pub fn anchor_on(&self, anchor: Line, rate: Fixed<18>, tick: u64) -> Line
        requires line { HoldsLine (ticks_per_of self.now.clock) anchor }
        requires rate { IsRate rate.units }
        requires ahead { anchor.ticks ≤ tick }
        requires short { tick < 2 ^ 53 }
        ensures { anchor_of result ≡ record { ticks = tick; time = rounded_up_of (terms self.now) (open_at anchor rate.units []) tick } }
    {
        let ticks_per = self.clock.ticks_per();
        let line = line_at(anchor, rate.units, tick, ticks_per);
        let units = rounded_up(line, ticks_per);
        Line {
            ticks: tick,
            time: Fixed { units },
        }
    }

    /// The rate is a step of the grid between these two.
    pub fn is_between(&self, rate: Fixed<18>, bounds: Bounds) -> bool
        ensures yes { IsTrue result → IsBetween (terms self.now) rate.units bounds.least bounds.greatest }
        ensures no { result ≡ false → ¬ IsBetween (terms self.now) rate.units bounds.least bounds.greatest }
    {
        is_step_between(grid(self.settings.rate_decimals), rate.units, bounds)
    }

    /// The line is later than the observation by more than the tolerance.
    pub fn is_late(&self, anchor: Line, rate: Fixed<18>, obs: &Observation) -> bool
        requires line { HoldsLine (ticks_per_of self.now.clock) anchor }
        requires rate { IsRate rate.units }
        requires ahead { anchor.ticks ≤ obs.now.tick }
        requires short { obs.now.tick ≤ total self.now.clock }
        ensures { IsTrue result ↔ IsTooLarge (terms self.now).gauge (anchor_of anchor) rate.units (sight_at 0 obs.now) }
    {
        let ticks_per = self.clock.ticks_per();
        let line = line_at(anchor, rate.units, obs.tick, ticks_per);
        is_less(
            latest(obs.time.units, self.settings.tolerance.units, ticks_per),
            line,
        )
    }
}
