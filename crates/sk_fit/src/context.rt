//! What a fit goes by: all that it reads and never changes.

ghost use Rattle.std.specs.Prelude.{◌≡◌, ◌↔◌, ◌+◌, ◌<◌, ◌≤◌, ◌^◌, ◌≤ℤ◌, IsTrue, true, length, slice_get, Some, []};
ghost use Rattle.sk_clock.specs.Clock.{total, ticks_per as ticks_per_of, partition_at};
ghost use Rattle.sk_publishing.specs.Meets.{Meets, IsTooLarge};
ghost use Rattle.sk_publishing.specs.Rates.{IsLeastRate, IsGreatestRate};
ghost use Rattle.sk_publishing.specs.Chain.{IsAllowedStep, rounded_up as rounded_up_of};
ghost use Rattle.sk_publishing.specs.Kept.{is_new};
ghost use Rattle.sk_publishing.specs.Built.{middle_rate as middle_of};
ghost use Rattle.sk_fit.specs.Given.{CanMeet, IsRate, anchor_of, sight_at, segment_view};
ghost use Rattle.sk_fit.specs.Barriers.{IsBarrier, IsEndWithin, IsMiss, distance_of};
ghost use Rattle.sk_fit.specs.State.{HoldsLine};
ghost use Rattle.sk_fit.specs.Context.{IsFit, IsNext, terms};

use crate::anchors::{line_at, middle_rate, rounded_up, time_after};
use crate::chain::{End, Segment};
use crate::fault::{Barrier, Miss};
use crate::gains::latest;
use crate::partitions::are_together;
use crate::products::is_less;
use crate::rates::{bounds, meets};
use crate::settings::{Bounds, Line, Settings};
use crate::start::Start;
use sk_clock::Clock;
use sk_decimal::Fixed;
use sk_obs::Observation;
use std::marker::Model;

/// The clock, the settings, the start and the observations of a fit.
#[derive(Drop)]
pub struct Fit<'a> {
    clock: &'a Clock,
    settings: Settings,
    start: Start,
    observations: &'a [Observation],
}

impl<'a> Model for Fit<'a> {
    ghost use Rattle.sk_fit.specs.Context.{FitView, IsFit};

    ghost Value = { FitView };

    ghost view = { λ f. record { settings = f.settings; clock = f.clock.now; start = f.start; rows = f.observations.now } };

    ghost invariant = { λ f. IsFit (record { settings = f.settings; clock = f.clock.now; start = f.start; rows = f.observations.now }) };
}

impl<'a> Fit<'a> {
    /// A fit by settings in their ranges and a band that is that of the allowed rates.
    pub fn new(
        clock: &'a Clock,
        settings: Settings,
        start: Start,
        observations: &'a [Observation],
    ) -> Fit<'a>
        requires { IsFit (record { settings = settings; clock = clock.now; start = start; rows = observations.now }) }
        ensures { result ≡ record { settings = settings; clock = clock.entry.now; start = start; rows = observations.entry.now } }
    {
        Fit {
            clock,
            settings,
            start,
            observations,
        }
    }

    /// What new triples go on from.
    pub fn start(&self) -> Start
        ensures { result ≡ self.now.start }
    {
        self.start
    }

    /// How many observations there are.
    pub fn count(&self) -> usize
        ensures { result ≡ length self.now.rows }
    {
        self.observations.len()
    }

    /// The observation of a place.
    pub fn at(&self, place: usize) -> &'a Observation
        requires { place < length self.now.rows }
        ensures here { slice_get self.now.rows place ≡ Some result.now }
        ensures short { result.now.tick ≤ total self.now.clock }
        ensures next { is_new (terms self.now) (sight_at place result.now) ≡ true → IsNext self.now place result.now }
    {
        let rows = self.observations;
        &rows[place]
    }

    /// The time of an observation less that of the line of a segment.
    fn distance(&self, segment: Segment, obs: &Observation) -> Fixed<12>
        requires line { HoldsLine (ticks_per_of self.now.clock) segment.anchor }
        requires rate { IsRate segment.rate.units }
        requires short { obs.now.tick ≤ total self.now.clock }
        ensures { result.units ≡ distance_of (terms self.now).gauge (segment_view [] [] segment) obs.now.tick obs.now.time }
    {
        let ticks_per = self.clock.ticks_per();
        let line = line_at(segment.anchor, segment.rate.units, obs.tick, ticks_per);
        Fixed {
            units: time_after(obs.time.units, line, ticks_per),
        }
    }

    /// The record of a place, and its distance from the line of a segment.
    fn miss(&self, segment: Segment, place: usize) -> Miss
        requires within { place < length self.now.rows }
        requires line { HoldsLine (ticks_per_of self.now.clock) segment.anchor }
        requires rate { IsRate segment.rate.units }
        ensures { IsMiss (terms self.now).gauge (segment_view [] [] segment) self.now.rows place result }
    {
        let obs = self.at(place);
        Miss {
            number: obs.number,
            distance: self.distance(segment, obs),
        }
    }

    /// Why a segment that ends at an observation could not go on to it.
    pub fn barrier(&self, segment: Segment, obs: &Observation) -> Barrier
        requires within { IsEndWithin (length self.now.rows) segment.ended }
        requires line { HoldsLine (ticks_per_of self.now.clock) segment.anchor }
        requires rate { IsRate segment.rate.units }
        requires short { obs.now.tick ≤ total self.now.clock }
        ensures { IsBarrier (terms self.now).gauge self.now.rows (sight_at 0 obs.now) (segment_view [] [] segment) result }
    {
        match segment.ended {
            End::Fixed => Barrier::OldLine(self.distance(segment, obs)),
            End::Blocked { low, high } => Barrier::Pair {
                low: self.miss(segment, low),
                high: self.miss(segment, high),
            },
            End::Last => unreachable!(),
            End::Partition => unreachable!(),
        }
    }

    /// As many observations are dropped as may be.
    pub fn is_full(&self, dropped: usize) -> bool
        ensures { IsTrue result ↔ (self.now.settings.reject ≤ dropped) }
    {
        dropped >= self.settings.reject as usize
    }

    /// The observation is in the partition of a tick.
    pub fn are_together(&self, obs: &Observation, tick: u64) -> bool
        requires obs { obs.now.tick ≤ total self.now.clock }
        requires tick { tick ≤ total self.now.clock }
        ensures { IsTrue result ↔ (partition_at self.now.clock obs.now.tick ≡ partition_at self.now.clock tick) }
    {
        are_together(self.clock, obs.tick, tick)
    }

    /// The line is within the tolerance of the observation, both ends counted.
    pub fn meets(&self, anchor: Line, rate: Fixed<18>, obs: &Observation) -> bool
        requires line { CanMeet self.now.clock anchor obs.now }
        requires rate { IsRate rate.units }
        ensures { IsTrue result ↔ Meets (terms self.now).gauge (anchor_of anchor) rate.units (sight_at 0 obs.now) }
    {
        meets(self.clock, &self.settings, anchor, rate, obs)
    }

    /// The least allowed rate that is not too small at the observation, and the greatest that is not too large.
    pub fn bounds(&self, anchor: Line, obs: &Observation) -> Bounds
        requires { CanMeet self.now.clock anchor obs.now }
        ensures least { IsLeastRate (IsAllowedStep (terms self.now)) (terms self.now).gauge (anchor_of anchor) (sight_at 0 obs.now) result.least }
        ensures greatest { IsGreatestRate (IsAllowedStep (terms self.now)) (terms self.now).gauge (anchor_of anchor) (sight_at 0 obs.now) result.greatest }
    {
        bounds(self.clock, &self.settings, self.start.band, anchor, obs)
    }

    /// The rate in the middle of two allowed ones, rounded down to the grid.
    pub fn middle_rate(&self, bounds: Bounds) -> Fixed<18>
        requires least { IsAllowedStep (terms self.now) bounds.least }
        requires greatest { IsAllowedStep (terms self.now) bounds.greatest }
        requires filled { bounds.least ≤ℤ bounds.greatest }
        ensures value { result.units ≡ middle_of (terms self.now) bounds.least bounds.greatest }
        ensures rate { IsRate result.units }
    {
        middle_rate(self.settings.rate_decimals, bounds.least, bounds.greatest)
    }

    /// The anchor on the line of a segment at a tick: its time is rounded up to the time unit.
    pub fn anchor_on(&self, segment: Segment, tick: u64) -> Line
        requires line { HoldsLine (ticks_per_of self.now.clock) segment.anchor }
        requires rate { IsRate segment.rate.units }
        requires ahead { segment.anchor.ticks ≤ tick }
        requires short { tick < 2 ^ 53 }
        ensures { anchor_of result ≡ record { ticks = tick; time = rounded_up_of (terms self.now) (segment_view [] [] segment) tick } }
    {
        let ticks_per = self.clock.ticks_per();
        let line = line_at(segment.anchor, segment.rate.units, tick, ticks_per);
        let units = rounded_up(line, ticks_per);
        Line {
            ticks: tick,
            time: Fixed { units },
        }
    }

    /// The line of a segment is later than the observation by more than the tolerance.
    pub fn is_late(&self, segment: Segment, obs: &Observation) -> bool
        requires line { HoldsLine (ticks_per_of self.now.clock) segment.anchor }
        requires rate { IsRate segment.rate.units }
        requires ahead { segment.anchor.ticks ≤ obs.now.tick }
        requires short { obs.now.tick ≤ total self.now.clock }
        ensures { IsTrue result ↔ IsTooLarge (terms self.now).gauge (anchor_of segment.anchor) segment.rate.units (sight_at 0 obs.now) }
    {
        let ticks_per = self.clock.ticks_per();
        let line = line_at(segment.anchor, segment.rate.units, obs.tick, ticks_per);
        is_less(
            latest(obs.time.units, self.settings.tolerance.units, ticks_per),
            line,
        )
    }
}
