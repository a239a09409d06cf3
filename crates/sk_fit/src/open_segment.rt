//! The open segment goes on over an observation: its rate, and the interval that bounds it.

ghost use Rattle.std.specs.Prelude.{◌≡◌, ◌+◌, ◌^◌, ◌<◌, ◌<ℤ◌, ◌≤ℤ◌, IsTrue, false, [], IfSome, IfNone, length};
ghost use Rattle.sk_publishing.specs.Meets.{Meets};
ghost use Rattle.sk_fit.specs.Given.{anchor_of, sight_at};
ghost use Rattle.sk_fit.specs.Barriers.{IsEndWithin};
ghost use Rattle.sk_fit.specs.State.{gone_on, bounded};
ghost use Rattle.sk_fit.specs.Context.{terms, IsNext, IsBuiltTo, Grows, IsHere, RunsOver, CanEndAs};

use crate::chain::{End, Segment};
use crate::context::Fit;
use crate::fitting::Fitting;
use crate::settings::Bounds;
use sk_decimal::Fixed;
use sk_obs::Observation;

/// A running interval of rates, and the places of the observations that set it.
#[derive(Clone, Copy)]
pub struct Running {
    pub bounds: Bounds,
    pub least_place: usize,
    pub greatest_place: usize,
}

impl Fitting {
    /// The open segment goes on over an observation of its partition; else why it ends.
    pub(crate) fn goes_on(&mut self, fit: &Fit, place: usize, obs: &Observation) -> Option<End>
        requires built { IsBuiltTo fit.now place self.old }
        requires next { IsNext fit.now place obs.now }
        requires here { IsHere fit.now place obs.now self.old }
        ensures went { IfNone result (Grows fit.now place obs.now self.old self.new) }
        ensures stays { IfSome result (λ ended. self.new ≡ self.old) }
        ensures ends { IfSome result (CanEndAs fit.now place obs.now self.old) }
        ensures within { IfSome result (IsEndWithin (length fit.now.rows)) }
    {
        if self.is_first() {
            if self.goes_on_first(fit, place, obs) {
                return None;
            }
            return Some(End::Fixed);
        }
        match self.goes_on_later(fit, place, obs) {
            None => None,
            Some(running) => Some(End::Blocked {
                low: running.least_place,
                high: running.greatest_place,
            }),
        }
    }

    /// The open segment is the first one, whose line is that of the old last triple.
    fn is_first(&self) -> bool
        ensures first { IsTrue result → self.now.closed ≡ [] }
        ensures later { result ≡ false → 0 < length self.now.closed }
    {
        self.closed.is_empty()
    }

    /// The first segment goes on over an observation that the old rate meets.
    fn goes_on_first(&mut self, fit: &Fit, place: usize, obs: &Observation) -> bool
        requires built { IsBuiltTo fit.now place self.old }
        requires next { IsNext fit.now place obs.now }
        requires first { self.old.closed ≡ [] }
        requires here { IsHere fit.now place obs.now self.old }
        ensures went { IsTrue result → Grows fit.now place obs.now self.old self.new }
        ensures stays { result ≡ false → self.new ≡ self.old }
        ensures misses { result ≡ false → ¬ Meets (terms fit.now).gauge (anchor_of self.old.open_one.anchor) self.old.open_one.rate.units (sight_at place obs.now) }
    {
        let open_one = self.open_one;
        if fit.meets(open_one.anchor, open_one.rate, obs) {
            self.go_on(place, obs.tick, open_one.rate);
            return true;
        }
        false
    }

    /// A later segment goes on over an observation where the interval stays filled; else the interval that is empty.
    fn goes_on_later(&mut self, fit: &Fit, place: usize, obs: &Observation) -> Option<Running>
        requires built { IsBuiltTo fit.now place self.old }
        requires next { IsNext fit.now place obs.now }
        requires later { 0 < length self.old.closed }
        requires here { IsHere fit.now place obs.now self.old }
        ensures went { IfNone result (Grows fit.now place obs.now self.old self.new) }
        ensures stays { IfSome result (λ running. self.new ≡ self.old) }
        ensures pair { IfSome result (RunsOver fit.now place obs.now self.old) }
        ensures blocked { IfSome result (λ running. running.bounds.greatest <ℤ running.bounds.least) }
    {
        let running = self.running_over(fit, place, obs);
        if running.bounds.is_empty() {
            return Some(running);
        }
        let rate = fit.middle_rate(running.bounds);
        self.set_running(running);
        self.go_on(place, obs.tick, rate);
        None
    }

    /// The running interval over what is covered and one more observation.
    fn running_over(&self, fit: &Fit, place: usize, obs: &Observation) -> Running
        requires built { IsBuiltTo fit.now place self.now }
        requires next { IsNext fit.now place obs.now }
        requires later { 0 < length self.now.closed }
        ensures { RunsOver fit.now place obs.now self.now result }
    {
        let bounds = fit.bounds(self.open_one.anchor, obs);
        self.widened(place, bounds)
    }

    /// The running interval with the bounds of one more observation.
    fn widened(&self, place: usize, bounds: Bounds) -> Running
        ensures least_moves { self.now.least <ℤ bounds.least → (result.least_place ≡ place) × (result.bounds.least ≡ bounds.least) }
        ensures least_stays { bounds.least ≤ℤ self.now.least → (result.least_place ≡ self.now.least_place) × (result.bounds.least ≡ self.now.least) }
        ensures greatest_moves { bounds.greatest <ℤ self.now.greatest → (result.greatest_place ≡ place) × (result.bounds.greatest ≡ bounds.greatest) }
        ensures greatest_stays { self.now.greatest ≤ℤ bounds.greatest → (result.greatest_place ≡ self.now.greatest_place) × (result.bounds.greatest ≡ self.now.greatest) }
    {
        let (least_place, least) = if self.least < bounds.least {
            (place, bounds.least)
        } else {
            (self.least_place, self.least)
        };
        let (greatest_place, greatest) = if bounds.greatest < self.greatest {
            (place, bounds.greatest)
        } else {
            (self.greatest_place, self.greatest)
        };
        Running {
            bounds: Bounds { least, greatest },
            least_place,
            greatest_place,
        }
    }

    /// The open segment covers a place, with another rate, and is left at its tick.
    fn go_on(&mut self, place: usize, tick: u64, rate: Fixed<18>)
        requires { place + 1 < 2 ^ 64 }
        ensures { self.new ≡ gone_on self.old place tick rate }
    {
        let before = self.open_one;
        let first = if before.first == before.past {
            place
        } else {
            before.first
        };
        self.open_one = Segment {
            anchor: before.anchor,
            rate,
            first,
            past: place + 1,
            ended: End::Last,
        };
        self.leave_tick = tick;
    }

    /// The running interval and the places that set it.
    fn set_running(&mut self, running: Running)
        ensures { self.new ≡ bounded self.old running }
    {
        self.least = running.bounds.least;
        self.greatest = running.bounds.greatest;
        self.least_place = running.least_place;
        self.greatest_place = running.greatest_place;
    }
}
