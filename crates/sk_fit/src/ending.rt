//! The open segment ends at an observation, and another one begins with it.

ghost use Rattle.std.specs.Prelude.{◌≡◌, ◌+◌, ◌^◌, ◌<◌, ◌≤◌, OnOk, OnErr, IfSome, IfNone, true, false, Ok, ◌≢◌};
ghost use Rattle.sk_clock.specs.Clock.{ticks_per};
ghost use Rattle.sk_publishing.specs.Chain.{IsNotLater, rounded_up, time_anew};
ghost use Rattle.sk_fit.specs.Given.{CanMeet, IsRate, anchor_of, sight_at};
ghost use Rattle.sk_fit.specs.State.{HoldsLine, begun_at, open_of};
ghost use Rattle.sk_fit.specs.Context.{terms, all_of, IsNext, IsBuiltTo, Grows, IsHere, CanEndAs, LacksRate, IsBeginning, NoneMeets};

use crate::anchors::anchored_at;
use crate::chain::{End, Segment};
use crate::context::Fit;
use crate::fitting::Fitting;
use crate::settings::{Bounds, Line};
use sk_checks::NoMemory;
use sk_decimal::Fixed;
use sk_obs::Observation;

/// The line of a segment that begins, and the bounds that its first observation sets.
#[derive(Clone, Copy)]
pub struct Beginning {
    pub anchor: Line,
    pub rate: Fixed<18>,
    pub bounds: Bounds,
}

/// The segment that begins at an anchor with an observation; `None` where no allowed rate meets it.
fn beginning_at(fit: &Fit, anchor: Line, obs: &Observation) -> Option<Beginning>
    requires { CanMeet fit.now.clock anchor obs.now }
    ensures some { IfSome result (IsBeginning (terms fit.now) (sight_at 0 obs.now)) }
    ensures same { IfSome result (λ b. b.anchor ≡ anchor) }
    ensures none { IfNone result (NoneMeets (terms fit.now) anchor (sight_at 0 obs.now)) }
{
    let bounds = fit.bounds(anchor, obs);
    if bounds.is_empty() {
        return None;
    }
    let rate = fit.middle_rate(bounds);
    Some(Beginning {
        anchor,
        rate,
        bounds,
    })
}

impl Fitting {
    /// The open segment ends in its partition and another one begins; `false` where no allowed rate meets the observation.
    pub(crate) fn leave_here(
        &mut self,
        fit: &Fit,
        place: usize,
        obs: &Observation,
        ended: End,
    ) -> Result<bool, NoMemory>
        requires built { IsBuiltTo fit.now place self.old }
        requires next { IsNext fit.now place obs.now }
        requires here { IsHere fit.now place obs.now self.old }
        requires ends { CanEndAs fit.now place obs.now self.old ended }
        ensures began { result ≡ Ok true → Grows fit.now place obs.now self.old self.new }
        ensures stays { result ≢ Ok true → self.new ≡ self.old }
        ensures none { result ≡ Ok false → LacksRate fit.now place obs.now ended self.old }
    {
        let anchor = self.left_anchor(fit);
        let Some(beginning) = beginning_at(fit, anchor, obs) else {
            return Ok(false);
        };
        match self.begin(ended, beginning, place, obs.tick) {
            Ok(()) => Ok(true),
            Err(fault) => Err(fault),
        }
    }

    /// The open segment ends with its partition, and another one begins at the tick of the observation.
    pub(crate) fn leave_apart(
        &mut self,
        fit: &Fit,
        place: usize,
        obs: &Observation,
    ) -> Result<(), NoMemory>
        requires built { IsBuiltTo fit.now place self.old }
        requires next { IsNext fit.now place obs.now }
        requires away { ¬ IsHere fit.now place obs.now self.old }
        requires not_late { IsNotLater (terms fit.now) (open_of (all_of fit.now) self.old) (sight_at place obs.now) }
        ensures ok { OnOk result (Grows fit.now place obs.now self.old self.new) }
        ensures err { OnErr result (self.new ≡ self.old) }
    {
        let anchor = self.anchor_anew(fit, obs);
        let Some(beginning) = beginning_at(fit, anchor, obs) else {
            unreachable!();
        };
        self.begin(End::Partition, beginning, place, obs.tick)?;
        Ok(())
    }

    /// The anchor that the open segment leaves where its line is left.
    fn left_anchor(&self, fit: &Fit) -> Line
        requires line { HoldsLine (ticks_per fit.now.clock) self.now.open_one.anchor }
        requires rate { IsRate self.now.open_one.rate.units }
        requires ahead { self.now.open_one.anchor.ticks ≤ self.now.leave_tick }
        requires short { self.now.leave_tick < 2 ^ 53 }
        ensures { anchor_of result ≡ record { ticks = self.now.leave_tick; time = rounded_up (terms fit.now) (open_of (all_of fit.now) self.now) self.now.leave_tick } }
    {
        fit.anchor_on(self.open_one, self.leave_tick)
    }

    /// The anchor at an observation of a later partition.
    fn anchor_anew(&self, fit: &Fit, obs: &Observation) -> Line
        requires line { HoldsLine (ticks_per fit.now.clock) self.now.open_one.anchor }
        requires rate { IsRate self.now.open_one.rate.units }
        requires ahead { self.now.open_one.anchor.ticks ≤ obs.now.tick }
        requires short { obs.now.tick < 2 ^ 53 }
        ensures { anchor_of result ≡ record { ticks = obs.now.tick; time = time_anew (terms fit.now) (open_of (all_of fit.now) self.now) (sight_at 0 obs.now) } }
    {
        let line = fit.anchor_on(self.open_one, obs.tick);
        anchored_at(obs, line)
    }

    /// The open segment ends, and another one begins with a place.
    fn begin(
        &mut self,
        ended: End,
        beginning: Beginning,
        place: usize,
        tick: u64,
    ) -> Result<(), NoMemory>
        requires { place + 1 < 2 ^ 64 }
        ensures ok { OnOk result (self.new ≡ begun_at self.old ended beginning place tick) }
        ensures err { OnErr result (self.new ≡ self.old) }
    {
        let mut before = self.open_one;
        before.ended = ended;
        self.closed.push(before)?;
        self.open_one = Segment {
            anchor: beginning.anchor,
            rate: beginning.rate,
            first: place,
            past: place + 1,
            ended: End::Last,
        };
        self.leave_tick = tick;
        self.least = beginning.bounds.least;
        self.greatest = beginning.bounds.greatest;
        self.least_place = place;
        self.greatest_place = place;
        Ok(())
    }
}
