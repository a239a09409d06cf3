//! The open segment ends at an observation, and the next claimed one begins with it.

ghost use Rattle.std.specs.Prelude.{◌≡◌, ◌↔◌, ◌+◌, OnOk, OnErr, IsTrue, true, false, Ok};
ghost use Rattle.sk_audit.specs.Given.{anchor_of};
ghost use Rattle.sk_audit.specs.Walking.{begun_at};
ghost use Rattle.sk_audit.specs.Scene.{terms, IsHere, CanEndAs};
ghost use Rattle.sk_audit.specs.Evaluated.{IsEvaluated, IsRefuted, IsNextAt, IsDue, so_far};

use crate::anchors::anchored_at;
use crate::line::{Bounds, Line};
use crate::scene::Scene;
use crate::told::{End, Told};
use crate::walk::Walk;
use sk_checks::NoMemory;
use sk_decimal::Fixed;
use sk_obs::Observation;
use sk_triples::Triple;

/// The line of a segment that begins, and the bounds that its first observation sets.
#[derive(Clone, Copy)]
pub struct Beginning {
    pub anchor: Line,
    pub rate: Fixed<18>,
    pub bounds: Bounds,
}

/// Why the open segment ends, and the anchor that is due for the next one, with the bounds that its first observation
/// sets.
#[derive(Clone, Copy)]
pub struct Due {
    pub ended: End,
    pub anchor: Line,
    pub bounds: Bounds,
}

/// The triple begins at the anchor.
fn begins_at(triple: &Triple, anchor: Line) -> bool
    ensures { IsTrue result ↔ (triple.now.anchor ≡ anchor_of anchor) }
{
    triple.ticks == anchor.ticks && triple.time.units == anchor.time.units
}

/// The rates are the same.
pub(crate) fn are_same(a: Fixed<18>, b: Fixed<18>) -> bool
    ensures { IsTrue result ↔ (a.units ≡ b.units) }
{
    a.units == b.units
}

impl Walk {
    /// The open segment ends in its partition and the next one begins, or the observation is dropped.
    pub(crate) fn leave_or_drop(
        &mut self,
        scene: &Scene,
        place: usize,
        obs: &Observation,
        ended: End,
    ) -> Result<bool, NoMemory>
        requires evaluated { IsEvaluated scene.now place self.old }
        requires next { IsNextAt scene.now place obs.now }
        requires here { IsHere scene.now obs.now self.old }
        requires ends { CanEndAs scene.now place obs.now (so_far (terms scene.now) self.old) ended }
        ensures on { result ≡ Ok true → IsEvaluated scene.now (place + 1) self.new }
        ensures refuted { result ≡ Ok false → IsRefuted scene.now }
    {
        let rate = self.rate_so_far(scene);
        let anchor = scene.anchor_on(self.anchor, rate, self.leave_tick);
        let bounds = scene.bounds(anchor, obs);
        if bounds.is_empty() {
            return self.drop_or_stop(scene, place, obs);
        }
        self.begin_claimed(
            scene,
            place,
            obs,
            Due {
                ended,
                anchor,
                bounds,
            },
        )
    }

    /// The open segment ends with its partition, and the next one begins at the tick of the observation.
    pub(crate) fn take_apart(
        &mut self,
        scene: &Scene,
        place: usize,
        obs: &Observation,
    ) -> Result<bool, NoMemory>
        requires evaluated { IsEvaluated scene.now place self.old }
        requires next { IsNextAt scene.now place obs.now }
        requires away { ¬ IsHere scene.now obs.now self.old }
        ensures on { result ≡ Ok true → IsEvaluated scene.now (place + 1) self.new }
        ensures refuted { result ≡ Ok false → IsRefuted scene.now }
    {
        let rate = self.rate_so_far(scene);
        if scene.is_late(self.anchor, rate, obs) {
            return Ok(false);
        }
        let line = scene.anchor_on(self.anchor, rate, obs.tick);
        let anchor = anchored_at(obs, line);
        let bounds = scene.bounds(anchor, obs);
        self.begin_claimed(
            scene,
            place,
            obs,
            Due {
                ended: End::Partition,
                anchor,
                bounds,
            },
        )
    }

    /// The next claimed segment begins where it is due, after one whose claimed rate is the middle one of all that it covers.
    fn begin_claimed(
        &mut self,
        scene: &Scene,
        place: usize,
        obs: &Observation,
        due: Due,
    ) -> Result<bool, NoMemory>
        requires evaluated { IsEvaluated scene.now place self.old }
        requires next { IsNextAt scene.now place obs.now }
        requires due { IsDue scene.now place obs.now self.old due }
        ensures on { result ≡ Ok true → IsEvaluated scene.now (place + 1) self.new }
        ensures refuted { result ≡ Ok false → IsRefuted scene.now }
    {
        if !are_same(self.rate_so_far(scene), self.rate) {
            return Ok(false);
        }
        let Some(claim) = scene.claim(self.closed.len()) else {
            return Ok(false);
        };
        if !begins_at(&claim, due.anchor) {
            return Ok(false);
        }
        if !scene.is_between(claim.rate, due.bounds) {
            return Ok(false);
        }
        match self.begin(due, claim.rate, place, obs.tick) {
            Ok(()) => Ok(true),
            Err(fault) => Err(fault),
        }
    }

    /// The open segment ends, and another one begins with a place.
    fn begin(&mut self, due: Due, rate: Fixed<18>, place: usize, tick: u64) -> Result<(), NoMemory>
        ensures ok { OnOk result (self.new ≡ begun_at self.old due.ended (record { anchor = due.anchor; rate = rate; bounds = due.bounds }) place tick) }
        ensures err { OnErr result (self.new ≡ self.old) }
    {
        let told = Told {
            anchor: self.anchor,
            rate: self.rate,
            place: self.last,
            ended: due.ended,
        };
        self.closed.push(told)?;
        self.anchor = due.anchor;
        self.rate = rate;
        self.last = Some(place);
        self.leave_tick = tick;
        self.least = due.bounds.least;
        self.greatest = due.bounds.greatest;
        self.least_place = place;
        self.greatest_place = place;
        Ok(())
    }
}
