//! What is evaluated of claimed triples so far, and what an observation more does to it.

ghost use Rattle.std.specs.Prelude.{◌≡◌, ◌+◌, ◌++◌, ◌∷◌, ◌^◌, ◌<◌, IfOk, IfSome, IfNone, OnOk, OnErr, IsTrue, true, false, Ok, ◌≢◌, [], length, slice_get, Some};
ghost use Rattle.sk_publishing.specs.Row.{RowView};
ghost use Rattle.sk_publishing.specs.Kept.{is_new};
ghost use Rattle.sk_publishing.specs.Meets.{Meets};
ghost use Rattle.sk_audit.specs.Given.{IsRate, anchor_of, sight_at};
ghost use Rattle.sk_audit.specs.Walking.{fresh, dropped_at, gone_on};
ghost use Rattle.sk_audit.specs.Scene.{terms, IsHere, LacksRate, CanEndAs};
ghost use Rattle.sk_audit.specs.Evaluated.{IsEvaluated, IsRefuted, IsNextAt, Evaluates, rate_so_far, so_far};

use crate::line::{Bounds, Line};
use crate::scene::Scene;
use crate::start::Start;
use crate::told::{End, Told};
use sk_checks::NoMemory;
use sk_decimal::Fixed;
use sk_obs::Observation;
use std::alloc::Global;
use std::marker::Model;

/// What is evaluated so far: what is told of the segments that ended, the open one with its claimed line, and the places
/// that are dropped.
#[derive(Drop)]
pub struct Walk {
    pub(crate) closed: Vec<Told>,
    pub(crate) anchor: Line,
    /// The claimed rate.
    pub(crate) rate: Fixed<18>,
    /// The last place that the open segment covers.
    pub(crate) last: Option<usize>,
    /// Where the line of the open segment is left.
    pub(crate) leave_tick: u64,
    /// The tightest need and the tightest room of the open segment, and the places that set them.
    pub(crate) least: i128,
    pub(crate) greatest: i128,
    pub(crate) least_place: usize,
    pub(crate) greatest_place: usize,
    pub(crate) dropped: Vec<usize>,
}

impl Model for Walk {
    ghost use Rattle.sk_audit.specs.Walking.{WalkView};

    ghost Value = { WalkView };

    ghost view = { λ w. record {
      closed = w.closed.items;
      anchor = w.anchor;
      rate = w.rate;
      last = w.last;
      leave_tick = w.leave_tick;
      least = w.least;
      greatest = w.greatest;
      least_place = w.least_place;
      greatest_place = w.greatest_place;
      dropped = w.dropped.items;
    } };
}

impl Walk {
    /// Nothing is evaluated yet: the line of the old last triple goes on to the seam.
    pub fn new(alloc: Global, start: Start) -> Walk
        ensures { result ≡ fresh start.old start.seam }
    {
        let old = start.old;
        Walk {
            closed: Vec::new(alloc),
            anchor: Line {
                ticks: old.ticks,
                time: old.time,
            },
            rate: old.rate,
            last: None,
            leave_tick: start.seam,
            least: 0,
            greatest: 0,
            least_place: 0,
            greatest_place: 0,
            dropped: Vec::new(alloc),
        }
    }

    /// The claims are evaluated over one observation more; `false` where they are those of no publication.
    pub fn take(&mut self, scene: &Scene, place: usize) -> Result<bool, NoMemory>
        requires within { place < length scene.now.rows }
        requires new { (row : RowView) → slice_get scene.now.rows place ≡ Some row → is_new (terms scene.now) (sight_at place row) ≡ true }
        requires evaluated { IsEvaluated scene.now place self.old }
        ensures on { result ≡ Ok true → IsEvaluated scene.now (place + 1) self.new }
        ensures refuted { result ≡ Ok false → IsRefuted scene.now }
    {
        let obs = scene.at(place);
        self.take_next(scene, place, obs)
    }

    /// The next observation is met by the claimed line, or else it begins the next claimed segment or is dropped.
    fn take_next(
        &mut self,
        scene: &Scene,
        place: usize,
        obs: &Observation,
    ) -> Result<bool, NoMemory>
        requires evaluated { IsEvaluated scene.now place self.old }
        requires next { IsNextAt scene.now place obs.now }
        ensures on { result ≡ Ok true → IsEvaluated scene.now (place + 1) self.new }
        ensures refuted { result ≡ Ok false → IsRefuted scene.now }
    {
        if !scene.are_together(obs, self.anchor.ticks) {
            return self.take_apart(scene, place, obs);
        }
        if scene.meets(self.anchor, self.rate, obs) {
            self.cover(scene, place, obs);
            return Ok(true);
        }
        let Some(ended) = self.end_before(scene, place, obs) else {
            return Ok(false);
        };
        self.leave_or_drop(scene, place, obs, ended)
    }

    /// The open segment covers an observation that its claimed line meets.
    fn cover(&mut self, scene: &Scene, place: usize, obs: &Observation)
        requires evaluated { IsEvaluated scene.now place self.old }
        requires next { IsNextAt scene.now place obs.now }
        requires here { IsHere scene.now obs.now self.old }
        requires met { Meets (terms scene.now).gauge (anchor_of self.old.anchor) self.old.rate.units (sight_at place obs.now) }
        ensures { IsEvaluated scene.now (place + 1) self.new }
    {
        if self.is_first() {
            self.go_on(place, obs.tick);
            return;
        }
        let running = self.running_over(scene, place, obs);
        self.set_running(running);
        self.go_on(place, obs.tick);
    }

    /// Why the open segment ends at an observation that its claimed line misses; `None` where it could have gone on.
    fn end_before(&self, scene: &Scene, place: usize, obs: &Observation) -> Option<End>
        requires evaluated { IsEvaluated scene.now place self.now }
        requires next { IsNextAt scene.now place obs.now }
        requires here { IsHere scene.now obs.now self.now }
        requires misses { ¬ Meets (terms scene.now).gauge (anchor_of self.now.anchor) self.now.rate.units (sight_at place obs.now) }
        ensures some { IfSome result (CanEndAs scene.now place obs.now (so_far (terms scene.now) self.now)) }
        ensures none { IfNone result (IsRefuted scene.now) }
    {
        if self.is_first() {
            return Some(End::Fixed);
        }
        let running = self.running_over(scene, place, obs);
        if !running.bounds.is_empty() {
            return None;
        }
        Some(End::Blocked {
            low: running.least_place,
            high: running.greatest_place,
        })
    }

    /// The observation is dropped, where one more may be; else there is no publication.
    pub(crate) fn drop_or_stop(
        &mut self,
        scene: &Scene,
        place: usize,
        obs: &Observation,
    ) -> Result<bool, NoMemory>
        requires evaluated { IsEvaluated scene.now place self.old }
        requires next { IsNextAt scene.now place obs.now }
        requires none { LacksRate scene.now place obs.now (so_far (terms scene.now) self.old) }
        ensures on { result ≡ Ok true → IsEvaluated scene.now (place + 1) self.new }
        ensures refuted { result ≡ Ok false → IsRefuted scene.now }
    {
        if scene.is_full(self.dropped.len()) {
            return Ok(false);
        }
        match self.drop_place(place) {
            Ok(()) => Ok(true),
            Err(fault) => Err(fault),
        }
    }

    /// A place is dropped.
    fn drop_place(&mut self, place: usize) -> Result<(), NoMemory>
        ensures ok { OnOk result (self.new ≡ dropped_at self.old place) }
        ensures err { OnErr result (self.new ≡ self.old) }
    {
        self.dropped.push(place)?;
        Ok(())
    }

    /// The open segment is the first one, whose line is that of the old last triple.
    pub(crate) fn is_first(&self) -> bool
        ensures first { IsTrue result → self.now.closed ≡ [] }
        ensures later { result ≡ false → 0 < length self.now.closed }
    {
        self.closed.is_empty()
    }

    /// The rate that the open segment has over what it covers so far; in the end it is the claimed one.
    pub(crate) fn rate_so_far(&self, scene: &Scene) -> Fixed<18>
        requires evaluated { Evaluates scene.now self.now }
        ensures value { result.units ≡ rate_so_far (terms scene.now) self.now }
        ensures rate { IsRate result.units }
    {
        if self.is_first() {
            return self.rate;
        }
        scene.middle_rate(Bounds {
            least: self.least,
            greatest: self.greatest,
        })
    }

    /// The open segment covers a place, and is left at its tick.
    fn go_on(&mut self, place: usize, tick: u64)
        ensures { self.new ≡ gone_on self.old place tick self.old.rate }
    {
        self.last = Some(place);
        self.leave_tick = tick;
    }
}
