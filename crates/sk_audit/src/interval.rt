//! The tightest need and the tightest room of what a segment covers.

ghost use Rattle.std.specs.Prelude.{◌≡◌, ◌<◌, ◌<ℤ◌, ◌≤ℤ◌, length};
ghost use Rattle.sk_audit.specs.Walking.{bounded};
ghost use Rattle.sk_audit.specs.Scene.{terms, RunsOver};
ghost use Rattle.sk_audit.specs.Evaluated.{IsEvaluated, IsNextAt, so_far};

use crate::line::Bounds;
use crate::scene::Scene;
use crate::walk::Walk;
use sk_obs::Observation;

/// An interval of rates, and the places of the observations that set it.
#[derive(Clone, Copy)]
pub struct Running {
    pub bounds: Bounds,
    pub least_place: usize,
    pub greatest_place: usize,
}

impl Walk {
    /// The interval of rates that meet what is covered and one more observation.
    pub(crate) fn running_over(&self, scene: &Scene, place: usize, obs: &Observation) -> Running
        requires evaluated { IsEvaluated scene.now place self.now }
        requires next { IsNextAt scene.now place obs.now }
        requires later { 0 < length self.now.closed }
        ensures { RunsOver scene.now place obs.now (so_far (terms scene.now) self.now) result }
    {
        let bounds = scene.bounds(self.anchor, obs);
        self.narrowed(place, bounds)
    }

    /// The interval with the bounds of one more observation.
    fn narrowed(&self, place: usize, bounds: Bounds) -> Running
        ensures least_moves { self.now.least <ℤ bounds.least → (result.least_place ≡ place) × (result.bounds.least ≡ bounds.least) }
        ensures least_stays { bounds.least ≤ℤ self.now.least → (result.least_place ≡ self.now.least_place) × (result.bounds.least ≡ self.now.least) }
        ensures greatest_moves { bounds.greatest <ℤ self.now.greatest → (result.greatest_place ≡ place) × (result.bounds.greatest ≡ bounds.greatest) }
        ensures greatest_stays { self.now.greatest ≤ℤ bounds.greatest → (result.greatest_place ≡ self.now.greatest_place) × (result.bounds.greatest ≡ self.now.greatest) }
    {
        let (least_place, least) = if self.least < bounds.least {
            (place, bounds.least)
        } else {
            (self.least_place, self.least)
        };
        let (greatest_place, greatest) = if bounds.greatest < self.greatest {
            (place, bounds.greatest)
        } else {
            (self.greatest_place, self.greatest)
        };
        Running {
            bounds: Bounds { least, greatest },
            least_place,
            greatest_place,
        }
    }

    /// The interval and the places that set it.
    pub(crate) fn set_running(&mut self, running: Running)
        ensures { self.new ≡ bounded self.old running }
    {
        self.least = running.bounds.least;
        self.greatest = running.bounds.greatest;
        self.least_place = running.least_place;
        self.greatest_place = running.greatest_place;
    }
}
