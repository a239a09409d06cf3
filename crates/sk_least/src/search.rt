//! The longest run from an observation on.

ghost use Rattle.std.specs.Prelude.{◌≡◌, ◌↔◌, IsTrue, ◌+◌, ◌-◌, ◌*◌, ◌<◌, ◌≤◌, ◌^◌, IfOk, MatchOption, length, pos};
ghost use Rattle.sk_clock.specs.Clock.{total, lengths};
ghost use Rattle.sk_least.specs.Answer.{AreLeast};
ghost use Rattle.sk_least.specs.Cover.{partition_at};
ghost use Rattle.sk_least.specs.declared.stretch.Stop.TheVariants.{Bent};
ghost use Rattle.sk_publishing.specs.Row.{AreRows};
ghost use Rattle.sk_publishing.specs.Terms.{sights};
ghost use Rattle.sk_least.specs.Search.{turned as turned_of, IsRun, EndsAs, IsLongestFrom};

use crate::hull::Hull;
use crate::hulls::Hulls;
use crate::pair::Pair;
use crate::point::Point;
use crate::slope::is_conflict;
use crate::stretch::{Stop, Stretch};
use sk_checks::NoMemory;
use sk_clock::Clock;
use sk_grammar::List;
use sk_obs::Observation;
use std::alloc::Global;
use std::marker::Model;

/// The clock, the tolerance in 10^-12 s, and the observations, also with the other sign of their times.
#[derive(Drop)]
pub struct Search<'a> {
    clock: &'a Clock,
    tolerance: u64,
    points: Vec<Point>,
    turned: Vec<Point>,
}

impl<'a> Model for Search<'a> {
    ghost use Rattle.sk_least.specs.Search.{SearchView, IsSearch};

    ghost Value = { SearchView };

    ghost view = { λ s. record { clock = s.clock.now; tolerance = s.tolerance; all = s.points.items } };

    ghost invariant = { λ s. IsSearch (record { clock = s.clock.now; tolerance = s.tolerance; all = s.points.items }) s.turned.items };
}

/// An observation in its place.
fn point_at(place: usize, observation: &Observation) -> Point
    requires { observation.now.tick < 2 ^ 53 }
    ensures { result ≡ record { place = place; tick = observation.now.tick; time = observation.now.time } }
{
    Point {
        place,
        tick: observation.tick,
        time: observation.time.units,
    }
}

/// The same with the other sign of its time: how much slope it leaves is then how much it needs.
fn turned(point: Point) -> Point
    ensures { result ≡ turned_of point }
{
    Point {
        place: point.place,
        tick: point.tick,
        time: -point.time,
    }
}

/// Two ticks are in one partition.
fn are_together(clock: &Clock, a: u64, b: u64) -> bool
    requires first { a ≤ total clock.now }
    requires second { b ≤ total clock.now }
    ensures { IsTrue result ↔ (partition_at (lengths clock.now) a ≡ partition_at (lengths clock.now) b) }
{
    clock.partition_at(a).unwrap() == clock.partition_at(b).unwrap()
}

/// The end of a run that one line more would not meet.
fn bent(need: &Pair, room: &Pair) -> Stop
    ensures { result ≡ Bent need.now.from.place need.now.to.place room.now.from.place room.now.to.place }
{
    Stop::Bent {
        need_from: need.from.place,
        need_to: need.to.place,
        room_from: room.from.place,
        room_to: room.to.place,
    }
}

impl<'a> Search<'a> {
    /// The observations, in their order and places.
    pub fn new(
        alloc: Global,
        clock: &'a Clock,
        observations: &[Observation],
        tolerance: u64,
    ) -> Result<Search<'a>, NoMemory>
        requires observations { AreRows (total clock.now) observations.now }
        requires tolerance { tolerance ≤ 60 * 10 ^ 12 }
        ensures { IfOk result (λ s. s ≡ record { clock = clock.entry.now; tolerance = tolerance; all = sights observations.now }) }
    {
        // Ticks up to a clock's total are below 2^53.
        let _total = clock.total();
        let mut points = Vec::new(alloc);
        let mut over = Vec::new(alloc);
        for observation in observations {
            let point = point_at(points.as_slice().len(), observation);
            points.push(point)?;
            over.push(turned(point))?;
        }
        Ok(Search {
            clock,
            tolerance,
            points,
            turned: over,
        })
    }

    /// The hulls of the run of one observation.
    fn begin(&self, alloc: Global, first: usize) -> Result<Hulls, NoMemory>
        requires { first < length self.now.all }
        ensures { IfOk result (IsRun self.now first (first + 1)) }
    {
        let points = self.points.as_slice();
        let turned = self.turned.as_slice();
        let need = Hull::new(alloc, points[first])?;
        let room = Hull::new(alloc, turned[first])?;
        Ok(Hulls { need, room })
    }

    /// Takes the observation in a place to the run before it, or says why the run ends there.
    fn grow(&self, hulls: &mut Hulls, first: usize, past: usize) -> Result<Option<Stop>, NoMemory>
        requires inside { past < length self.now.all }
        requires run { IsRun self.now first past hulls.old }
        ensures { IfOk result (λ o. MatchOption o (IsRun self.now first (past + 1) hulls.new) (EndsAs self.now first past)) }
    {
        let points = self.points.as_slice();
        let turned = self.turned.as_slice();
        let (start, next) = (points[first], points[past]);
        if !are_together(self.clock, start.tick, next.tick) {
            return Ok(Some(Stop::Partition));
        }
        let slack = 2 * self.tolerance;
        let need = hulls.need.take(slack, &points[first..past + 1])?;
        let room = hulls.room.take(slack, &turned[first..past + 1])?;
        if is_conflict(slack, &need, &room) {
            return Ok(Some(bent(&need, &room)));
        }
        Ok(None)
    }

    /// The longest run from a place on.
    pub fn longest(&self, alloc: Global, first: usize) -> Result<Stretch, NoMemory>
        requires { first < length self.now.all }
        ensures { IfOk result (IsLongestFrom self.now first) }
    {
        let points = self.points.as_slice();
        let count = points.len();
        let mut hulls = self.begin(alloc, first)?;
        for past in first + 1..count {
            if let Some(stop) = self.grow(&mut hulls, first, past)? {
                return Ok(Stretch { first, past, stop });
            }
        }
        Ok(Stretch {
            first,
            past: count,
            stop: Stop::Last,
        })
    }

    /// The longest runs, one after another.
    pub fn runs(&self, alloc: Global) -> Result<List<Stretch>, NoMemory>
        ensures { IfOk result (AreLeast (lengths self.now.clock) (pos self.now.tolerance) self.now.all) }
    {
        let points = self.points.as_slice();
        let mut stretches = Vec::new(alloc);
        let mut first = 0;
        while first < points.len() {
            let stretch = self.longest(alloc, first)?;
            first = stretch.past;
            stretches.push(stretch)?;
        }
        Ok(List::from_vec(stretches))
    }
}
