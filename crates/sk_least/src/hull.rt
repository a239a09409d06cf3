//! The observations of a run from which a later one can need the greatest slope.

ghost use Rattle.std.specs.Prelude.{◌≡◌, ◌-◌, ◌^◌, ◌<◌, ◌≤◌, ◌∷◌, ◌++◌, [], ℕ, Some, IfOk, IfSome, length, take, drop};
ghost use Rattle.std.specs.List.{AllByRecursion};
ghost use Rattle.sk_least.specs.Hull.{IsEarlier, EachPair, IsConvex, IsSteepestAt, AreHidden, IsHullOf, IsSteeperOf};

use crate::pair::Pair;
use crate::point::Point;
use crate::slope::is_less_steep;
use sk_checks::NoMemory;
use std::alloc::Global;
use std::marker::Model;

/// The place in the hull of the first one that is steepest as seen from the next observation.
fn steepest(slack: u64, hull: &[Point], next: Point) -> usize
    requires slack { slack < 2 ^ 47 }
    requires some { 0 < length hull.now }
    requires rising { EachPair IsEarlier hull.now }
    requires convex { IsConvex hull.now }
    requires before { AllByRecursion (λ x. x.tick < next.tick) hull.now }
    ensures { IsSteepestAt slack hull.now next result }
{
    let mut place = 0;
    while place + 1 < hull.len() {
        let here = Pair {
            from: hull[place],
            to: next,
        };
        let following = Pair {
            from: hull[place + 1],
            to: next,
        };
        if !is_less_steep(slack, &here, &following) {
            return place;
        }
        place += 1;
    }
    place
}

/// How many of the hull the next observation does not hide from later ones.
fn kept(hull: &[Point], next: Point) -> usize
    requires some { 0 < length hull.now }
    requires rising { EachPair IsEarlier hull.now }
    requires convex { IsConvex hull.now }
    requires before { AllByRecursion (λ x. x.tick < next.tick) hull.now }
    ensures hidden { AreHidden hull.now next result }
    ensures convex { IsConvex (take result hull.now ++ next ∷ []) }
{
    let mut count = hull.len();
    while count >= 2 {
        let (before, last) = (hull[count - 2], hull[count - 1]);
        let edge = Pair {
            from: before,
            to: last,
        };
        let turn = Pair {
            from: last,
            to: next,
        };
        if is_less_steep(0, &edge, &turn) {
            return count;
        }
        count -= 1;
    }
    count
}

/// The steeper one of two pairs; the earlier of two that are as steep.
fn steeper_of(slack: u64, best: Option<Pair>, pair: Pair) -> Pair
    requires slack { slack < 2 ^ 47 }
    requires best { IfSome best (λ b. b.from.tick < b.to.tick) }
    requires pair { pair.from.tick < pair.to.tick }
    ensures { IsSteeperOf slack best pair result }
{
    match best {
        Some(best) => {
            if is_less_steep(slack, &best, &pair) {
                pair
            } else {
                best
            }
        }
        None => pair,
    }
}

/// The hull of a run, and the first of its steepest pairs.
#[derive(Drop)]
pub struct Hull {
    points: Vec<Point>,
    front: usize,
    best: Option<Pair>,
}

impl Model for Hull {
    ghost use Rattle.std.specs.Prelude.{drop};
    ghost use Rattle.sk_least.specs.Hull.{HullView};

    ghost Value = { HullView };

    ghost view = { λ h. record { points = drop h.front h.points.items; best = h.best } };
}

impl Hull {
    /// That of a run of one observation.
    pub fn new(alloc: Global, first: Point) -> Result<Hull, NoMemory>
        ensures { IfOk result (λ h. (slack : ℕ) → IsHullOf slack (first ∷ []) h.points h.best) }
    {
        let mut points = Vec::new(alloc);
        points.push(first)?;
        Ok(Hull {
            points,
            front: 0,
            best: None,
        })
    }

    /// Takes the last observation of a run, after those before it; the first of the steepest pairs of the run.
    pub fn take(&mut self, slack: u64, run: &[Point]) -> Result<Pair, NoMemory>
        requires slack { slack < 2 ^ 47 }
        requires some { 0 < length run.now }
        requires rising { EachPair IsEarlier run.now }
        requires taken { IsHullOf slack (take (length run.now - 1) run.now) self.old.points self.old.best }
        ensures { IfOk result (λ pair. IsHullOf slack run.now self.new.points (Some pair) × (self.new.best ≡ Some pair)) }
    {
        let next = run[run.len() - 1];
        let live = &self.points[self.front..];
        let place = steepest(slack, live, next);
        let count = kept(&live[place..], next);
        let pair = steeper_of(
            slack,
            self.best,
            Pair {
                from: live[place],
                to: next,
            },
        );
        self.front += place;
        self.points.truncate(self.front + count);
        self.points.push(next)?;
        self.best = Some(Pair {
            from: pair.from,
            to: pair.to,
        });
        Ok(pair)
    }
}
