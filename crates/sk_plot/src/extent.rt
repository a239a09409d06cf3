//! What the points come to.

ghost use Rattle.std.specs.Prelude.{◌≡◌, ◌≤◌, ◌^◌, pos, neg_ℤ, ◌≤ℤ◌, fold, option_map, unsigned_abs};
ghost use Rattle.sk_plot.specs.Picture.{start_of, earliest as earliest_of, latest as latest_of, worse as worse_of, worst_of, worst_size as worst_size_of, outside_count as outside_count_of};

use crate::place::is_inside;
use crate::point::Point;
use sk_decimal::Fixed;

// The first time, in the order given.
fn start(points: &[Point]) -> Fixed<12>
    ensures time { result.units ≡ start_of points.now }
    ensures from { neg_ℤ (pos (10 ^ 22)) ≤ℤ result.units }
    ensures to { result.units ≤ℤ pos (10 ^ 22) }
{
    match points.first() {
        None => Fixed { units: 0 },
        Some(point) => point.time,
    }
}

/// The earliest time; 0 of no points.
pub fn earliest(points: &[Point]) -> Fixed<12>
    ensures time { result.units ≡ earliest_of points.now }
    ensures first { result.units ≤ℤ start_of points.now }
    ensures from { neg_ℤ (pos (10 ^ 22)) ≤ℤ result.units }
{
    let mut least = start(points);
    for point in points {
        if point.time.units < least.units {
            least = point.time;
        }
    }
    least
}

/// The latest time; 0 of no points.
pub fn latest(points: &[Point]) -> Fixed<12>
    ensures time { result.units ≡ latest_of points.now }
    ensures last { start_of points.now ≤ℤ result.units }
    ensures to { result.units ≤ℤ pos (10 ^ 22) }
{
    let mut most = start(points);
    for point in points {
        if most.units < point.time.units {
            most = point.time;
        }
    }
    most
}

// The size of a residual.
fn size(point: &Point) -> u128
    ensures { result ≡ unsigned_abs point.now.residual }
{
    point.residual.units.unsigned_abs()
}

// The one whose residual is the greater in size; the first of two that are alike.
fn worse<'a>(point: &'a Point, later: &'a Point) -> &'a Point
    ensures { result.now ≡ worse_of point.now later.now }
{
    if size(point) < size(later) {
        later
    } else {
        point
    }
}

// The worst of a point and of those after it.
fn worst_after<'a>(first: &'a Point, points: &'a [Point]) -> &'a Point
    ensures { result.now ≡ fold worse_of first.now points.now }
{
    let mut worst = first;
    for point in points {
        worst = worse(worst, point);
    }
    worst
}

/// The first point whose residual is the greatest in size.
pub fn worst(points: &[Point]) -> Option<&Point>
    ensures { option_map (λ p. p.now) result ≡ worst_of points.now }
{
    match points.split_first() {
        None => None,
        Some((first, others)) => Some(worst_after(first, others)),
    }
}

/// The size of the worst residual; 0 of no points.
pub fn worst_size(points: &[Point]) -> u128
    ensures { result ≡ worst_size_of points.now }
{
    match worst(points) {
        None => 0,
        Some(point) => size(point),
    }
}

/// How many residuals are above the tolerance in size.
pub fn outside_count(points: &[Point], tolerance: u64) -> usize
    ensures { result ≡ outside_count_of tolerance points.now }
{
    let mut count = 0;
    for point in points {
        if !is_inside(tolerance, point.residual.units) {
            count += 1;
        }
    }
    count
}
