//! Slopes of pairs, compared by cross products of at most 1.63·10^38.

ghost use Rattle.std.specs.Prelude.{◌≡◌, ◌↔◌, IsTrue, ◌-◌, ◌*◌, ◌^◌, ◌<◌, ◌≤◌, pos, neg_ℤ, ◌*ℤ◌, ◌≤ℤ◌};
ghost use Rattle.sk_least.specs.Hull.{rise as rise_of, IsLessSteep};
ghost use Rattle.sk_least.specs.Search.{IsConflict};

use crate::pair::Pair;

/// How much the time rises from the one observation to the other, less a slack.
fn rise(slack: u64, pair: &Pair) -> i128
    requires { slack < 2 ^ 47 }
    ensures value { result ≡ rise_of slack pair.now.from pair.now.to }
    ensures from { neg_ℤ (pos (18001 * 10 ^ 18)) ≤ℤ result }
    ensures to { result ≤ℤ pos (18001 * 10 ^ 18) }
{
    pair.to.time - pair.from.time - slack as i128
}

/// The ticks between the two.
fn ticks(pair: &Pair) -> u64
    requires { pair.now.from.tick < pair.now.to.tick }
    ensures value { result ≡ pair.now.to.tick - pair.now.from.tick }
    ensures small { result < 2 ^ 53 }
{
    pair.to.tick - pair.from.tick
}

/// A rise times ticks.
fn product(rise: i128, ticks: u64) -> i128
    requires from { neg_ℤ (pos (18001 * 10 ^ 18)) ≤ℤ rise }
    requires to { rise ≤ℤ pos (18001 * 10 ^ 18) }
    requires ticks { ticks < 2 ^ 53 }
    ensures value { result ≡ rise *ℤ pos ticks }
    ensures from { neg_ℤ (pos (1622 * 10 ^ 35)) ≤ℤ result }
    ensures to { result ≤ℤ pos (1622 * 10 ^ 35) }
{
    rise * ticks as i128
}

/// The rise of the one pair over the ticks of the other.
fn cross(slack: u64, a: &Pair, b: &Pair) -> i128
    requires slack { slack < 2 ^ 47 }
    requires ticks { b.now.from.tick < b.now.to.tick }
    ensures value { result ≡ rise_of slack a.now.from a.now.to *ℤ pos (b.now.to.tick - b.now.from.tick) }
    ensures from { neg_ℤ (pos (1622 * 10 ^ 35)) ≤ℤ result }
    ensures to { result ≤ℤ pos (1622 * 10 ^ 35) }
{
    product(rise(slack, a), ticks(b))
}

/// The slope of the first pair is less than that of the second.
pub fn is_less_steep(slack: u64, a: &Pair, b: &Pair) -> bool
    requires slack { slack < 2 ^ 47 }
    requires first { a.now.from.tick < a.now.to.tick }
    requires second { b.now.from.tick < b.now.to.tick }
    ensures { IsTrue result ↔ IsLessSteep slack a.now.from a.now.to b.now.from b.now.to }
{
    cross(slack, a, b) < cross(slack, b, a)
}

/// The need is above the room, whose pair has its times with the other sign.
pub fn is_conflict(slack: u64, need: &Pair, room: &Pair) -> bool
    requires slack { slack < 2 ^ 47 }
    requires need { need.now.from.tick < need.now.to.tick }
    requires room { room.now.from.tick < room.now.to.tick }
    ensures { IsTrue result ↔ IsConflict slack need.now room.now }
{
    -cross(slack, room, need) < cross(slack, need, room)
}
