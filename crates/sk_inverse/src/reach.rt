//! How far the line of a triple runs until a time. Products are 10^-18 s times ticks per count, in i128.

ghost use Rattle.std.specs.Prelude.{◌≡◌, ◌-◌, ◌*◌, ◌^◌, ◌<◌, ◌≤◌, IsTrue, ◌↔◌, pos, neg_ℤ, ◌-ℤ◌, ◌*ℤ◌, ◌≤ℤ◌, ◌<ℤ◌};
ghost use Rattle.sk_triples.specs.Kernel.{IsTriple};
ghost use Rattle.sk_inverse.specs.Search.{IsReached};

use sk_decimal::floor_div;
use sk_triples::Triple;

// A time times ticks per count.
fn times_count(time: i128, ticks_per: u64) -> i128
    requires from { pos 0 ≤ℤ time }
    requires to { time ≤ℤ pos (19 * 10 ^ 27) }
    requires few { ticks_per ≤ 2 ^ 32 }
    ensures value { result ≡ time *ℤ pos ticks_per }
    ensures from { pos 0 ≤ℤ result }
    ensures to { result ≤ℤ pos (82 * 10 ^ 36) }
{
    time * ticks_per as i128
}

// What a rate gains over ticks.
fn gain(rate: i128, ahead: u64) -> i128
    requires from { pos 0 <ℤ rate }
    requires to { rate ≤ℤ pos (1000 * 10 ^ 18) }
    requires ahead { ahead < 2 ^ 53 }
    ensures { result ≡ rate *ℤ pos ahead }
{
    rate * ahead as i128
}

/// The time since a triple's own.
pub fn elapsed(ticks_per: u64, triple: Triple, time: i128) -> i128
    requires few { ticks_per ≤ 2 ^ 32 }
    requires triple { neg_ℤ (pos (10 ^ 28)) ≤ℤ triple.anchor.time }
    requires begun { triple.anchor.time ≤ℤ time }
    requires time { time ≤ℤ pos (9 * 10 ^ 27) }
    ensures value { result ≡ (time -ℤ triple.anchor.time) *ℤ pos ticks_per }
    ensures from { pos 0 ≤ℤ result }
{
    times_count(time - triple.time.units, ticks_per)
}

/// The time that has elapsed is longer than the line runs to a tick from the triple's own on.
pub fn is_past(triple: Triple, elapsed: i128, tick: u64) -> bool
    requires triple { IsTriple tick triple }
    requires tick { tick < 2 ^ 53 }
    ensures { IsTrue result ↔ ((triple.rate *ℤ pos (tick - triple.anchor.ticks)) <ℤ elapsed) }
{
    gain(triple.rate.units, tick - triple.ticks) < elapsed
}

/// The greatest tick up to an end that the line reaches in the time that has elapsed.
pub fn reached(triple: Triple, elapsed: i128, end: u64) -> u64
    requires triple { IsTriple end triple }
    requires elapsed { pos 0 ≤ℤ elapsed }
    requires end { end < 2 ^ 53 }
    ensures { IsReached triple elapsed end result }
{
    let ahead = floor_div(elapsed, triple.rate.units);
    if ahead < (end - triple.ticks) as i128 {
        triple.ticks + ahead as u64
    } else {
        end
    }
}
