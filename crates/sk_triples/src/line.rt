//! Times of ticks in i128, as 10^-18 s times ticks per count.

ghost use Rattle.std.specs.Prelude.{◌≡◌, ◌-◌, ◌*◌, ◌^◌, ◌<◌, ◌≤◌, pos, neg_ℤ, ◌*ℤ◌, ◌≤ℤ◌, ◌<ℤ◌};
ghost use Rattle.sk_triples.specs.Kernel.{IsTriple};
ghost use Rattle.sk_line.specs.Line.{line_over as line_over_of, fall_over as fall_over_of};

use crate::triple::Triple;

/// A time times ticks per count.
pub fn times_count(time: i128, ticks_per: u64) -> i128
    requires from { neg_ℤ (pos (10 ^ 28)) ≤ℤ time }
    requires to { time ≤ℤ pos (10 ^ 28) }
    requires few { ticks_per ≤ 2 ^ 32 }
    ensures value { result ≡ time *ℤ pos ticks_per }
    ensures from { neg_ℤ (pos (43 * 10 ^ 36)) ≤ℤ result }
    ensures to { result ≤ℤ pos (43 * 10 ^ 36) }
{
    time * ticks_per as i128
}

// What a rate gains over ticks.
fn gain(rate: i128, ahead: u64) -> i128
    requires from { pos 0 <ℤ rate }
    requires to { rate ≤ℤ pos (1000 * 10 ^ 18) }
    requires ahead { ahead < 2 ^ 53 }
    ensures value { result ≡ rate *ℤ pos ahead }
    ensures from { pos 0 ≤ℤ result }
    ensures to { result ≤ℤ pos (10 ^ 37) }
{
    rate * ahead as i128
}

/// The line of a triple at a tick from its own on.
pub fn line_over(ticks_per: u64, triple: Triple, tick: u64) -> i128
    requires few { ticks_per ≤ 2 ^ 32 }
    requires triple { IsTriple tick triple }
    requires tick { tick < 2 ^ 53 }
    ensures value { result ≡ line_over_of ticks_per triple.anchor triple.rate tick }
    ensures from { neg_ℤ (pos (43 * 10 ^ 36)) ≤ℤ result }
    ensures to { result ≤ℤ pos (53 * 10 ^ 36) }
{
    let begun = times_count(triple.time.units, ticks_per);
    let gained = gain(triple.rate.units, tick - triple.ticks);
    begun + gained
}

/// By how much the line of a triple is later, at the next triple, than that triple's time.
pub fn fall_over(ticks_per: u64, before: Triple, after: Triple) -> i128
    requires few { ticks_per ≤ 2 ^ 32 }
    requires before { IsTriple after.anchor.ticks before }
    requires after { IsTriple (2 ^ 53 - 1) after }
    ensures { result ≡ fall_over_of ticks_per before after }
{
    let line = line_over(ticks_per, before, after.ticks);
    let time = times_count(after.time.units, ticks_per);
    line - time
}
