ghost use Rattle.std.specs.Prelude.{◌*◌, ◌^◌, pos, neg_ℤ, ◌*ℤ◌, ◌≤ℤ◌};
ghost use Rattle.sk_checks.specs.Checks.{Judges};
ghost use Rattle.sk_triples.specs.Kernel.{AreOf, AreKept};
ghost use Rattle.sk_inverse.specs.Inverse.{IsTickOf, inverse_checks};
ghost use Rattle.sk_inverse.specs.Search.{kernel_of};

use crate::fault::InverseFault;
use crate::lookup::begun;
use crate::reach::{elapsed, is_past, reached};
use sk_clock::Clock;
use sk_decimal::Fixed;
use sk_triples::{Triple, Triples};

// The greatest tick whose time is not after this one, in 10^-18 s.
fn tick_by(triples: &[Triple], ticks_per: u64, total: u64, time: i128) -> Result<u64, InverseFault>
    requires kept { AreKept (kernel_of triples.now ticks_per total) }
    requires time { time ≤ℤ pos (9 * 10 ^ 27) }
    ensures { Judges (inverse_checks (kernel_of triples.now ticks_per total) time) (IsTickOf (kernel_of triples.now ticks_per total) time) result }
{
    let number = begun(triples, time);
    if number == 0 {
        return Err(InverseFault::BeforeFirst);
    }
    let triple = triples[number - 1];
    let elapsed = elapsed(ticks_per, triple, time);
    if number < triples.len() {
        let next = triples[number];
        return Ok(reached(triple, elapsed, next.ticks - 1));
    }
    if is_past(triple, elapsed, total) {
        return Err(InverseFault::PastEnd);
    }
    Ok(reached(triple, elapsed, total))
}

/// The greatest tick whose time, by the triples of the clock, is not after this one.
pub fn tick_at(triples: &Triples, clock: &Clock, time: Fixed<12>) -> Result<u64, InverseFault>
    requires triples { AreOf clock.now triples.now }
    requires from { neg_ℤ (pos (9 * 10 ^ 21)) ≤ℤ time.units }
    requires to { time.units ≤ℤ pos (9 * 10 ^ 21) }
    ensures { Judges (inverse_checks triples.now (time.units *ℤ pos (10 ^ 6))) (IsTickOf triples.now (time.units *ℤ pos (10 ^ 6))) result }
{
    tick_by(
        triples.list(),
        clock.ticks_per(),
        clock.total(),
        time.units * 1_000_000,
    )
}
