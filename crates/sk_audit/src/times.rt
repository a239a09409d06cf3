//! The time of an observation's tick by a kernel.

ghost use Rattle.std.specs.Prelude.{◌≡◌, ◌*◌, ◌^◌, pos, neg_ℤ, ◌*ℤ◌, ◌≤ℤ◌, IfOk};
ghost use Rattle.sk_checks.specs.Checks.{Judges};
ghost use Rattle.sk_clock.specs.Clock.{IsClock};
ghost use Rattle.sk_triples.specs.Kernel.{AreOf, range_checks};
ghost use Rattle.sk_audit.specs.Rows.{IsTimed};

use sk_clock::Clock;
use sk_decimal::{Fixed, floor_div};
use sk_triples::{RangeFault, Triples};

/// A tick's time, floored to 10^-12 s, and the place of the triple that covers it.
#[derive(Clone, Copy, Debug)]
pub struct Timed {
    pub time: Fixed<12>,
    pub place: usize,
}

/// The time of a tick by the triples of the clock.
pub fn time_of(triples: &Triples, clock: &Clock, tick: u64) -> Result<Timed, RangeFault>
    requires { AreOf clock.now triples.now }
    ensures timed { Judges (range_checks triples.now tick) (IsTimed triples.now tick) result }
    ensures from { IfOk result (λ t. neg_ℤ (pos (10 ^ 33)) ≤ℤ t.time.units) }
    ensures to { IfOk result (λ t. t.time.units ≤ℤ pos (10 ^ 33)) }
    ensures clock { IfOk result (λ _. IsClock clock.now) }
{
    let time = match triples.time_at(tick) {
        Ok(time) => time,
        Err(fault) => return Err(fault),
    };
    let Some(place) = triples.covering(tick) else {
        return Err(RangeFault::BeforeFirst);
    };
    let per_second = clock.ticks_per() as i128 * 1_000_000;
    Ok(Timed {
        time: Fixed {
            units: floor_div(time.num, per_second),
        },
        place,
    })
}
