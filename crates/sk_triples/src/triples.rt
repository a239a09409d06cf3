ghost use Rattle.std.specs.Prelude.{◌≡◌, ◌≤◌, ◌++◌, ◌+◌, ◌*◌, ◌^◌, ℕ, length, pos, ◌*ℤ◌, ◌≤ℤ◌, option_map, MatchOption, IfOk};
ghost use Rattle.std.specs.Int.{IsInRange};
ghost use Rattle.sk_checks.specs.Checks.{Judges, JudgesUnless};
ghost use Rattle.sk_line.specs.Triple.{coefficients_name as coefficients_name_of};

use crate::line::{fall_over, line_over, times_count};
use crate::lookup::{begun, covering_triple};
use crate::reading::read_triples;
use crate::triple::{RangeFault, Triple, TriplesFault};
use crate::values::are_rows;
use sk_checks::NoMemory;
use sk_clock::Clock;
use sk_decimal::{Fixed, Line};
use sk_pool::Pool;
use sk_ratio::Ratio;
use std::alloc::Global;
use std::marker::Model;

/// The triples of a kernel, with the ticks per count and the total of its clock.
#[derive(Debug, Drop)]
pub struct Triples {
    list: Vec<Triple>,
    ticks_per: u64,
    total: u64,
}

impl Model for Triples {
    ghost use Rattle.sk_triples.specs.Kernel.{TriplesView, AreKept};

    ghost Value = { TriplesView };

    ghost view = { λ t. record { triples = t.list.items; per_count = t.ticks_per; total = t.total } };

    ghost invariant = { λ t. AreKept (record { triples = t.list.items; per_count = t.ticks_per; total = t.total }) };
}

/// A join at which time falls, from 1, and by how much.
#[derive(Clone, Copy, Debug)]
pub struct Fall {
    pub join: u32,
    pub amount: Ratio,
}

// The name of the variable of the spacecraft with the number -sc.
fn coefficients_name(sc: u32) -> Line
    requires { sc ≤ 999_999_999 }
    ensures { result ≡ coefficients_name_of sc }
{
    let mut name = Line::new();
    name.push(b"SCLK01_COEFFICIENTS_");
    name.push_number(sc as u128);
    name
}

impl Triples {
    ghost use Rattle.sk_triples.specs.Coefficients.{triples_checks, AreTriplesOf};
    ghost use Rattle.sk_line.specs.Line.{covering as covering_of, IsTimeAt, FallsOver, IsFirstFall};
    ghost use Rattle.sk_triples.specs.Kernel.{range_checks, IsPlacedTime, AreKept, AreTriples, HasFall};

    /// The triples of the spacecraft with the number -sc, on its clock.
    pub fn of(alloc: Global, pool: &Pool, clock: &Clock, sc: u32) -> Result<Triples, TriplesFault>
        requires { IsInRange 1 999_999_999 sc }
        ensures { JudgesUnless TriplesFault.NoMemory (triples_checks pool.now clock.now sc) (AreTriplesOf pool.now clock.now sc) result }
    {
        let name = coefficients_name(sc);
        let Some(values) = pool.values(name.as_slice()) else {
            return Err(TriplesFault::Missing);
        };
        if !are_rows(values) {
            return Err(TriplesFault::NotTriples);
        }
        if values.len() / 3 > 50_000 {
            return Err(TriplesFault::TooMany);
        }
        let ticks_per = clock.ticks_per();
        let total = clock.total();
        match read_triples(alloc, values, total) {
            Ok(list) => Ok(Triples {
                list,
                ticks_per,
                total,
            }),
            Err(fault) => Err(fault),
        }
    }

    /// The triples, in order.
    pub fn list(&self) -> &[Triple]
        ensures value { result.now ≡ self.now.triples }
        ensures kept { AreKept self.now }
    {
        self.list.as_slice()
    }

    /// The place, from 0, of the last triple whose ticks are not greater; `None` exactly where the tick is below
    /// the first one's.
    pub fn covering(&self, tick: u64) -> Option<usize>
        ensures { option_map (λ place. place + 1) result ≡ option_map (λ found. found.0) (covering_of self.now.triples tick) }
    {
        begun(self.list.as_slice(), tick).checked_sub(1)
    }

    /// The place, from 0, of the triple that covers a tick, and the time of the tick, over the ticks per count.
    pub fn placed_time_at(&self, tick: u64) -> Result<(usize, Ratio), RangeFault>
        ensures { Judges (range_checks self.now tick) (λ found. IsPlacedTime self.now tick found.0 found.1.num × (found.1.den ≡ pos self.now.per_count)) result }
    {
        let Some(found) = covering_triple(self.list.as_slice(), tick) else {
            return Err(RangeFault::BeforeFirst);
        };
        if tick > self.total {
            return Err(RangeFault::PastPartitions);
        }
        let time = Ratio {
            num: line_over(self.ticks_per, found.1, tick),
            den: self.ticks_per as i128,
        };
        Ok((found.0, time))
    }

    /// The time of a tick, over the ticks per count.
    pub fn time_at(&self, tick: u64) -> Result<Ratio, RangeFault>
        ensures { Judges (range_checks self.now tick) (λ time. IsTimeAt self.now.per_count self.now.triples tick time.num × (time.den ≡ pos self.now.per_count)) result }
    {
        match self.placed_time_at(tick) {
            Ok(found) => Ok(found.1),
            Err(fault) => Err(fault),
        }
    }

    /// These triples and then more.
    pub fn extended(&self, alloc: Global, more: &[Triple]) -> Result<Triples, NoMemory>
        requires { AreTriples self.now.total (self.now.triples ++ more.now) }
        ensures { IfOk result (λ t. t ≡ record { triples = self.now.triples ++ more.now; per_count = self.now.per_count; total = self.now.total }) }
    {
        let mut list = Vec::from_slice(alloc, self.list.as_slice())?;
        list.extend_from_slice(more)?;
        Ok(Triples {
            list,
            ticks_per: self.ticks_per,
            total: self.total,
        })
    }

    /// The first join that falls by more than the slip, from 0 to 60 s, and by how much.
    pub fn first_fall_over(&self, slip: Fixed<9>) -> Option<Fall>
        requires from { pos 0 ≤ℤ slip.units }
        requires to { slip.units ≤ℤ pos (60 * 10 ^ 9) }
        ensures { MatchOption result ((i : ℕ) → ¬ FallsOver self.now.per_count self.now.triples (slip.units *ℤ pos (10 ^ 9)) i)
            (λ fall. IsFirstFall self.now.per_count self.now.triples (slip.units *ℤ pos (10 ^ 9)) fall.join
            × HasFall self.now.per_count self.now.triples fall.join fall.amount.num × (fall.amount.den ≡ pos self.now.per_count)) }
    {
        let most = times_count(slip.units * 1_000_000_000, self.ticks_per);
        for join in 1..self.list.len() {
            let amount = fall_over(self.ticks_per, self.list[join - 1], self.list[join]);
            if amount > most {
                return Some(Fall {
                    join: join as u32,
                    amount: Ratio {
                        num: amount,
                        den: self.ticks_per as i128,
                    },
                });
            }
        }
        None
    }
}
