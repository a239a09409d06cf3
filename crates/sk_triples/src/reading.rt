//! Triples as they are read, one after the other.

ghost use Rattle.std.specs.Prelude.{◌≡◌, true, ℕ, ◌+◌, ◌^◌, ◌<◌, ◌≤◌, length, Option, Some, None, IsTrue, ◌↔◌, ◌∷◌, []};
ghost use Rattle.sk_checks.specs.Checks.{Judges, JudgesUnless, each_after};
ghost use Rattle.sk_triples.specs.Coefficients.{Row, row_checks, rows_of};
ghost use Rattle.sk_triples.specs.Reading.{ArePair, AreRead, Follows, IsRead};
ghost use Rattle.sk_triples.specs.Values.{is_time, row_of};

use crate::numbers::{rate_of, tick_of, time_of};
use crate::triple::{Triple, TriplesFault};
use crate::values::first_row;
use sk_decimal::Decimal;
use sk_grammar::Value;
use std::alloc::Global;

// The triple of these numbers, whatever stands before it.
fn triple_of(
    total: u64,
    number: u32,
    row: (Decimal, &Value, Decimal),
) -> Result<Triple, TriplesFault>
    requires total { total < 2 ^ 53 }
    requires time { is_time row.1.now ≡ true }
    ensures { Judges (row_checks total None number (row_of row.entry)) (IsRead total (row_of row.entry)) result }
{
    let (ticks, time, rate) = row;
    let Some(ticks) = tick_of(ticks, total) else {
        return Err(TriplesFault::TickRange(number));
    };
    let time = match time_of(number, time) {
        Ok(time) => time,
        Err(fault) => return Err(fault),
    };
    let Some(rate) = rate_of(rate) else {
        return Err(TriplesFault::RateRange(number));
    };
    Ok(Triple { ticks, time, rate })
}

fn follows(before: Option<Triple>, triple: Triple) -> bool
    ensures { IsTrue result ↔ Follows before triple }
{
    match before {
        None => true,
        Some(before) => before.ticks < triple.ticks && before.time.units < triple.time.units,
    }
}

// The triple of these numbers behind the one before it.
fn next_triple(
    total: u64,
    before: Option<Triple>,
    number: u32,
    row: (Decimal, &Value, Decimal),
) -> Result<Triple, TriplesFault>
    requires total { total < 2 ^ 53 }
    requires time { is_time row.1.now ≡ true }
    ensures { (previous : Option Row) → ArePair previous before
        → Judges (row_checks total previous number (row_of row.entry)) (λ triple. IsRead total (row_of row.entry) triple × Follows before triple) result }
{
    let (ticks, time, rate) = row;
    match triple_of(total, number, (ticks, time, rate)) {
        Err(fault) => Err(fault),
        Ok(triple) => {
            if follows(before, triple) {
                Ok(triple)
            } else {
                Err(TriplesFault::OutOfOrder(number))
            }
        }
    }
}

/// The triples of the values' rows; the first bad row is named.
pub fn read_triples(
    alloc: Global,
    values: &[Value],
    total: u64,
) -> Result<Vec<Triple>, TriplesFault>
    requires total { total < 2 ^ 53 }
    requires few { length (rows_of values.now) ≤ 50000 }
    ensures { JudgesUnless TriplesFault.NoMemory (each_after None 1 (row_checks total) (rows_of values.now)) (λ triples. AreRead total (rows_of values.now) triples.items) result }
{
    let mut triples = Vec::new(alloc);
    let mut before = None;
    let mut number = 0;
    let mut rest = values;
    'rows: while let Some(row) = first_row(rest) {
        number += 1;
        let triple = match next_triple(total, before, number, row) {
            Ok(triple) => triple,
            Err(fault) => return Err(fault),
        };
        let Ok(()) = triples.push(triple) else {
            return Err(TriplesFault::NoMemory);
        };
        before = Some(triple);
        let (_, later) = rest.split_at(3);
        rest = later;
    }
    Ok(triples)
}
