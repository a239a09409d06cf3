//! The runs of a shortest cover.

ghost use Rattle.std.specs.Prelude.{◌≡◌, ◌*◌, ◌^◌, ◌≤◌, All, IfOk, length, pos, ◌≤ℤ◌};
ghost use Rattle.sk_clock.specs.Clock.{total, lengths};
ghost use Rattle.sk_publishing.specs.Row.{AreRows};
ghost use Rattle.sk_publishing.specs.Terms.{sights};
ghost use Rattle.sk_least.specs.Answer.{AreLeast, IsWithin};

use crate::search::Search;
use crate::stretch::Stretch;
use sk_checks::NoMemory;
use sk_clock::Clock;
use sk_decimal::Fixed;
use sk_grammar::List;
use sk_obs::Observation;
use std::alloc::Global;

/// The tolerance in 10^-12 s.
fn units(tolerance: Fixed<12>) -> u64
    requires from { pos 1000 ≤ℤ tolerance.units }
    requires to { tolerance.units ≤ℤ pos (60 * 10 ^ 12) }
    ensures value { pos result ≡ tolerance.units }
    ensures small { result ≤ 60 * 10 ^ 12 }
{
    tolerance.units as u64
}

/// The least lines that any fit of the observations needs, whatever its anchors and rates: the longest runs of
/// observations that one line meets in one partition, each up to the tolerance, from 1 ns to 60 s, both ends counted.
/// No other parting into such runs has fewer. Ticks rise strictly, up to the clock's total.
///
/// # Errors
/// `NoMemory` where memory runs out.
pub fn least(
    alloc: Global,
    clock: &Clock,
    observations: &[Observation],
    tolerance: Fixed<12>,
) -> Result<List<Stretch>, NoMemory>
    requires observations { AreRows (total clock.now) observations.now }
    requires from { pos 1000 ≤ℤ tolerance.units }
    requires to { tolerance.units ≤ℤ pos (60 * 10 ^ 12) }
    // The runs of a shortest cover, and why each of them ends.
    ensures cover { IfOk result (AreLeast (lengths clock.now) tolerance.units (sights observations.now)) }
    ensures within { IfOk result (All (IsWithin (length observations.now))) }
{
    let search = Search::new(alloc, clock, observations, units(tolerance))?;
    let stretches = search.runs(alloc)?;
    Ok(stretches)
}
