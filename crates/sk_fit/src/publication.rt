//! The publication of new observations.

ghost use Rattle.std.specs.Prelude.{All, ◌≡◌, ◌⊎◌, ◌≢◌, ◌↔◌, ◌<◌, ◌≤◌, ◌^◌, ◌+◌, ◌-◌, ◌∷◌, [], IfOk, IfErr, IsOk, Err, ℕ, List, IsTrue, take, length, Some, slice_get, nat_lt, ◌||◌, true, false, max, unwrap_or, ◌++◌};
ghost use Rattle.std.specs.List.{AllByRecursion};
ghost use Rattle.sk_clock.specs.Clock.{total, partition_at, IsClock};
ghost use Rattle.sk_publishing.specs.Row.{AreRows, RowView};
ghost use Rattle.sk_publishing.specs.Terms.{sights};
ghost use Rattle.sk_publishing.specs.Kept.{is_new as is_new_in};
ghost use Rattle.sk_triples.specs.Kernel.{AreOf, AreTriples};
ghost use Rattle.sk_fit.specs.Given.{AreSettings, ArePlaced, new_triples_of};
ghost use Rattle.sk_fit.specs.State.{fresh};
ghost use Rattle.sk_fit.specs.Fitted.{IsFitted, IsChainOf, StopsAt, is_new_tick, AreOldTicks, IsNewTick};
ghost use Rattle.sk_fit.specs.Context.{terms};
ghost use Rattle.sk_fit.specs.Over.{IsChainOver};
ghost use Rattle.sk_fit.specs.Causes.{Gives, Refuses, input};
ghost use Rattle.sk_fit.specs.declared.fault.FitFault.{FitFault as Fault};
ghost use Rattle.sk_fit.specs.declared.chain.Chain.{Chain as Published};

use crate::chain::Chain;
use crate::context::Fit;
use crate::fault::FitFault;
use crate::fitting::Fitting;
use crate::partitions::partition_of;
use crate::settings::Settings;
use crate::start::{Start, start_of};
use sk_clock::Clock;
use sk_obs::Observation;
use sk_triples::Triples;
use std::alloc::Global;

/// The tick is in a later partition than the old last triple, or after the seam.
fn is_new(clock: &Clock, last: u64, seam: u64, tick: u64) -> bool
    requires last { last ≤ total clock.now }
    requires tick { tick ≤ total clock.now }
    ensures { result ≡ is_new_tick clock.now last seam tick }
{
    partition_of(clock, last) < partition_of(clock, tick) || seam < tick
}

/// The place of the first new observation, or past the last one.
fn first_new_of(clock: &Clock, start: &Start, observations: &[Observation]) -> usize
    requires last { start.now.old.anchor.ticks ≤ total clock.now }
    requires ticks { All (λ row. row.tick ≤ total clock.now) observations.now }
    ensures within { result ≤ length observations.now }
    ensures olds { AreOldTicks clock.now start.now.old.anchor.ticks start.now.seam observations.now result }
    ensures new { IsNewTick clock.now start.now.old.anchor.ticks start.now.seam observations.now result }
{
    for (place, obs) in observations.iter().enumerate() {
        if is_new(clock, start.old.ticks, start.seam, obs.tick) {
            return place;
        }
    }
    observations.len()
}

/// What is built over all observations; those before `first_new` are old.
fn fitted(alloc: Global, fit: &Fit, first_new: usize) -> Result<Fitting, FitFault>
    requires within { first_new ≤ length fit.now.rows }
    requires new { AllByRecursion (λ x. first_new ≤ x.place → is_new_in (terms fit.now) x ≡ true) (sights fit.now.rows) }
    requires begun { IsFitted (terms fit.now) fit.now.rows first_new (fresh fit.now.start.old fit.now.start.seam first_new) }
    ensures ok { IfOk result (IsFitted (terms fit.now) fit.now.rows (length fit.now.rows)) }
    ensures fault { IfErr result (StopsAt (terms fit.now) fit.now.rows) }
{
    let mut fitting = Fitting::new(alloc, fit.start(), first_new);
    for place in first_new..fit.count() {
        fitting.take(fit, place)?;
    }
    Ok(fitting)
}

/// The chain that is built over all observations.
fn chain_of(alloc: Global, fit: &Fit, first_new: usize) -> Result<Chain, FitFault>
    requires within { first_new ≤ length fit.now.rows }
    requires new { AllByRecursion (λ x. first_new ≤ x.place → is_new_in (terms fit.now) x ≡ true) (sights fit.now.rows) }
    requires begun { IsFitted (terms fit.now) fit.now.rows first_new (fresh fit.now.start.old fit.now.start.seam first_new) }
    ensures ok { IfOk result (IsChainOf fit.now first_new) }
    ensures fault { IfErr result (StopsAt (terms fit.now) fit.now.rows) }
{
    let fitting = fitted(alloc, fit, first_new)?;
    let Ok(chain) = fitting.into_chain(first_new) else {
        return Err(FitFault::NoMemory);
    };
    Ok(chain)
}

/// The old triples, and one for each segment but the first, are more than a kernel may have.
fn are_too_many(old: usize, segments: usize) -> bool
    requires old { old ≤ 50000 }
    requires some { 0 < segments }
    ensures { IsTrue result ↔ (50000 < old + (segments - 1)) }
{
    segments - 1 > 50_000 - old
}

/// The publication of the new observations, or why there is none.
fn publication(
    alloc: Global,
    triples: &Triples,
    clock: &Clock,
    observations: &[Observation],
    settings: &Settings,
) -> Result<Chain, FitFault>
    requires triples { AreOf clock.now triples.now }
    requires observations { AreRows (total clock.now) observations.now }
    requires settings { AreSettings settings.now }
    ensures ok { IfOk result (Gives (input triples.now clock.now observations.now settings.now)) }
    ensures placed { IfOk result (λ c. ArePlaced c.first_new (sights observations.now) c.dropped c.segments) }
    ensures triples { IfOk result (λ c. AreTriples triples.now.total (triples.now.triples ++ new_triples_of c)) }
    ensures fault { IfErr result (λ f. (f ≡ FitFault.NoMemory) ⊎ Refuses (input triples.now clock.now observations.now settings.now) observations.now f) }
{
    let start = start_of(triples, clock, settings)?;
    let first_new = first_new_of(clock, &start, observations);
    let fit = Fit::new(clock, *settings, start, observations);
    let chain = chain_of(alloc, &fit, first_new)?;
    if are_too_many(triples.list().len(), chain.segments.as_slice().len()) {
        return Err(FitFault::TooMany);
    }
    Ok(chain)
}

/// The publication of the new observations.
pub fn fit(
    alloc: Global,
    triples: &Triples,
    clock: &Clock,
    observations: &[Observation],
    settings: &Settings,
) -> Result<Chain, FitFault>
    requires triples { AreOf clock.now triples.now }
    requires observations { AreRows (total clock.now) observations.now }
    requires settings { AreSettings settings.now }
    // Only a publication is answered.
    ensures ok { IfOk result (Gives (input triples.now clock.now observations.now settings.now)) }
    // Its places are those of what is covered, and old and new triples are those of a kernel.
    ensures placed { IfOk result (λ c. ArePlaced c.first_new (sights observations.now) c.dropped c.segments) }
    ensures over { IfOk result (IsChainOver (length observations.now)) }
    ensures triples { IfOk result (λ c. AreTriples triples.now.total (triples.now.triples ++ new_triples_of c)) }
    // What is refused has this cause.
    ensures fault { IfErr result (λ f. (f ≡ FitFault.NoMemory) ⊎ Refuses (input triples.now clock.now observations.now settings.now) observations.now f) }
    // Where there is a publication it is answered, unless memory runs out.
    ensures published { (chain : Published) → Gives (input triples.now clock.now observations.now settings.now) chain
        → IsOk result ⊎ (result ≡ Err FitFault.NoMemory) }
    // Where there is a cause to refuse it is answered, unless memory runs out.
    ensures refused { (fault : Fault)
        → Refuses (input triples.now clock.now observations.now settings.now) observations.now fault
        → (result ≡ Err fault) ⊎ (result ≡ Err FitFault.NoMemory) }
{
    match publication(alloc, triples, clock, observations, settings) {
        Ok(chain) => Ok(chain),
        Err(fault) => Err(fault),
    }
}
