//! Where new triples start from.

ghost use Rattle.std.specs.Prelude.{◌≡◌, ◌⊎◌, ◌≢◌, ◌↔◌, ◌<◌, ◌≤◌, IfOk, IfErr, List, IsTrue};
ghost use Rattle.sk_clock.specs.Clock.{total, partition_at, IsClock};
ghost use Rattle.sk_publishing.specs.Row.{RowView};
ghost use Rattle.sk_triples.specs.Kernel.{AreOf};
ghost use Rattle.sk_fit.specs.Given.{AreSettings, band_view};
ghost use Rattle.sk_fit.specs.Fitted.{IsStart};
ghost use Rattle.sk_fit.specs.Causes.{Refuses, input};

use crate::fault::FitFault;
use crate::partitions::are_together;
use crate::settings::{Band, Settings};
use sk_clock::Clock;
use sk_triples::{Triple, Triples};

/// What new triples go on from.
#[derive(Clone, Copy)]
pub struct Start {
    /// The old last triple.
    pub old: Triple,
    /// The allowed rates.
    pub band: Band,
    /// The tick after which observations are new.
    pub seam: u64,
}

/// The hold is before the old last triple, above the total, or in another partition.
fn is_bad_hold(clock: &Clock, hold: u64, last: u64) -> bool
    requires { last ≤ total clock.now }
    ensures bad { IsTrue result ↔ ((hold < last) ⊎ (total clock.now < hold) ⊎ (partition_at clock.now hold ≢ partition_at clock.now last)) }
    ensures clock { IsClock clock.now }
{
    clock.total() < hold || hold < last || !are_together(clock, hold, last)
}

/// The checks before the first new triple, and the start that they leave.
pub fn start_of(triples: &Triples, clock: &Clock, settings: &Settings) -> Result<Start, FitFault>
    requires triples { AreOf clock.now triples.now }
    requires settings { AreSettings settings.now }
    ensures start { IfOk result (λ s. IsStart triples.now clock.now settings.now s.old (band_view s.band) s.seam) }
    ensures fault { IfErr result (λ f. (rows : List RowView) → Refuses (input triples.now clock.now rows settings.now) rows f) }
{
    let list = triples.list();
    let old = list[list.len() - 1];
    let hold = settings.hold.unwrap_or(old.ticks);
    if is_bad_hold(clock, hold, old.ticks) {
        return Err(FitFault::BadHold);
    }
    if let Some(fall) = triples.first_fall_over(settings.slip) {
        return Err(FitFault::OldFalls(fall));
    }
    let Some(band) = settings.band_of(old.rate) else {
        return Err(FitFault::BandEmpty);
    };
    let seam = hold.max(old.ticks + 1);
    Ok(Start { old, band, seam })
}
