//! What new triples go on from.

ghost use Rattle.std.specs.Prelude.{◌≡◌, ◌⊎◌, ◌≢◌, ◌↔◌, ◌<◌, ◌≤◌, IfSome, IfNone, List, IsTrue};
ghost use Rattle.sk_clock.specs.Clock.{total, partition_at, IsClock};
ghost use Rattle.sk_publishing.specs.Row.{RowView};
ghost use Rattle.sk_triples.specs.Kernel.{AreKept, AreOf};
ghost use Rattle.sk_audit.specs.Given.{AreSettings, band_view};
ghost use Rattle.sk_audit.specs.Audit.{input_of};
ghost use Rattle.sk_audit.specs.Walked.{HasBadTerms, IsStart};

use crate::line::Band;
use crate::partitions::are_together;
use crate::settings::AuditSettings;
use sk_clock::Clock;
use sk_triples::{Triple, Triples};

/// What new triples go on from.
#[derive(Clone, Copy)]
pub struct Start {
    /// The old last triple.
    pub old: Triple,
    /// The allowed rates.
    pub band: Band,
    /// The tick after which observations are new.
    pub seam: u64,
}

/// The hold is before the old last triple, above the total, or in another partition.
fn is_bad_hold(clock: &Clock, hold: u64, last: u64) -> bool
    requires { last ≤ total clock.now }
    ensures bad { IsTrue result ↔ ((hold < last) ⊎ (total clock.now < hold) ⊎ (partition_at clock.now hold ≢ partition_at clock.now last)) }
    ensures clock { IsClock clock.now }
{
    clock.total() < hold || hold < last || !are_together(clock, hold, last)
}

/// What new triples go on from; `None` exactly where the hold is bad, an old join falls by more than the slip, or no
/// rate is allowed.
pub fn start_of(triples: &Triples, clock: &Clock, settings: &AuditSettings) -> Option<Start>
    requires triples { AreOf clock.now triples.now }
    requires settings { AreSettings settings.now }
    ensures some { IfSome result (λ s. IsStart triples.now clock.now settings.now s.old (band_view s.band) s.seam) }
    ensures kept { AreKept triples.now }
    ensures none { IfNone result ((rows : List RowView) → HasBadTerms (input_of triples.now clock.now rows settings.now)) }
{
    let list = triples.list();
    let old = list[list.len() - 1];
    let hold = settings.hold.unwrap_or(old.ticks);
    if is_bad_hold(clock, hold, old.ticks) {
        return None;
    }
    if let Some(_fall) = triples.first_fall_over(settings.slip) {
        return None;
    }
    let Some(band) = settings.band_of(old.rate) else {
        return None;
    };
    let seam = hold.max(old.ticks + 1);
    Some(Start { old, band, seam })
}
