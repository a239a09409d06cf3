//! The claims are evaluated over all observations.

ghost use Rattle.std.specs.Prelude.{All, ◌≡◌, ◌<◌, ◌≤◌, ◌++◌, ◌∷◌, [], IfOk, IfSome, IfNone, IsTrue, ℕ, length, map, drop, true, false};
ghost use Rattle.std.specs.List.{AllByRecursion};
ghost use Rattle.sk_clock.specs.Clock.{total};
ghost use Rattle.sk_publishing.specs.Terms.{sights};
ghost use Rattle.sk_publishing.specs.Kept.{is_new as is_new_in};
ghost use Rattle.sk_audit.specs.Walking.{closed_as, fresh};
ghost use Rattle.sk_audit.specs.Walked.{IsAccount, is_new_tick, AreOldTicks, IsNewTick};
ghost use Rattle.sk_audit.specs.Claims.{triple_of};
ghost use Rattle.sk_audit.specs.Scene.{terms};
ghost use Rattle.sk_audit.specs.Evaluated.{IsEvaluated, IsRefuted, rate_so_far};
ghost use Rattle.sk_audit.specs.declared.told.End.{End as Ends};

use crate::ending::are_same;
use crate::partitions::partition_of;
use crate::scene::Scene;
use crate::start::Start;
use crate::told::{End, Told};
use crate::walk::Walk;
use sk_checks::NoMemory;
use sk_clock::Clock;
use sk_obs::Observation;
use std::alloc::Global;

/// What is told of the segments of a publication, and the places that it drops.
#[derive(Drop)]
pub struct Account {
    pub segments: Vec<Told>,
    pub dropped: Vec<usize>,
}

/// The tick is in a later partition than the old last triple, or after the seam.
fn is_new(clock: &Clock, last: u64, seam: u64, tick: u64) -> bool
    requires last { last ≤ total clock.now }
    requires tick { tick ≤ total clock.now }
    ensures { result ≡ is_new_tick clock.now last seam tick }
{
    partition_of(clock, last) < partition_of(clock, tick) || seam < tick
}

/// The place of the first new observation, or past the last one.
pub fn first_new_of(clock: &Clock, start: &Start, observations: &[Observation]) -> usize
    requires last { start.now.old.anchor.ticks ≤ total clock.now }
    requires ticks { All (λ row. row.tick ≤ total clock.now) observations.now }
    ensures within { result ≤ length observations.now }
    ensures olds { AreOldTicks clock.now start.now.old.anchor.ticks start.now.seam observations.now result }
    ensures new { IsNewTick clock.now start.now.old.anchor.ticks start.now.seam observations.now result }
{
    for (place, obs) in observations.iter().enumerate() {
        if is_new(clock, start.old.ticks, start.seam, obs.tick) {
            return place;
        }
    }
    observations.len()
}

/// What is evaluated over all observations; those before `first_new` are old. `None` where the claims are those of no
/// publication.
fn walked(alloc: Global, scene: &Scene, first_new: usize) -> Result<Option<Walk>, NoMemory>
    requires within { first_new ≤ length scene.now.rows }
    requires new { AllByRecursion (λ x. first_new ≤ x.place → is_new_in (terms scene.now) x ≡ true) (sights scene.now.rows) }
    requires begun { IsEvaluated scene.now first_new (fresh scene.now.start.old scene.now.start.seam) }
    ensures some { IfOk result (λ walk. IfSome walk (IsEvaluated scene.now (length scene.now.rows))) }
    ensures none { IfOk result (λ walk. IfNone walk (IsRefuted scene.now)) }
{
    let mut walk = Walk::new(alloc, scene.start());
    for place in first_new..scene.count() {
        let went = walk.take(scene, place)?;
        if !went {
            return Ok(None);
        }
    }
    Ok(Some(walk))
}

impl Walk {
    /// The last claimed rate is the middle one of all that its segment covers, and no further triple is claimed.
    fn is_whole(&self, scene: &Scene) -> bool
        requires evaluated { IsEvaluated scene.now (length scene.now.rows) self.now }
        ensures yes { IsTrue result → (rate_so_far (terms scene.now) self.now ≡ self.now.rate.units) × (length scene.now.claims ≡ length self.now.closed) }
        ensures no { result ≡ false → IsRefuted scene.now }
    {
        if !are_same(self.rate_so_far(scene), self.rate) {
            return false;
        }
        scene.claim_count() == self.closed.len()
    }

    /// What is told of all segments, the open one among them.
    fn into_account(self) -> Result<Account, NoMemory>
        ensures segments { IfOk result (λ a. a.segments.items ≡ self.closed ++ closed_as self Ends.Last ∷ []) }
        ensures dropped { IfOk result (λ a. a.dropped.items ≡ self.dropped) }
    {
        let mut segments = self.closed;
        segments.push(Told {
            anchor: self.anchor,
            rate: self.rate,
            place: self.last,
            ended: End::Last,
        })?;
        Ok(Account {
            segments,
            dropped: self.dropped,
        })
    }
}

/// What is told of the publication whose triples are claimed; `None` exactly where no publication has them.
pub fn account_of(
    alloc: Global,
    scene: &Scene,
    first_new: usize,
) -> Result<Option<Account>, NoMemory>
    requires within { first_new ≤ length scene.now.rows }
    requires new { AllByRecursion (λ x. first_new ≤ x.place → is_new_in (terms scene.now) x ≡ true) (sights scene.now.rows) }
    requires begun { IsEvaluated scene.now first_new (fresh scene.now.start.old scene.now.start.seam) }
    ensures some { IfOk result (λ account. IfSome account (IsAccount (terms scene.now) (sights scene.now.rows))) }
    ensures claimed { IfOk result (λ account. IfSome account (λ a. map triple_of (drop 1 a.segments.items) ≡ scene.now.claims)) }
    ensures none { IfOk result (λ account. IfNone account (IsRefuted scene.now)) }
{
    let walked = walked(alloc, scene, first_new)?;
    let Some(walk) = walked else {
        return Ok(None);
    };
    if !walk.is_whole(scene) {
        return Ok(None);
    }
    let account = walk.into_account()?;
    Ok(Some(account))
}
