//! The audit of a new kernel.

ghost use Rattle.std.specs.Prelude.{◌≡◌, ◌≢◌, ◌≤◌, ◌<◌, ◌+◌, ◌^◌, All, IfOk, IfSome, IfNone, IsTrue, None, Some, false, length, slice_get, ℕ};
ghost use Rattle.std.specs.Int.{IsInRange};
ghost use Rattle.sk_clock.specs.Clock.{total};
ghost use Rattle.sk_grammar.specs.Document.{IsValue};
ghost use Rattle.sk_line.specs.Line.{covering};
ghost use Rattle.sk_publishing.specs.Row.{AreRows, RowView};
ghost use Rattle.sk_publishing.specs.Terms.{sights};
ghost use Rattle.sk_publishing.specs.Input.{Begins};
ghost use Rattle.sk_triples.specs.Kernel.{AreOf};
ghost use Rattle.sk_audit.specs.Audit.{Decides, audit_of, input_of};
ghost use Rattle.sk_audit.specs.Claimed.{IsNewKernel, NoneClaims};
ghost use Rattle.sk_audit.specs.Given.{AreSettings};
ghost use Rattle.sk_audit.specs.Scene.{IsScene, terms};
ghost use Rattle.sk_audit.specs.Walked.{IsAccount};

use crate::claims::{are_claimed, triples_claimed, triples_of};
use crate::items::claimed;
use crate::marks::marks_of;
use crate::scene::Scene;
use crate::settings::AuditSettings;
use crate::standing::added_block;
use crate::start::start_of;
use crate::table::Table;
use crate::verdict::{AuditFault, Verdict};
use crate::walking::{Account, account_of, first_new_of};
use sk_checks::NoMemory;
use sk_clock::Clock;
use sk_grammar::{Doc, Value};
use sk_obs::Observation;
use sk_triples::Triples;
use std::alloc::Global;

// The first observation is before the first triple.
fn has_early(triples: &Triples, observations: &[Observation]) -> bool
    requires { AreRows triples.now.total observations.now }
    ensures yes { IsTrue result → (row : RowView) × (slice_get observations.now 0 ≡ Some row) × (covering triples.now.triples row.tick ≡ None) }
    ensures no { result ≡ false → All (λ row. covering triples.now.triples row.tick ≢ None) observations.now }
{
    match observations.first() {
        None => false,
        Some(first) => triples.covering(first.tick).is_none(),
    }
}

impl<'a> Scene<'a> {
    // The kernel with the triples of a publication; `None` exactly where these are too many, or others are claimed.
    fn new_kernel(
        &self,
        alloc: Global,
        triples: &Triples,
        account: &Account,
        values: &[Value],
    ) -> Result<Option<Triples>, NoMemory>
        requires scene { IsScene self.now }
        requires triples { AreOf self.now.clock triples.now }
        requires begins { Begins (input_of triples.now self.now.clock self.now.rows self.now.settings) self.now.start.old }
        requires account { IsAccount (terms self.now) (sights self.now.rows) account.now }
        requires values { All IsValue values.now }
        ensures some { IfOk result (λ kernel. IfSome kernel (λ k. IsNewKernel (input_of triples.now self.now.clock self.now.rows self.now.settings) self.now.start.old values.now account.now k
            × AreOf self.now.clock k)) }
        ensures none { IfOk result (λ kernel. IfNone kernel (NoneClaims (input_of triples.now self.now.clock self.now.rows self.now.settings) values.now)) }
    {
        let (_, later) = account.segments.as_slice().split_at(1);
        if later.len() > 50_000 - triples.list().len() {
            return Ok(None);
        }
        let added = triples_of(alloc, later)?;
        if !are_claimed(values, added.as_slice()) {
            return Ok(None);
        }
        let kernel = triples.extended(alloc, added.as_slice())?;
        Ok(Some(kernel))
    }
}

/// Whether the new document is that of a publication over the old one, and otherwise why not.
pub fn audit(
    alloc: Global,
    old: &Doc,
    new: &Doc,
    clock: &Clock,
    triples: &Triples,
    sc: u32,
    observations: &[Observation],
    settings: &AuditSettings,
) -> Result<Verdict, NoMemory>
    requires triples { AreOf clock.now triples.now }
    requires sc { IsInRange 1 999_999_999 sc }
    requires rows { AreRows (total clock.now) observations.now }
    requires few { length observations.now ≤ 100_000 }
    requires settings { AreSettings settings.now }
    ensures { IfOk result (Decides (audit_of old.now new.now clock.now triples.now sc observations.now settings.now)) }
{
    let Some(start) = start_of(triples, clock, settings) else {
        return Ok(Verdict::No(AuditFault::Settings));
    };
    if has_early(triples, observations) {
        return Ok(Verdict::No(AuditFault::Settings));
    }
    let Some(block) = added_block(old, new) else {
        return Ok(Verdict::No(AuditFault::Standing));
    };
    let items = block.items.to_list(alloc)?;
    let Some(values) = claimed(items.as_slice(), sc) else {
        return Ok(Verdict::No(AuditFault::Items));
    };
    let first_new = first_new_of(clock, &start, observations);
    let scene = Scene::new(clock, *settings, start, observations);
    let Some(claims) = triples_claimed(alloc, values)? else {
        return Ok(Verdict::No(AuditFault::Chain));
    };
    let Some(account) = account_of(alloc, &scene.claiming(claims.as_slice()), first_new)? else {
        return Ok(Verdict::No(AuditFault::Chain));
    };
    let Some(kernel) = scene.new_kernel(alloc, triples, &account, values)? else {
        return Ok(Verdict::No(AuditFault::Chain));
    };
    let marks = marks_of(alloc, &account, first_new, observations.len())?;
    let table = Table::new(&kernel, clock, observations, &marks);
    match table.first_difference(alloc, &block.text)? {
        None => Ok(Verdict::Yes),
        Some(line) => Ok(Verdict::No(AuditFault::Table(line))),
    }
}
