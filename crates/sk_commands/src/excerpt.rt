//! The part of a kernel that a range of ticks needs.
ghost use Rattle.std.specs.Prelude.{◌≡◌, ◌≤◌};
ghost use Rattle.sk_grammar.specs.Variables.{items_of, variables_of};
ghost use Rattle.sk_triples.specs.Coefficients.{AreTriplesOf};
ghost use Rattle.sk_words.specs.Asked.{options_in, NeedsNumber};
ghost use Rattle.sk_outcome.specs.Stage.{MayAnswer};
ghost use Rattle.sk_outcome.specs.Files.{HasFew};
ghost use Rattle.sk_outcome.specs.Outcome.{cut_out as cut_stage, excerpt_of};

use crate::meaning::meaning_of;
use crate::normal::normal;
use sk_excerpt::{ExcerptFault, Kernel, TickRange};
use sk_grammar::Doc;
use sk_status::Status;
use sk_words::Request;
use std::alloc::Global;

/// The document of the part that the range needs.
fn cut_out(alloc: Global, doc: Doc, kernel: &Kernel<'_>, range: TickRange) -> Result<Doc, Status>
    requires pool { kernel.now.pool.now ≡ variables_of (items_of doc) }
    requires sc { kernel.now.sc ≤ 999_999_999 }
    requires triples { AreTriplesOf kernel.now.pool.now kernel.now.clock.now kernel.now.sc kernel.now.triples.now }
    ensures { MayAnswer (λ d. d) (cut_stage kernel.now.sc range.from range.to (record { doc = doc; clock = kernel.now.clock.now; triples = kernel.now.triples.now })) result }
{
    match sk_excerpt::excerpt(alloc, doc, kernel, range) {
        Ok(part) => Ok(part),
        Err(ExcerptFault::NoMemory) => Err(Status::NoMemory),
        Err(fault) => Err(Status::ExcerptRefused(fault)),
    }
}

/// What `excerpt` writes.
pub fn excerpt(alloc: Global, request: &Request, doc: Doc) -> Result<Vec<u8>, Status>
    requires few { HasFew doc }
    requires number { NeedsNumber request.now.command }
    ensures { MayAnswer (λ v. v.items) (excerpt_of (options_in request.now) doc) result }
{
    let sc = request.spacecraft();
    let meaning = meaning_of(alloc, &doc, sc)?;
    let kernel = Kernel {
        pool: &meaning.pool,
        clock: &meaning.clock,
        triples: &meaning.triples,
        sc,
    };
    let range = TickRange {
        from: request.first_tick(),
        to: request.last_tick(),
    };
    let part = cut_out(alloc, doc, &kernel, range)?;
    normal(alloc, part)
}
