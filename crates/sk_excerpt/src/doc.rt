//! The document of an excerpt.

ghost use Rattle.std.specs.Prelude.{◌≡◌, ◌≤◌, [], ◌∷◌, All, IfOk};
ghost use Rattle.sk_checks.specs.Checks.{JudgesUnless};
ghost use Rattle.sk_grammar.specs.Document.{IsItem, IsTextLine};
ghost use Rattle.sk_grammar.specs.Variables.{items_of, variables_of};
ghost use Rattle.sk_clock.specs.Clock.{total as total_of};
ghost use Rattle.sk_triples.specs.Coefficients.{AreTriplesOf};
ghost use Rattle.sk_excerpt.specs.Excerpt.{excerpt_checks, IsExcerpt};

use crate::cut::{TickRange, cut_to};
use crate::fault::ExcerptFault;
use crate::items::items_left;
use sk_checks::NoMemory;
use sk_clock::Clock;
use sk_grammar::{Block, Doc, Items, Lines, List};
use sk_pool::Pool;
use sk_triples::Triples;
use std::alloc::Global;

/// What a document means: its variables, and the clock and the triples of the spacecraft with the number -sc.
#[derive(Clone, Copy, Debug)]
pub struct Kernel<'a> {
    pub pool: &'a Pool,
    pub clock: &'a Clock,
    pub triples: &'a Triples,
    pub sc: u32,
}

// The document with this head, and one block without text lines.
fn one_block(alloc: Global, head: Lines, items: Items) -> Result<Doc, NoMemory>
    requires head { All IsTextLine head }
    requires items { All IsItem items }
    ensures { IfOk result (λ doc. doc ≡ record { head = head; blocks = record { items = items; text = [] } ∷ [] }) }
{
    let text = Lines::new(alloc);
    let mut blocks = Vec::new(alloc);
    blocks.push(Block { items, text })?;
    Ok(Doc {
        head,
        blocks: List::from_vec(blocks),
    })
}

/// The part of a kernel that a range of ticks needs: the same head, and one block, which sets each variable, in order of
/// first appearance, to the values that it has; the coefficients keep the triples from the one that covers the first
/// tick of the range to the one that covers the last. Text lines of blocks are left out. Refused are a range that ends
/// before it begins or past the greatest tick of the clock, and then one that begins before the first triple
/// (NAIF SCLK Required Reading).
pub fn excerpt(
    alloc: Global,
    doc: Doc,
    kernel: &Kernel<'_>,
    range: TickRange,
) -> Result<Doc, ExcerptFault>
    requires pool { kernel.now.pool.now ≡ variables_of (items_of doc) }
    requires sc { kernel.now.sc ≤ 999_999_999 }
    requires triples { AreTriplesOf kernel.now.pool.now kernel.now.clock.now kernel.now.sc kernel.now.triples.now }
    ensures { JudgesUnless ExcerptFault.NoMemory (excerpt_checks (total_of kernel.now.clock.now) kernel.now.triples.now.triples range.from range.to)
        (IsExcerpt doc kernel.now.sc kernel.now.triples.now.triples range.from range.to) result }
{
    let cut = cut_to(kernel.triples, kernel.clock.total(), range)?;
    let items = items_left(alloc, kernel.pool, kernel.sc, cut)?;
    let Doc { head, blocks: _ } = doc;
    Ok(one_block(alloc, head, items)?)
}
