//! Which triples a range of ticks needs.

ghost use Rattle.sk_checks.specs.Checks.{Judges};
ghost use Rattle.sk_excerpt.specs.Excerpt.{excerpt_checks};
ghost use Rattle.sk_excerpt.specs.Cuts.{IsCut};

use crate::fault::ExcerptFault;
use sk_triples::Triples;

/// A range of encoded ticks, both ends counted.
#[derive(Clone, Copy, Debug)]
pub struct TickRange {
    pub from: u64,
    pub to: u64,
}

/// The places, from 0, of the first and the last triple that are kept.
#[derive(Clone, Copy, Debug)]
pub(crate) struct Cut {
    pub first: usize,
    pub last: usize,
}

/// The triples that cover the ends of the range, on a clock with so many ticks.
pub(crate) fn cut_to(triples: &Triples, total: u64, range: TickRange) -> Result<Cut, ExcerptFault>
    ensures { Judges (excerpt_checks total triples.now.triples range.from range.to) (IsCut triples.now.triples range.from range.to) result }
{
    if range.to < range.from {
        return Err(ExcerptFault::BadRange);
    }
    if total < range.to {
        return Err(ExcerptFault::BadRange);
    }
    let Some(first) = triples.covering(range.from) else {
        return Err(ExcerptFault::BeforeFirst);
    };
    let Some(last) = triples.covering(range.to) else {
        unreachable!();
    };
    Ok(Cut { first, last })
}
