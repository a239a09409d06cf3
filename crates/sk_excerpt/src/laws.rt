//! Laws of joined documents and of excerpts.

ghost use Rattle.sk_excerpt.specs.Law.{ExcerptLaw, JoinLaw};

/// An excerpt is a kernel of its own: it has the clock of its source, its triples are those that were kept, and each
/// tick of the range has the time that it has by the source.
pub fn excerpt_keeps_times()
    ensures { ExcerptLaw }
{}

/// Documents that are joined one after another are those joined at once.
pub fn joined_in_turn()
    ensures { JoinLaw }
{}
