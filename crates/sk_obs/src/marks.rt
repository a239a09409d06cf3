//! The marks that words begin with.

ghost use Rattle.std.specs.Prelude.{◌≡◌, length, drop, IsTrue, IsFalse, MatchOption};
ghost use Rattle.sk_obs.specs.Words.{has_mark};

/// What stands behind the mark; `None` exactly where the word begins with something else.
pub fn behind<'a>(word: &'a [u8], mark: &[u8]) -> Option<&'a [u8]>
    ensures { MatchOption result (IsFalse (has_mark word.now mark.now)) (λ rest. IsTrue (has_mark word.now mark.now) × (rest.now ≡ drop (length mark.now) word.now)) }
{
    if word.starts_with(mark) {
        let (_, rest) = word.split_at(mark.len());
        Some(rest)
    } else {
        None
    }
}
