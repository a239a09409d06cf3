//! The triple of a tick.

ghost use Rattle.std.specs.Prelude.{◌≡◌, ◌≤◌, ◌↔◌, ◌+◌, ℕ, List, Some, None, length, MatchOption};
ghost use Rattle.sk_line.specs.Triple.{TripleView};
ghost use Rattle.sk_line.specs.Line.{covering, begun_at};
ghost use Rattle.sk_triples.specs.Kernel.{AreTriples, IsCovering, Rise};

use crate::triple::Triple;

/// How many triples have begun at a tick.
pub fn begun(triples: &[Triple], tick: u64) -> usize
    requires { Rise triples.now }
    ensures number { result ≡ begun_at triples.now tick }
    ensures few { result ≤ length triples.now }
{
    triples.partition_point(|triple| triple.ticks <= tick)
}

/// The triple that covers a tick, and its place.
pub fn covering_triple(triples: &[Triple], tick: u64) -> Option<(usize, Triple)>
    requires { Rise triples.now }
    ensures { MatchOption result (covering triples.now tick ≡ None) (λ found. covering triples.now tick ≡ Some (found.0 + 1, found.1)) }
{
    match begun(triples, tick) {
        0 => None,
        number => Some((number - 1, triples[number - 1])),
    }
}

/// The triple that covers a tick is the last one whose ticks are not greater.
pub fn covering_is_last()
    ensures { (total tick place : ℕ) (triples : List TripleView) (triple : TripleView) → AreTriples total triples
        → (covering triples tick ≡ Some (place + 1, triple)) ↔ IsCovering triples tick place triple }
{}
