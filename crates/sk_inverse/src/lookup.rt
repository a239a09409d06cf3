//! The triple of a time.

ghost use Rattle.sk_triples.specs.Kernel.{Rise};
ghost use Rattle.sk_inverse.specs.Search.{HaveBegun};

use sk_triples::Triple;

/// How many triples have begun at a time, in 10^-18 s.
pub fn begun(triples: &[Triple], time: i128) -> usize
    requires { Rise triples.now }
    ensures { HaveBegun triples.now time result }
{
    triples.partition_point(|triple| triple.time.units <= time)
}
