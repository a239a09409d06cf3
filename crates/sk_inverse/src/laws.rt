//! A law of ticks and times.

ghost use Rattle.sk_inverse.specs.Inverse.{ExactTickLaw};

/// Where no join falls, the tick of a time that is exactly that of a tick is this tick.
pub fn exact_tick()
    ensures { ExactTickLaw }
{}
