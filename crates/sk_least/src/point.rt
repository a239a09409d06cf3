use std::marker::Model;

/// An observation: its place, its tick, and its time in 10^-12 s.
#[derive(Clone, Copy, Debug)]
pub struct Point {
    pub place: usize,
    pub tick: u64,
    pub time: i128,
}

impl Model for Point {
    ghost use Rattle.sk_publishing.specs.Terms.{Sight};
    ghost use Rattle.sk_least.specs.Small.{IsSmall};

    ghost Value = { Sight };

    ghost view = { λ p. record { place = p.place; tick = p.tick; time = p.time } };

    ghost invariant = { λ p. IsSmall (record { place = p.place; tick = p.tick; time = p.time }) };

    ghost inverse = { λ o. record { place = o.place; tick = o.tick; time = o.time } };
}
