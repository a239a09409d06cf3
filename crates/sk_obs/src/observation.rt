use sk_decimal::Fixed;
use sk_grammar::Bytes;
use std::marker::Model;

/// A clock reading and its time in 10^-12 s past J2000, by the record of this number. The id has 1 to 32 bytes from 33
/// to 126 without `"`, `,`, `;` and `\`; the time is at most 9·10^9 s in size.
#[derive(Debug, Drop)]
pub struct Observation {
    pub id: Bytes,
    pub number: u32,
    pub tick: u64,
    pub time: Fixed<12>,
}

impl Model for Observation {
    ghost use Rattle.sk_publishing.specs.Row.{RowView};
    ghost use Rattle.sk_obs.specs.Observation.{IsObservation};

    ghost Value = { RowView };

    ghost view = { λ o. record { id = o.id; number = o.number; tick = o.tick; time = o.time.units } };

    ghost invariant = { λ o. IsObservation (record { id = o.id; number = o.number; tick = o.tick; time = o.time.units }) };
}
