use crate::hull::Hull;
use std::marker::Model;

/// The hull of a run, and that of the run with the other sign of its times.
#[derive(Drop)]
pub struct Hulls {
    pub need: Hull,
    pub room: Hull,
}

impl Model for Hulls {
    ghost use Rattle.sk_least.specs.Search.{HullsView};

    ghost Value = { HullsView };

    ghost view = { λ h. record { need = h.need; room = h.room } };
}
