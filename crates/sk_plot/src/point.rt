use crate::piece::Piece;
use sk_decimal::Fixed;
use std::marker::Model;

/// An observation as it is drawn: its id and clock text, its terrestrial time in 10^-12 s past J2000 TDT, at most
/// 10^22 in size, and its residual in 10^-12 s.
#[derive(Debug, Drop)]
pub struct Point {
    pub id: Vec<u8>,
    pub clock: Vec<u8>,
    pub time: Fixed<12>,
    pub residual: Fixed<12>,
}

impl Model for Point {
    ghost use Rattle.sk_plot.specs.Point.{PointView, IsPoint};

    ghost Value = { PointView };

    ghost view = { λ p. record { id = p.id.items; clock = p.clock.items; time = p.time.units; residual = p.residual.units } };

    ghost invariant = { λ p. IsPoint (record { id = p.id.items; clock = p.clock.items; time = p.time.units; residual = p.residual.units }) };
}

/// The observations and the triples of a kernel as they are drawn.
#[derive(Drop)]
pub struct Panel {
    pub points: Vec<Point>,
    pub pieces: Vec<Piece>,
}

impl Model for Panel {
    ghost use Rattle.sk_plot.specs.Point.{PanelView};

    ghost Value = { PanelView };

    ghost view = { λ p. record { points = p.points.items; pieces = p.pieces.items } };
}

impl Panel {
    ghost use Rattle.std.specs.Prelude.{◌≡◌};

    /// The observations, in order.
    pub fn points(&self) -> &[Point]
        ensures { result.now ≡ self.now.points }
    {
        self.points.as_slice()
    }

    /// The triples, in order.
    pub fn pieces(&self) -> &[Piece]
        ensures { result.now ≡ self.now.pieces }
    {
        self.pieces.as_slice()
    }
}
