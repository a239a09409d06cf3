ghost use Rattle.std.specs.Prelude.{◌≡◌};
ghost use Rattle.sk_clock.specs.Clock.{IsClock, ticks_per as ticks_per_of, total as total_of};

use crate::field::Field;
use crate::partition::Partition;
use std::marker::Model;

/// The fields and partitions of a spacecraft clock.
#[derive(Debug, Drop)]
pub struct Clock {
    pub(crate) fields: Vec<Field>,
    pub(crate) delimiter: u8,
    pub(crate) partitions: Vec<Partition>,
    /// The lengths before each partition.
    pub(crate) earlier: Vec<u64>,
    pub(crate) total: u64,
}

impl Model for Clock {
    ghost use Rattle.sk_clock.specs.Clock.{ClockView};
    ghost use Rattle.sk_clock.specs.Kept.{view_of, IsKept};

    ghost Value = { ClockView };

    ghost view = { λ c. view_of c.fields.items c.delimiter c.partitions.items };

    ghost invariant = { λ c. IsKept c.fields.items c.delimiter c.partitions.items c.earlier.items c.total };
}

impl Clock {
    /// The ticks per most significant count.
    pub fn ticks_per(&self) -> u64
        ensures value { result ≡ ticks_per_of self.now }
        ensures clock { IsClock self.now }
    {
        self.fields[0].unit
    }

    /// The lengths of all partitions together.
    pub fn total(&self) -> u64
        ensures value { result ≡ total_of self.now }
        ensures clock { IsClock self.now }
    {
        self.total
    }
}
