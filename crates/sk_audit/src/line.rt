ghost use Rattle.std.specs.Prelude.{◌↔◌, ◌<ℤ◌, IsTrue};

use sk_decimal::Fixed;

/// Where a line begins, in 10^-18 s past J2000.
#[derive(Clone, Copy, Debug)]
pub struct Line {
    pub ticks: u64,
    pub time: Fixed<18>,
}

/// The allowed rates, in steps of the rate grid.
#[derive(Clone, Copy, Debug)]
pub struct Band {
    pub least: i128,
    pub greatest: i128,
}

/// The least and the greatest rate that meet observations, in steps of the rate grid.
#[derive(Clone, Copy, Debug)]
pub struct Bounds {
    pub least: i128,
    pub greatest: i128,
}

impl Bounds {
    /// No rate is between these.
    pub fn is_empty(self) -> bool
        ensures { IsTrue result ↔ (self.greatest <ℤ self.least) }
    {
        self.greatest < self.least
    }
}
