use crate::line::Line;
use sk_decimal::Fixed;

/// Why a segment ends.
#[derive(Clone, Copy, Debug)]
pub enum End {
    Last,
    Partition,
    Fixed,
    /// The places of the two observations that block.
    Blocked { low: usize, high: usize },
}

/// What is told of a segment: its line, the place of the last observation that it covers, and why it ends.
#[derive(Clone, Copy, Debug)]
pub struct Told {
    pub anchor: Line,
    pub rate: Fixed<18>,
    pub place: Option<usize>,
    pub ended: End,
}
