use crate::point::Point;

/// An observation and a later one.
#[derive(Clone, Copy, Debug)]
pub struct Pair {
    pub from: Point,
    pub to: Point,
}
