ghost use Rattle.std.specs.Prelude.{◌^◌, ◌<◌};

use thiserror::Error;

/// A UTC: the days since 2000-01-01, the second of the day, and picoseconds.
#[derive(Clone, Copy, Debug, PartialEq, Eq)]
pub struct Utc {
    pub day: i32,
    pub sod: u32,
    pub sub: u64,
    ghost sub_in_second: { sub < 10 ^ 12 },
}

/// Why a UTC has no time by a leap table, or a time no UTC.
#[derive(Clone, Copy, Debug, PartialEq, Eq, Error)]
pub enum UtcFault {
    /// The table has no pair, or its first one is later.
    #[error("before the leap table")]
    BeforeTable,
    /// The day has no such second.
    #[error("the day has no such second")]
    NotInDay,
    /// The time is above 9·10^9 s.
    #[error("past the range of times")]
    PastRange,
}

/// Why a text is no UTC.
#[derive(Clone, Copy, Debug, PartialEq, Eq, Error)]
pub enum UtcTextFault {
    /// It is neither code A nor code B.
    #[error("neither code A nor code B")]
    NotUtc,
}
