use sk_decimal::Fixed;
use std::marker::Model;
use thiserror::Error;

/// From which tick and time on a clock runs at a rate, in seconds per most significant count.
#[derive(Clone, Copy, Debug)]
pub struct Triple {
    pub ticks: u64,
    pub time: Fixed<18>,
    pub rate: Fixed<18>,
}

impl Model for Triple {
    ghost use Rattle.sk_line.specs.Triple.{TripleView};

    ghost Value = { TripleView };

    ghost view = { λ t. record { anchor = record { ticks = t.ticks; time = t.time.units }; rate = t.rate.units } };

    ghost inverse = { λ v. record { ticks = v.anchor.ticks; time = record { units = v.anchor.time }; rate = record { units = v.rate } } };
}

/// Why a pool gives no triples. Triples are numbered from 1.
#[derive(Clone, Copy, Debug, PartialEq, Eq, Error)]
pub enum TriplesFault {
    #[error("there are no coefficients")]
    Missing,
    #[error("the coefficients are no triples of a number, a number or a date, and a number")]
    NotTriples,
    #[error("triple {0}: the ticks are out of range")]
    TickRange(u32),
    #[error("triple {0}: the date is no calendar time")]
    TimeForm(u32),
    #[error("triple {0}: the time is out of range")]
    TimeRange(u32),
    #[error("triple {0}: the rate is out of range")]
    RateRange(u32),
    #[error("triple {0}: ticks or time do not rise")]
    OutOfOrder(u32),
    #[error("more than 50,000 triples")]
    TooMany,
    #[error("out of memory")]
    NoMemory,
}

/// Why a tick has no time.
#[derive(Clone, Copy, Debug, PartialEq, Eq, Error)]
pub enum RangeFault {
    #[error("before the first triple")]
    BeforeFirst,
    #[error("past the last partition")]
    PastPartitions,
}
