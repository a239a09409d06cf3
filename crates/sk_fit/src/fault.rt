use sk_decimal::Fixed;
use sk_triples::Fall;
use thiserror::Error;

/// A record, and its observed time less that of a line there, which is rounded down to the time unit.
#[derive(Clone, Copy, Debug, PartialEq, Eq)]
pub struct Miss {
    pub number: u32,
    pub distance: Fixed<12>,
}

/// Why the line before a record could not go on to it, with distances from that line at its rate so far.
#[derive(Clone, Copy, Debug, PartialEq, Eq)]
pub enum Barrier {
    /// It is the line of the old kernel's last triple, from which the record has this distance.
    OldLine(Fixed<12>),
    /// Each allowed rate is too small at the record `low` or too large at the record `high`, of those that the line
    /// covers and the one before which it was left. Of equal ones it is the earliest.
    Pair { low: Miss, high: Miss },
}

/// Why there is no publication.
#[derive(Clone, Copy, Debug, Error)]
pub enum FitFault {
    #[error("the hold is out of range")]
    BadHold,
    /// The first join of the old kernel that falls by more than the slip.
    #[error("the old kernel falls by more than the slip")]
    OldFalls(Fall),
    #[error("no rate is allowed")]
    BandEmpty,
    /// The record that no allowed rate meets from where the line before was left, and why that one could not go on.
    #[error("record {0}: no allowed rate meets it")]
    NoRate(u32, Barrier),
    /// The record at which time would fall.
    #[error("record {0}: time would fall")]
    TimeFalls(u32),
    #[error("more than 50,000 triples")]
    TooMany,
    #[error("out of memory")]
    NoMemory,
}
