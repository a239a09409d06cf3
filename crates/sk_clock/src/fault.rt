use thiserror::Error;

/// The variables that a clock kernel needs.
#[derive(Clone, Copy, Debug, PartialEq, Eq)]
pub enum ClockName {
    DataType,
    Fields,
    Moduli,
    Offsets,
    Delim,
    Start,
    End,
}

/// Why a pool gives no clock.
#[derive(Clone, Copy, Debug, PartialEq, Eq, Error)]
pub enum ClockKernelFault {
    #[error("a variable of the clock is missing")]
    Missing(ClockName),
    #[error("the clock is not of type 1")]
    NotType1,
    #[error("the clock counts barycentric time")]
    Barycentric,
    #[error("the time system is unknown")]
    BadTimeSystem,
    #[error("the number of fields is not from 1 to 10")]
    BadFields,
    #[error("the moduli do not fit the fields")]
    BadModuli,
    #[error("the offsets do not fit the fields")]
    BadOffsets,
    #[error("the delimiter code is not from 1 to 5")]
    BadDelim,
    #[error("starts and ends are no partitions")]
    BadPartitions,
    #[error("out of memory")]
    NoMemory,
}

/// Why a reading has no tick.
#[derive(Clone, Copy, Debug, PartialEq, Eq, Error)]
pub enum ClockFault {
    #[error("no clock string")]
    BadText,
    #[error("too many fields")]
    TooManyFields,
    #[error("a field is below its offset")]
    BelowOffset,
    #[error("there is no such partition")]
    NoSuchPartition,
    #[error("the count is outside its partition")]
    OutsidePartition,
    #[error("the code does not fit the fields of the clock")]
    WrongShape,
}

/// Why a tick has no text.
#[derive(Clone, Copy, Debug, PartialEq, Eq, Error)]
pub enum TextFault {
    #[error("past the last partition")]
    PastPartitions,
    #[error("out of memory")]
    NoMemory,
}
