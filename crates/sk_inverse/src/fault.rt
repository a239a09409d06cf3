use thiserror::Error;

/// Why a time has no tick.
#[derive(Clone, Copy, Debug, PartialEq, Eq, Error)]
pub enum InverseFault {
    /// It is before the time of the first triple.
    #[error("before the first triple")]
    BeforeFirst,
    /// It is later than the time of the greatest tick.
    #[error("past the last tick")]
    PastEnd,
}
