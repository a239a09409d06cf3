use thiserror::Error;

/// Why bytes are no CDS code.
#[derive(Clone, Copy, Debug, PartialEq, Eq, Error)]
pub enum CdsFault {
    #[error("there are no bytes")]
    Empty,
    #[error("the P-field is not that of a CDS code")]
    NotCds,
    #[error("the P-field is extended")]
    Extension,
    #[error("the code counts from an agency's epoch")]
    AgencyEpoch,
    #[error("the P-field has a reserved width of submilliseconds")]
    Reserved,
    /// The T-field has another length than the P-field says.
    #[error("the code has another length than its P-field says")]
    Length,
    /// There are 1000 microseconds or more, or 10^9 picoseconds or more.
    #[error("the submilliseconds are more than a millisecond")]
    SubRange,
}
