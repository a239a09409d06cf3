use thiserror::Error;

/// Why bytes are no CUC code.
#[derive(Clone, Copy, Debug, PartialEq, Eq, Error)]
pub enum CucFault {
    #[error("there are no bytes")]
    Empty,
    /// The P-field names neither the epoch 1958-01-01 TAI nor an agency's.
    #[error("the P-field is not that of a CUC code")]
    NotCuc,
    #[error("a third P-field octet is announced")]
    ThirdOctet,
    #[error("there are more than six fraction octets")]
    FractionWidth,
    /// The second P-field octet is due and missing, or the T-field has another length than the P-field says.
    #[error("the code has another length than its P-field says")]
    Length,
}

/// From when a code counts.
#[derive(Clone, Copy, Debug, PartialEq, Eq)]
pub enum CucEpoch {
    /// 1958-01-01 TAI.
    Tai,
    Agency,
}
