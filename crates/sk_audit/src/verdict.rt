use thiserror::Error;

/// Why a new kernel is not accepted, in the order in which it is judged.
#[derive(Clone, Copy, Debug, PartialEq, Eq, Error)]
pub enum AuditFault {
    #[error("the settings admit no publication")]
    Settings,
    #[error("the new kernel is not the old one and a block")]
    Standing,
    #[error("the new block has other items")]
    Items,
    #[error("the new triples are no publication")]
    Chain,
    /// The first line of the table that differs, from 1.
    #[error("line {0} of the table differs")]
    Table(u32),
}

#[derive(Clone, Copy, Debug, PartialEq, Eq)]
pub enum Verdict {
    Yes,
    No(AuditFault),
}
