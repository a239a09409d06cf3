use sk_triples::RangeFault;
use thiserror::Error;

/// Why there is no table.
#[derive(Clone, Copy, Debug, PartialEq, Eq, Error)]
pub enum ReportFault {
    /// The tick of this record has no time.
    #[error("record {0}: {1}")]
    Range(u32, RangeFault),
    #[error("out of memory")]
    NoMemory,
}
