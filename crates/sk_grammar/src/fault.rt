use thiserror::Error;

/// Why a line is refused.
#[derive(Clone, Copy, Debug, PartialEq, Eq)]
pub enum Reason {
    DataLineTooLong,
    TextLineTooLong,
    BadByte,
    BadName,
    NoAssign,
    BadNumber,
    NumberTooWide,
    TextOpen,
    TextTooLong,
    BadDate,
    MixedKinds,
    BadComma,
    EmptyVector,
    AfterValue,
    Unfinished,
}

/// Why bytes are no kernel text.
#[derive(Clone, Copy, Debug, PartialEq, Eq, Error)]
pub enum GrammarFault {
    /// The first line, from 1, at which the text can no longer become a kernel text.
    #[error("line {line}: {reason:?}")]
    At { line: u32, reason: Reason },
    #[error("out of memory")]
    NoMemory,
}
