//! Why words are refused.
use crate::tables::OptionName;

/// What is refused of the words.
#[derive(Clone, Copy, Debug)]
pub enum WordsFault {
    NotTaken,
    UnknownCommand,
    NeedOption(OptionName),
    OutOfRange(OptionName),
}

/// Why the words ask for nothing.
#[derive(Clone, Copy, Debug)]
pub enum WordsStop {
    Refused(WordsFault),
    NoMemory,
}
