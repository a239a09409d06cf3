//! Observation files.
#![tactic(auto)]

mod clock_word;
mod code_word;
mod digits;
mod fault;
mod fields;
mod file;
mod header;
mod hex_text;
mod marks;
mod observation;
mod observed;
mod reading;
mod record;
#[cfg(test)]
mod tests;
mod time_word;

pub use clock_word::read_clock_word;
pub use fault::{ClockWord, ClockWordStop, CodeFault, HeaderCause, ObsFault};
pub use file::read_observations;
pub use observation::Observation;
