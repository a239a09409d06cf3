//! The unsegmented time code CUC of CCSDS 301.0-B-4, section 3.2.
#![tactic(auto)]

mod any;
mod decoding;
mod fault;
mod field;
mod head;
mod laws;
mod parts;
mod reading;
#[cfg(test)]
mod tests;
mod time;
mod writing;

pub use any::AnyCuc;
pub use fault::{CucEpoch, CucFault};
pub use field::Cuc;
pub use laws::{codes_are_their_bytes, fields_are_their_bytes};
