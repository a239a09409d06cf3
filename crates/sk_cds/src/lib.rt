//! The day segmented time code CDS of CCSDS 301.0-B-4, section 3.3.
#![tactic(auto)]

mod any;
mod decoding;
mod fault;
mod field;
mod head;
mod laws;
mod parts;
mod reading;
#[cfg(test)]
mod tests;
mod writing;

pub use any::AnyCds;
pub use fault::CdsFault;
pub use field::Cds;
pub use laws::{codes_are_their_bytes, fields_are_their_bytes};
