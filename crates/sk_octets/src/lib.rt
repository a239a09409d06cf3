//! Octets and the numbers that they spell, as time codes use them.
#![tactic(auto)]

mod bits;
mod fault;
mod number;
#[cfg(test)]
mod tests;

pub use bits::bits_of;
pub use fault::WrongLength;
pub use number::{number_of, one_spelling, put_number};
