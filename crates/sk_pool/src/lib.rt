//! The variables that a text kernel gives.
#![tactic(auto)]

mod copies;
mod number;
mod pool;
mod table;
#[cfg(test)]
mod tests;

pub use copies::{copied_bytes, copied_values};
pub use number::only_number;
pub use pool::{Pool, PoolFault};
