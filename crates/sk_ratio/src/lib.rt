//! Fractions of whole numbers, checked against the width of i128.
#![tactic(auto)]

mod checked;
mod ratio;
#[cfg(test)]
mod tests;
mod units;

pub use ratio::Ratio;
