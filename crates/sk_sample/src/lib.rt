//! The files of a sample: a clock kernel, and observations that follow from a seed.
#![tactic(auto)]

mod kernel;
mod observations;
#[cfg(test)]
mod tests;
mod walk;

pub use kernel::{SPACECRAFT, kernel_text};
pub use observations::observations_of;
