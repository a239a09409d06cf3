//! Kernels as canonical text.
#![tactic(auto)]

mod append;
#[cfg(test)]
mod tests;
mod write;

pub use append::{AppendRefused, append_block};
pub use write::write_doc;
