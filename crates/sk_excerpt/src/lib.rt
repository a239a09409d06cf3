//! Kernels joined, and cut to a range of ticks.
#![tactic(auto)]

mod cut;
mod doc;
mod fault;
mod items;
mod joining;
mod laws;
#[cfg(test)]
mod tests;

pub use cut::TickRange;
pub use doc::{Kernel, excerpt};
pub use fault::ExcerptFault;
pub use joining::join;
pub use laws::{excerpt_keeps_times, joined_in_turn};
