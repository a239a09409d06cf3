//! How many lines any fit of the observations needs.
#![tactic(auto)]

mod cover;
mod hull;
mod hulls;
mod laws;
mod pair;
mod point;
mod search;
mod slope;
mod stretch;
#[cfg(test)]
mod tests;

pub use cover::least;
pub use laws::{no_fewer_lines, no_fewer_segments, one_answer};
pub use stretch::{Stop, Stretch};
