//! Sentences for people behind the line of a refusal: what it is about, what is wrong, and the nearest cure.
#![tactic(auto)]

mod advice;
mod causes;
mod cures;
mod distances;
mod further;
mod headers;
mod naming;
mod sentences;
mod subject;
#[cfg(test)]
mod tests;
mod told;

pub use told::write_told;
