//! The document of a publication: the kernel with the new triples and the table behind it.
#![tactic(auto)]

mod doc;
mod items;
mod numbers;
#[cfg(test)]
mod tests;

pub use doc::published_doc;
