//! The coefficient triples of a clock kernel: `Triples::of` reads them, `Triples::time_at` gives the time of a tick.
#![tactic(auto)]

mod line;
mod lookup;
mod numbers;
mod reading;
mod triple;
mod triples;
mod values;

pub use lookup::covering_is_last;
pub use triple::{RangeFault, Triple, TriplesFault};
pub use triples::{Fall, Triples};
