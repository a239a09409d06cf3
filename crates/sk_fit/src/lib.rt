//! Rates, segments and chains: the publication of new triples.
#![tactic(auto)]

mod anchors;
mod bands;
mod chain;
mod context;
mod ending;
mod fault;
mod fitting;
mod gains;
mod open_segment;
mod partitions;
mod products;
mod publication;
mod rates;
mod settings;
mod start;

pub use chain::{Chain, End, Segment};
pub use fault::{Barrier, FitFault, Miss};
pub use publication::fit;
pub use rates::{bounds, meets, run_rates};
pub use settings::{Band, Bounds, Line, Settings};
