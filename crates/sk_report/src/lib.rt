//! The residual table.
#![tactic(auto)]

mod fault;
mod line;
mod listing;
mod marking;
mod marks;
mod times;
mod words;

pub use fault::ReportFault;
pub use listing::table;
pub use times::{Timed, time_of};
