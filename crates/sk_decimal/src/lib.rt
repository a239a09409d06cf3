//! Exact decimal numbers.
#![tactic(auto)]

mod decimal;
mod division;
mod ending;
mod fixed;
mod laws;
mod line;
mod parse;
mod placing;
mod printing;
mod reading;
mod short;
#[cfg(test)]
mod tests;

pub use decimal::{Decimal, NumberFault};
pub use division::{ceil_div, floor_div};
pub use fixed::Fixed;
pub use laws::{fixed_text_is_read, one_decimal, plain_spelling_is_read};
pub use line::Line;
