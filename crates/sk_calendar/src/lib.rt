//! Calendar times of text kernels: dates of the Gregorian calendar with a time of day or none, as exact times.
#![tactic(auto)]

mod clock;
mod date;
mod days;
mod laws;
mod months;
mod numbers;
#[cfg(test)]
mod tests;
mod time;

pub use laws::one_calendar_time;
pub use time::read_calendar_time;
