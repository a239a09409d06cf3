//! The words of the command line: what they ask for, or why they are refused.
#![tactic(auto)]

mod about;
#[cfg(test)]
mod audit_tests;
mod fault;
mod given;
#[cfg(test)]
mod given_tests;
mod help;
#[cfg(test)]
mod help_tests;
mod laws;
mod limits;
mod matched;
mod over;
mod ranges;
mod request;
mod settings;
mod tables;
#[cfg(test)]
mod tests;
mod topic;

pub use fault::{WordsFault, WordsStop};
pub use given::{GivenWords, given_in, station_words};
pub use help::{page, version};
pub use laws::ids_are_calendar_times;
pub use matched::{MatchStop, refusal_text};
pub use request::{Request, requested};
pub use tables::{Command, OptionName};
pub use topic::{Topic, topic_of};
