//! What each command writes, by its request and by what was read: functions that read nothing.
#![tactic(auto)]

pub mod audit;
pub mod convert;
mod differences;
mod drawn;
pub mod excerpt;
mod inputs;
pub mod invert;
mod kernel;
pub mod least;
mod meaning;
pub mod normal;
pub mod plot;
pub mod publish;
pub mod residuals;
pub mod sample;
mod ticks;
mod time_word;

pub use inputs::{AuditInputs, Inputs, Opened, PlotInputs};
pub use kernel::Kernel;
pub use meaning::{kernel_meaning, leap_meaning, observed, second_meaning};
