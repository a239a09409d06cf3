//! Spacecraft clocks of type 1.
#![tactic(auto)]

mod clock;
mod code;
mod fault;
mod field;
mod kept;
mod kernel;
mod laws;
mod lookup;
mod name;
mod numbers;
mod partition;
mod reading;
mod scan;
mod stages;
mod text;
mod ticks;

pub use clock::Clock;
pub use fault::{ClockFault, ClockKernelFault, ClockName, TextFault};
pub use laws::texts_and_ticks;
