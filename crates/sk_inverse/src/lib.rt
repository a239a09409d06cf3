//! The tick of a time: the greatest tick whose time is not after a given one.
#![tactic(auto)]

mod fault;
mod laws;
mod lookup;
mod reach;
#[cfg(test)]
mod tests;
mod tick;

pub use fault::InverseFault;
pub use laws::exact_tick;
pub use tick::tick_at;
