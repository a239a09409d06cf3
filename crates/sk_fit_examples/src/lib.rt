//! Worked publications, on the calls of the fitter.
#![tactic(auto)]

#[cfg(test)]
mod kernels;
#[cfg(test)]
mod lines;
#[cfg(test)]
mod publications;
