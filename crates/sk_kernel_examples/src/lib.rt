//! Worked kernels, on the calls that read them.
#![tactic(auto)]

#[cfg(test)]
mod clocks;
#[cfg(test)]
mod documents;
#[cfg(test)]
mod leap_tables;
#[cfg(test)]
mod runs;
#[cfg(test)]
mod texts;
#[cfg(test)]
mod triples;
