//! Worked audits, on the call of the auditor.
#![tactic(auto)]

#[cfg(test)]
mod kernels;
#[cfg(test)]
mod verdicts;
