//! The line of a coefficient triple: its definitions.
#![tactic(auto)]
