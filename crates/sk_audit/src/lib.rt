//! A second opinion on a published kernel.
#![tactic(auto)]

mod anchors;
mod auditing;
mod bands;
mod claims;
mod ending;
mod gains;
mod interval;
mod items;
mod line;
mod marks;
mod partitions;
mod products;
mod rates;
mod row;
mod scene;
mod settings;
mod standing;
mod start;
mod table;
mod times;
mod told;
mod verdict;
mod walk;
mod walking;

pub use auditing::audit;
pub use settings::AuditSettings;
pub use verdict::{AuditFault, Verdict};
