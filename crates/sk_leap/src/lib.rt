//! Leap seconds and UTC.
#![tactic(auto)]

mod date;
mod digits;
mod entries;
mod kernel;
mod kernel_date;
mod laws;
mod lookup;
mod pair;
mod parts;
mod table;
mod tdt;
mod text;
mod utc;

pub use laws::{kernel_gives_table, one_time, one_utc, times_rise};
pub use table::{LeapFault, LeapName, LeapTable};
pub use text::{print_utc, read_utc};
pub use utc::{Utc, UtcFault, UtcTextFault};
