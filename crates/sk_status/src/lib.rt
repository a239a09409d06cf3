//! How a run ends: its status, and the line that it notes.
#![tactic(auto)]

mod names;
mod note;
mod pieces;
mod status;
#[cfg(test)]
mod tests;
mod words;

pub use note::{line_for, write_note};
pub use status::{
    DocumentKind, FileKind, KernelStop, LeapStop, ObsStop, Status, TextStop, TimeStop,
};
