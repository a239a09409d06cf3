//! A picture of clock residuals: one SVG 1.1 document, exact to the byte.
#![tactic(auto)]

mod axis;
mod document;
mod escape;
mod extent;
mod laws;
mod mark;
mod panel;
mod piece;
mod place;
mod point;
mod scale;
#[cfg(test)]
mod tests;

pub use document::{Drawing, picture};
pub use escape::push_escaped;
pub use laws::{
    escaped_is_harmless, greater_is_never_lower, inside_is_in_the_band, one_mark_each,
    the_axis_has_the_band,
};
pub use panel::Axes;
pub use piece::Piece;
pub use place::{Sheet, Values, across, band_bottom, band_top, is_inside, is_on, rise};
pub use point::{Panel, Point};
pub use scale::{Days, days_of, round_up, step_for};
