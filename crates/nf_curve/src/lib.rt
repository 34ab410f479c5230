//! This crate holds piecewise linear functions of time, given by points, and flows over time built from these functions.
//!
//! Times and values are exact fractions. A curve is linear between neighbouring points and constant after the last one.
#![tactic(auto)]

mod composed;
mod curve;
mod cut;
mod differences;
mod flow;
mod least;
mod lines;
mod places;
mod short;
mod sums;
mod values;
mod walk;

pub use curve::{Curve, Difference};
pub use cut::ends_at;
pub use flow::{Flow, Stop, Trace};
pub use lines::{Point, Sides, line, slope};
pub use places::{place_near, place_next};
pub use values::{PieceSlope, value_at, value_with};
pub use walk::{Moment, earlier, first_moment, next_moment, sides_at, time_at};
