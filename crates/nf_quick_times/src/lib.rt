//! Times of a quickest flow: the times of nodes in its cut over time, with the value of that cut; and the least departure by which the
//! supply reaches an amount.
#![tactic(auto)]

mod cut;
mod departing;

pub use cut::{node_times, value_of};
pub use departing::departure;
