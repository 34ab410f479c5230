//! The length of a phase, before a run is extended by it: its greatest length, and its length up to a horizon with the labels at its end.
#![tactic(auto)]

mod advancing;
mod lengths;

pub use advancing::{Advanced, advance};
pub use lengths::{end_of, extension};
