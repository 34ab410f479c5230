//! The first undirected cycle of chosen links, and its cancelling: the flows along it change until one of its links is empty or full.
#![tactic(auto)]

mod cancelling;
mod cycle;
mod step;
mod way;

pub use cancelling::cancel;
pub use cycle::{Cycle, first_cycle};
pub use step::Step;
