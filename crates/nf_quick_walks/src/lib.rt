//! The walks of a quickest flow: shortest residual walks, pushed one after the other, and walks with rates, taken off the flow of the
//! pushes. A walk of unbounded links is found if there is one.
#![tactic(auto)]

mod pushes;
mod rated;
mod unbounded;
mod walks;

pub use pushes::QuickStanding;
pub use rated::{Augment, Rated};
pub use unbounded::unbounded_walk;
pub use walks::walks_off;
