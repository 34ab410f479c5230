//! Loads the links of a network along given routes, one after the other. What a route has sent into a link is sent on to its next link.
//! The exits of the loaded links give the arrival of each departure along a route.
#![tactic(auto)]

mod composing;
mod ends;
mod entries;
mod keeping;
mod loading;
mod next;
mod points;
mod so_far;
mod stages;

pub use composing::travels;
pub use keeping::Kept;
pub use loading::load_all;
pub use so_far::{LoadedLink, SoFar};
pub use stages::Stages;
