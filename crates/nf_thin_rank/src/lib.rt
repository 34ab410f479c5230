//! Ranks of listed patterns: whether a pattern's rank in the listing is within a budget. Bounds on the rank decide, or the listing itself.
#![tactic(auto)]

mod families;
mod firming;
mod listings;
mod near;
mod pace;
mod ranking;
mod standing;

pub use listings::{listing, unbounded_flags};
pub use near::near_listed;
pub use pace::Pace;
pub use ranking::Ranking;
pub use standing::Standing;
