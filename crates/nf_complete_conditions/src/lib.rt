//! Conditions on flows and slopes, tested link by link and node by node: those of a thin flow with resetting, and those that decide which
//! links are interior and which states they have.
#![tactic(auto)]

mod filled;
mod interior_flags;
mod leading;
mod node_sums;
mod numbers;
mod proper;
mod slopes;
mod states;
mod taken;

pub use filled::fulls;
pub use interior_flags::interior;
pub use node_sums::balances;
pub use numbers::both;
pub use proper::is_proper;
pub use slopes::keep_slopes;
pub use states::settled_pattern;
