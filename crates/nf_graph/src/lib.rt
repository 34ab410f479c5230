//! Searches over the links of a network: the nodes that walks reach, cycles of zero transit, orders of nodes along links, and
//! least transit sums; and sets of links.
#![tactic(auto)]

mod distance;
mod ids;
mod order;
mod reach;
mod sets;

pub use distance::{DistanceFault, distances};
pub use ids::{Hop, LinkId, NodeId};
pub use order::{topological, zero_cycle};
pub use reach::reached;
pub use sets::LinkSets;
