//! A test that rejects a pattern without its table, at known slopes: whether its links can carry a flow that is conserved at every node.
#![tactic(auto)]

mod leaves;
mod links_at;
mod node_test;
mod ranges;
mod ruling;
mod scaled;
mod scaling;
mod stated;

pub use ruling::ruled_out_at;
pub use scaled::{Scaled, scaled_flows};
