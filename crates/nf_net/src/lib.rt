//! This crate reads and prints networks: one source, one sink, links with transit times and capacities, and the supply of the source.
//! Times, amounts and rates are exact fractions. The file format is this project's own.
#![tactic(auto)]

mod amounts;
mod building;
mod labels;
mod network;
mod printing;
mod reading;

pub use amounts::supply;
pub use labels::start_labels;
pub use network::Network;
pub use nf_graph::{Hop, LinkId, NodeId};
pub use nf_net_def::NetRule;
pub use nf_net_file::{LONGEST_FILE, LONGEST_NAME, Link, MOST_NODES, NetFault, Piece};
pub use printing::text;
pub use reading::parse;
