//! Reads flows files: the flow of each link of a network and the slope of each node. They may be a thin flow with resetting (Koch and
//! Skutella 2011). Numbers are exact fractions. The file format is this project's own.
#![tactic(auto)]

mod draft;
mod entry;
mod flows;
mod reading;

pub use flows::Flows;
pub use nf_complete_def::FlowsRule;
pub use reading::{FlowsFault, parse_flows};
