//! Tests and settles thin flows (Koch and Skutella 2011; Cominetti, Correa and Larré 2015). Decides whether flows and slopes are a thin
//! flow, cancels cycles of its links, and settles it into a listed pattern. Flows and slopes are exact fractions.
#![tactic(auto)]

mod settled;
mod settling;
mod thin;

pub use nf_complete_read::{Flows, FlowsFault, FlowsRule, parse_flows};
pub use settled::Settled;
pub use settling::settle;
pub use thin::is_thin;
